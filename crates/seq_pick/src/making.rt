//! What a pick makes before its commit: trees, index and files, and the message.

ghost use Rattle.std.specs.Prelude.{◌≡◌, ◌<◌, ◌^◌, IfOk, IsErrOf, OnOk, length};
ghost use Rattle.index_file.specs.Entries.{IsInOrder};
ghost use Rattle.index_file.specs.Index.{indexed};
ghost use Rattle.path_trees.specs.Puts.{trees_put};
ghost use Rattle.seq_model.specs.Changes.{Changes};
ghost use Rattle.seq_model.specs.Making.{can_have, message_path, switched_clear_to, switched_to};
ghost use Rattle.seq_model.specs.Picked.{merge_made};
ghost use Rattle.seq_model.specs.Refusing.{denied_file, denied_git, refuse_found};
ghost use Rattle.seq_outside.specs.Halts.{Denies, Gives, halt_cause};
ghost use Rattle.seq_outside.specs.Seen.{Reads, Writes};
ghost use Rattle.seq_outside.specs.Turns.{Turns, put_in, saying};
ghost use Rattle.seq_pick.specs.Merging.{merging_is};
ghost use Rattle.stage_index.specs.Switching.{first_obstructed};
ghost use Rattle.worktree.specs.Switches.{switched_clear};

use crate::merging::Merging;
use index_file::IndexEntry;
use path_trees::write_trees;
use seq_base::{Bytes, Id, PathMap};
use seq_model::{Denial, LimitWhat, Refusal, refused};
use seq_outside::{Halt, Store, StoreError};
use stage_index::{from_map, staged_path};
use start_checks::{INDEX_LIMIT, file_halt, git_halt};
use std::alloc::Global;
use worktree::{obstructed_path, switch_clear};

/// Refuses a map that no commit on HEAD's map can have.
#[tactic(auto, unfolding(seq_model::specs::Making::can_have))]
fn refuse_unfit(map: &PathMap, index: &[IndexEntry], ours: &PathMap) -> Result<(), Halt<Denial>>
    requires order { IsInOrder index.now }
    requires index { index.now ≡ indexed map.now }
    ensures gives { Gives (λ x. x) result (can_have ours.now map.now) }
    ensures fits { OnOk result (length map.now < 2 ^ 32) }
    ensures no_fault { IsErrOf result Halt.Fault → ⊥ }
{
    let count = map.len();
    if count > INDEX_LIMIT {
        return Err(Halt::Stops(Denial::Limit {
            what: LimitWhat::IndexEntries,
            number: count as u64,
        }));
    }
    match staged_path(index, ours) {
        None => Err(refused(Refusal::NotBuilt)),
        Some(_) => Ok(()),
    }
}

/// The trees of a map.
#[tactic(auto, using(seq_model::proofs::Owning::objects_owned))]
fn put_trees<S: Store>(alloc: Global, map: &PathMap, store: &mut S) -> Result<Id, Halt<Denial>>
    ensures turns { S.told → Turns (λ id. id) result (saying denied_git (trees_put map.now) (S.seen store.old).content) (S.seen store.new).content }
    ensures owns { S.told → Changes (S.seen store.old).content (S.seen store.new).content }
    ensures writes { Writes S.told halt_cause result (S.seen store.old) (S.seen store.new) }
{
    match write_trees(alloc, store, map) {
        Ok(root) => Ok(root),
        Err(halt) => Err(git_halt(halt)),
    }
}

/// Index and files, switched to a map in whose way no file is.
#[tactic(auto, using(seq_model::proofs::Owning::switch_owned))]
fn switch<S: Store>(
    alloc: Global,
    index: &[IndexEntry],
    map: &PathMap,
    store: &mut S,
) -> Result<(), Halt<Denial>>
    requires order { IsInOrder index.now }
    requires few { length map.now < 2 ^ 32 }
    ensures turns { S.told → Turns (λ x. x) result
        (saying denied_file (switched_clear index.now map.now) (S.seen store.old).content)
        (S.seen store.new).content }
    ensures owns { S.told → Changes (S.seen store.old).content (S.seen store.new).content }
    ensures writes { Writes S.told halt_cause result (S.seen store.old) (S.seen store.new) }
{
    match switch_clear(alloc, store, index, map) {
        Ok(()) => Ok(()),
        Err(halt) => Err(file_halt(halt)),
    }
}

/// The message of the commit that is made.
#[tactic(auto, unfolding(seq_outside::specs::Turns::put_in), using(seq_model::proofs::Owning::message_owned))]
fn put_message<S: Store>(alloc: Global, message: &[u8], store: &mut S) -> Result<(), Halt<Denial>>
    ensures turns { S.told → Turns (λ x. x) result
        (saying denied_git (put_in message_path message.now) (S.seen store.old).content)
        (S.seen store.new).content }
    ensures owns { S.told → Changes (S.seen store.old).content (S.seen store.new).content }
    ensures writes { Writes S.told halt_cause result (S.seen store.old) (S.seen store.new) }
{
    match store.put(alloc, b".git/COMMIT_EDITMSG", message) {
        Ok(()) => Ok(()),
        Err(StoreError::Blocked) => Err(refused(Refusal::NotBuilt)),
        Err(StoreError::Failed) => Err(Halt::Fault),
        Err(StoreError::Memory) => Err(Halt::Memory),
    }
}

/// Trees, index and files, and the message, for a map in whose way no file is; answers the root's id.
#[tactic(auto, unfolding(seq_model::specs::Making::switched_clear_to), using(seq_model::proofs::Owning::owned_both))]
fn make_clear<S: Store>(
    alloc: Global,
    index: &[IndexEntry],
    map: &PathMap,
    message: &[u8],
    store: &mut S,
) -> Result<Id, Halt<Denial>>
    requires order { IsInOrder index.now }
    requires few { length map.now < 2 ^ 32 }
    ensures turns { S.told → Turns (λ id. id) result
        (switched_clear_to index.now map.now message.now (S.seen store.old).content)
        (S.seen store.new).content }
    ensures owns { S.told → Changes (S.seen store.old).content (S.seen store.new).content }
    ensures writes { Writes S.told halt_cause result (S.seen store.old) (S.seen store.new) }
{
    let tree = put_trees(alloc, map, store)?;
    switch(alloc, index, map, store)?;
    put_message(alloc, message, store)?;
    Ok(tree)
}

/// Refuses where an untracked file is in the way of a path.
fn refuse_obstructed<S: Store>(
    alloc: Global,
    index: &[IndexEntry],
    map: &PathMap,
    store: &mut S,
) -> Result<(), Halt<Denial>>
    requires order { IsInOrder index.now }
    requires few { length map.now < 2 ^ 32 }
    ensures gives { S.told → Gives (λ x. x) result
        (refuse_found (first_obstructed (S.seen store.old).content index.now map.now) Refusal.WouldOverwrite) }
    ensures reads { Reads S.told halt_cause result (S.seen store.old) (S.seen store.new) }
{
    match obstructed_path(alloc, store, index, map)? {
        Some(path) => {
            let path = Bytes::from_vec(path.bytes().to_vec(alloc)?);
            Err(refused(Refusal::WouldOverwrite { path }))
        }
        None => Ok(()),
    }
}

/// The same, for a map that a commit on HEAD's can have, and in whose way no untracked file is.
#[tactic(auto, unfolding(seq_model::specs::Making::switched_to))]
fn make_switch<S: Store>(
    alloc: Global,
    index: &[IndexEntry],
    ours: &PathMap,
    map: &PathMap,
    message: &[u8],
    store: &mut S,
) -> Result<Id, Halt<Denial>>
    requires { IsInOrder index.now }
    ensures turns { S.told → Turns (λ id. id) result
        (switched_to index.now ours.now map.now message.now (S.seen store.old).content)
        (S.seen store.new).content }
    ensures owns { S.told → Changes (S.seen store.old).content (S.seen store.new).content }
    ensures writes { Writes S.told halt_cause result (S.seen store.old) (S.seen store.new) }
{
    let entries = from_map(alloc, map)?;
    refuse_unfit(map, &entries, ours)?;
    refuse_obstructed(alloc, index, map, store)?;
    make_clear(alloc, index, map, message, store)
}

/// What a pick that is merged makes before its commit; answers the root's id.
#[tactic(auto, unfolding(seq_model::specs::Picked::merge_made))]
pub fn make_merge<S: Store>(
    alloc: Global,
    merging: &Merging,
    store: &mut S,
) -> Result<Id, Halt<Denial>>
    requires { IsInOrder merging.now.index.items }
    ensures turns { S.told → Turns (λ id. id) result (merge_made (merging_is merging.now) (S.seen store.old).content) (S.seen store.new).content }
    ensures owns { S.told → Changes (S.seen store.old).content (S.seen store.new).content }
    ensures writes { Writes S.told halt_cause result (S.seen store.old) (S.seen store.new) }
{
    make_switch(
        alloc,
        &merging.index,
        &merging.ours,
        &merging.map,
        merging.commit.message.as_slice(),
        store,
    )
}
