//! Index and files are switched to a map.

ghost use Rattle.std.specs.Prelude.{◌≡◌, ◌<◌, ◌^◌, IfOk, OnOk, length};
ghost use Rattle.child_steps.specs.Causes.{HasStepCause};
ghost use Rattle.child_steps.specs.Children.{spot_of};
ghost use Rattle.index_file.specs.Entries.{IsInOrder};
ghost use Rattle.line_steps.specs.Finding.{may_stand};
ghost use Rattle.line_steps.specs.Places.{lacked_at as lacked_at_of, writes};
ghost use Rattle.line_steps.specs.Writing.{blob_put, blobs_put, filled_with, is_same as is_same_map};
ghost use Rattle.line_steps.specs.Writing.{switched_giving, switched_over, switched_with, tree_put};
ghost use Rattle.seq_outside.specs.Follows.{Follows};
ghost use Rattle.seq_outside.specs.Halts.{Gives, halt_cause};
ghost use Rattle.seq_outside.specs.Seen.{Reads, Writes};
ghost use Rattle.seq_outside.specs.Turns.{Turns};
ghost use Rattle.seq_step.specs.Causes.{RunsNone, stop_failed};
ghost use Rattle.seq_step.specs.Finding.{found_is};
ghost use Rattle.worktree.specs.Switches.{unobstructed};
ghost use Rattle.seq_step.specs.Keeping.{Keeps};

use crate::finding::{Found, may_have};
use crate::stop::lacked_at;
use content_merge::Texts;
use index_file::IndexEntry;
use line_steps::{Place, Stop};
use object_text::Kind;
use objects::write_object;
use path_trees::write_trees;
use seq_base::{Bytes, Id, PathMap};
use seq_outside::{Clock, Halt, Lack, Spawner, Store};
use stage_index::{from_map, staged_path};
use std::alloc::{AllocError, Global};
use worktree::{obstructed_path, switch_clear};

/// Stops at the least path in whose way an untracked file is.
#[tactic(auto, unfolding(worktree::specs::Switches::unobstructed))]
fn stop_obstructed<S: Store>(
    alloc: Global,
    index: &[IndexEntry],
    map: &PathMap,
    store: &mut S,
) -> Result<(), Halt<Lack>>
    requires order { IsInOrder index.now }
    requires few { length map.now < 2 ^ 32 }
    ensures gives { S.told → Gives (λ x. x) result (unobstructed (S.seen store.old).content index.now map.now) }
    ensures reads { Reads S.told halt_cause result (S.seen store.old) (S.seen store.new) }
{
    match obstructed_path(alloc, store, index, map)? {
        Some(path) => {
            let path = Bytes::from_vec(path.bytes().to_vec(alloc)?);
            Err(Halt::Stops(Lack::Way { path }))
        }
        None => Ok(()),
    }
}

/// Stops where an index cannot hold a map, or an untracked file is in its way.
#[tactic(auto, unfolding(line_steps::specs::Finding::may_stand))]
pub fn stop_unfit<S: Store>(
    alloc: Global,
    index: &[IndexEntry],
    map: &PathMap,
    store: &mut S,
) -> Result<(), Halt<Lack>>
    requires order { IsInOrder index.now }
    ensures gives { S.told → Gives (λ x. x) result (may_stand index.now map.now (S.seen store.old).content) }
    ensures few { OnOk result (length map.now < 2 ^ 32) }
    ensures reads { Reads S.told halt_cause result (S.seen store.old) (S.seen store.new) }
{
    may_have(map.len())?;
    stop_obstructed(alloc, index, map, store)
}

/// Index and files of a map.
#[tactic(auto, unfolding(line_steps::specs::Writing::switched_over))]
pub fn switch_over<S: Store>(
    alloc: Global,
    index: &[IndexEntry],
    map: &PathMap,
    store: &mut S,
) -> Result<(), Halt<Lack>>
    requires order { IsInOrder index.now }
    ensures turns { S.told → Turns (λ x. x) result (switched_over index.now map.now (S.seen store.old).content) (S.seen store.new).content }
    ensures writes { Writes S.told halt_cause result (S.seen store.old) (S.seen store.new) }
{
    stop_unfit(alloc, index, map, store)?;
    switch_clear(alloc, store, index, map)
}

/// The same, over the index that was found.
fn switch_found<S: Store>(
    alloc: Global,
    found: &Found,
    map: &PathMap,
    store: &mut S,
) -> Result<(), Halt<Lack>>
    requires order { IsInOrder found.now.index.items }
    ensures turns { S.told → Turns (λ x. x) result (switched_over found.now.index.items map.now (S.seen store.old).content)
        (S.seen store.new).content }
    ensures writes { Writes S.told halt_cause result (S.seen store.old) (S.seen store.new) }
{
    switch_over(alloc, &found.index, map, store)
}

/// Index and files of a map, as a step of the line of a commit.
pub fn switch_step<S: Store, P: Spawner<S>, C: Clock>(
    alloc: Global,
    pick: Id,
    found: &Found,
    map: &PathMap,
    place: &mut Place,
    store: &mut S,
    spawner: &mut P,
    clock: &mut C,
) -> Result<(), Halt<Stop>>
    requires order { IsInOrder found.now.index.items }
    ensures follows { S.told → Follows P.ran C.ticked spawner.old clock.old spawner.new clock.new (λ x. x)
        (writes (lacked_at_of pick) (switched_over found.now.index.items map.now))
        (spot_of (S.seen store.old) place.old) result (spot_of (S.seen store.new) place.new) }
    ensures none { RunsNone result }
    ensures cause { HasStepCause S.told stop_failed result (S.seen store.old) (S.seen store.new) (P.seen spawner.old) (P.seen spawner.new) }
    ensures keeps { Keeps place.old result place.new }
{
    match switch_found(alloc, found, map, store) {
        Ok(()) => Ok(()),
        Err(Halt::Stops(lack)) => Err(Halt::Stops(lacked_at(pick, lack))),
        Err(Halt::Fault) => Err(Halt::Fault),
        Err(Halt::Memory) => Err(Halt::Memory),
    }
}

/// Whether two maps are the same.
pub fn is_same(alloc: Global, map: &PathMap, other: &PathMap) -> Result<bool, AllocError>
    ensures { IfOk result (λ same. same ≡ is_same_map map.now other.now) }
{
    let index = from_map(alloc, map)?;
    match staged_path(&index, other) {
        Some(_) => Ok(false),
        None => Ok(true),
    }
}

/// Puts a blob.
#[tactic(auto, unfolding(line_steps::specs::Writing::blob_put))]
fn put_blob<S: Store>(alloc: Global, text: &Bytes, store: &mut S) -> Result<(), Halt<Lack>>
    ensures turns { S.told → Turns (λ x. x) result (blob_put text.now (S.seen store.old).content) (S.seen store.new).content }
    ensures writes { Writes S.told halt_cause result (S.seen store.old) (S.seen store.new) }
{
    let _id = write_object(alloc, store, Kind::Blob, text.as_slice())?;
    Ok(())
}

/// Puts the new blobs of a merge.
fn put_blobs<S: Store>(alloc: Global, texts: &[Bytes], store: &mut S) -> Result<(), Halt<Lack>>
    ensures turns { S.told → Turns (λ x. x) result (blobs_put texts.now (S.seen store.old).content) (S.seen store.new).content }
    ensures writes { Writes S.told halt_cause result (S.seen store.old) (S.seen store.new) }
{
    let mut rest = texts;
    while let [text, after @ ..] = rest {
        put_blob(alloc, text, store)?;
        rest = after;
    }
    Ok(())
}

pub fn put_texts<S: Store>(alloc: Global, texts: &Texts, store: &mut S) -> Result<(), Halt<Lack>>
    ensures turns { S.told → Turns (λ x. x) result (blobs_put texts.now (S.seen store.old).content) (S.seen store.new).content }
    ensures writes { Writes S.told halt_cause result (S.seen store.old) (S.seen store.new) }
{
    put_blobs(alloc, texts.as_slice(), store)
}

/// The tree of a map: HEAD's own where it is HEAD's map.
pub fn put_tree<S: Store>(
    alloc: Global,
    found: &Found,
    map: &PathMap,
    store: &mut S,
) -> Result<Id, Halt<Lack>>
    ensures turns { S.told → Turns (λ id. id) result (tree_put (found_is found.now) map.now (S.seen store.old).content)
        (S.seen store.new).content }
    ensures writes { Writes S.told halt_cause result (S.seen store.old) (S.seen store.new) }
{
    if is_same(alloc, map, &found.ours)? {
        return Ok(found.tree);
    }
    write_trees(alloc, store, map)
}

#[tactic(auto, unfolding(line_steps::specs::Writing::switched_giving))]
fn switch_giving<S: Store>(
    alloc: Global,
    index: &[IndexEntry],
    map: &PathMap,
    tree: Id,
    store: &mut S,
) -> Result<Id, Halt<Lack>>
    requires order { IsInOrder index.now }
    requires few { length map.now < 2 ^ 32 }
    ensures turns { S.told → Turns (λ id. id) result (switched_giving index.now map.now tree (S.seen store.old).content)
        (S.seen store.new).content }
    ensures writes { Writes S.told halt_cause result (S.seen store.old) (S.seen store.new) }
{
    switch_clear(alloc, store, index, map)?;
    Ok(tree)
}

/// Blobs, trees, index and files of a map that may stand.
#[tactic(auto, unfolding(line_steps::specs::Writing::filled_with))]
fn fill_with<S: Store>(
    alloc: Global,
    found: &Found,
    map: &PathMap,
    texts: &Texts,
    store: &mut S,
) -> Result<Id, Halt<Lack>>
    requires order { IsInOrder found.now.index.items }
    requires few { length map.now < 2 ^ 32 }
    ensures turns { S.told → Turns (λ id. id) result (filled_with (found_is found.now) map.now texts.now (S.seen store.old).content)
        (S.seen store.new).content }
    ensures writes { Writes S.told halt_cause result (S.seen store.old) (S.seen store.new) }
{
    put_texts(alloc, texts, store)?;
    let tree = put_tree(alloc, found, map, store)?;
    switch_giving(alloc, &found.index, map, tree, store)
}

/// Blobs, trees, index and files of a merged map; answers its tree.
#[tactic(auto, unfolding(line_steps::specs::Writing::switched_with))]
fn switch_with<S: Store>(
    alloc: Global,
    found: &Found,
    map: &PathMap,
    texts: &Texts,
    store: &mut S,
) -> Result<Id, Halt<Lack>>
    requires order { IsInOrder found.now.index.items }
    ensures turns { S.told → Turns (λ id. id) result (switched_with (found_is found.now) map.now texts.now (S.seen store.old).content)
        (S.seen store.new).content }
    ensures writes { Writes S.told halt_cause result (S.seen store.old) (S.seen store.new) }
{
    stop_unfit(alloc, &found.index, map, store)?;
    fill_with(alloc, found, map, texts, store)
}

/// The same, as a step of the line of a commit.
pub fn switch_merged<S: Store, P: Spawner<S>, C: Clock>(
    alloc: Global,
    pick: Id,
    found: &Found,
    map: &PathMap,
    texts: &Texts,
    place: &mut Place,
    store: &mut S,
    spawner: &mut P,
    clock: &mut C,
) -> Result<Id, Halt<Stop>>
    requires order { IsInOrder found.now.index.items }
    ensures follows { S.told → Follows P.ran C.ticked spawner.old clock.old spawner.new clock.new (λ id. id)
        (writes (lacked_at_of pick) (switched_with (found_is found.now) map.now texts.now))
        (spot_of (S.seen store.old) place.old) result (spot_of (S.seen store.new) place.new) }
    ensures none { RunsNone result }
    ensures cause { HasStepCause S.told stop_failed result (S.seen store.old) (S.seen store.new) (P.seen spawner.old) (P.seen spawner.new) }
    ensures keeps { Keeps place.old result place.new }
{
    match switch_with(alloc, found, map, texts, store) {
        Ok(tree) => Ok(tree),
        Err(Halt::Stops(lack)) => Err(Halt::Stops(lacked_at(pick, lack))),
        Err(Halt::Fault) => Err(Halt::Fault),
        Err(Halt::Memory) => Err(Halt::Memory),
    }
}
