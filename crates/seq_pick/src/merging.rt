//! The merge of a commit's change into HEAD's map.

ghost use Rattle.std.specs.Prelude.{◌≡◌, IfOk, IsErrOf};
ghost use Rattle.index_file.specs.Entries.{IsInOrder};
ghost use Rattle.object_text.specs.Commits.{IsCommitValue};
ghost use Rattle.seq_model.specs.Pick.{merged as merged_of, merged_into as merged_into_of, merged_onto as merged_onto_of, merging_of};
ghost use Rattle.seq_outside.specs.Seen.{Reads};
ghost use Rattle.seq_outside.specs.Halts.{Gives, halt_cause};
ghost use Rattle.seq_pick.specs.Merging.{merging_is};

use crate::clean::clean_map;
use crate::parent::only_parent;
use index_file::IndexEntry;
use object_text::Commit;
use seq_base::{Bytes, Id, PathMap};
use seq_model::{Denial, Refusal, refused};
use seq_outside::{Halt, Store};
use start_checks::{commit_map, commit_of, tree_map, want_merged};
use std::alloc::Global;
use tree_merge::{conflict, merged_map, plan};

/// A pick as it is merged.
#[derive(Drop)]
pub struct Merging {
    /// The index that is found.
    pub index: Vec<IndexEntry>,
    /// The commit that is picked.
    pub commit: Commit,
    /// HEAD's map.
    pub ours: PathMap,
    /// The map that the pick makes of it.
    pub map: PathMap,
}

/// What a merge leaves, or the refusal of the first path that conflicts.
#[tactic(auto, unfolding(seq_model::specs::Pick::merged))]
fn merged(
    alloc: Global,
    base: &PathMap,
    ours: &PathMap,
    theirs: &PathMap,
) -> Result<PathMap, Halt<Denial>>
    ensures gives { Gives (λ m. m) result (merged_of base.now ours.now theirs.now) }
    ensures no_fault { IsErrOf result Halt.Fault → ⊥ }
{
    let plan = plan(alloc, base, ours, theirs)?;
    if let Some(row) = conflict(plan.paths.as_slice()) {
        let path = Bytes::from_vec(row.path.bytes().to_vec(alloc)?);
        return Err(refused(Refusal::Conflict { path }));
    }
    let map = merged_map(alloc, base, ours, theirs)?;
    Ok(map)
}

/// What the change from a parent to a tree makes of a map.
#[tactic(auto, unfolding(seq_model::specs::Pick::merged_onto))]
fn merged_onto<S: Store>(
    alloc: Global,
    ours: &PathMap,
    parent: Id,
    tree: Id,
    store: &mut S,
) -> Result<PathMap, Halt<Denial>>
    ensures gives { S.told → Gives (λ m. m) result (merged_onto_of (S.seen store.old).content ours.now parent tree) }
    ensures reads { Reads S.told halt_cause result (S.seen store.old) (S.seen store.new) }
{
    let base = commit_map(alloc, parent, store)?;
    let theirs = tree_map(alloc, tree, store)?;
    merged(alloc, &base, ours, &theirs)
}

/// A commit merged into HEAD.
#[tactic(auto, unfolding(seq_model::specs::Pick::merged_into))]
fn merged_into<S: Store>(
    alloc: Global,
    head: Id,
    index: Vec<IndexEntry>,
    commit: Commit,
    store: &mut S,
) -> Result<Merging, Halt<Denial>>
    requires order { IsInOrder index.items }
    requires value { IsCommitValue commit }
    ensures gives { S.told → Gives merging_is result (merged_into_of (S.seen store.old).content head index.items commit) }
    ensures order { IfOk result (λ m. IsInOrder m.index.items) }
    ensures value { IfOk result (λ m. IsCommitValue m.commit) }
    ensures reads { Reads S.told halt_cause result (S.seen store.old) (S.seen store.new) }
{
    let parent = only_parent(&commit)?;
    want_merged(alloc, &index)?;
    let ours = clean_map(alloc, head, &index, store)?;
    let map = merged_onto(alloc, &ours, parent, commit.tree, store)?;
    Ok(Merging {
        index,
        commit,
        ours,
        map,
    })
}

/// The commit of an id merged into HEAD.
#[tactic(auto, unfolding(seq_model::specs::Pick::merging_of))]
pub fn merge<S: Store>(
    alloc: Global,
    head: Id,
    index: Vec<IndexEntry>,
    pick: Id,
    store: &mut S,
) -> Result<Merging, Halt<Denial>>
    requires { IsInOrder index.items }
    ensures gives { S.told → Gives merging_is result (merging_of (S.seen store.old).content head index.items pick) }
    ensures order { IfOk result (λ m. IsInOrder m.index.items) }
    ensures value { IfOk result (λ m. IsCommitValue m.commit) }
    ensures reads { Reads S.told halt_cause result (S.seen store.old) (S.seen store.new) }
{
    let commit = commit_of(alloc, pick, store)?;
    merged_into(alloc, head, index, commit, store)
}
