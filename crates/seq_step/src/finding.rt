//! What a pick finds.

ghost use Rattle.std.specs.Prelude.{◌≡◌, ◌<◌, ◌^◌, IfOk, IsErrOf, OnOk, length};
ghost use Rattle.index_file.specs.Entries.{IsIndex};
ghost use Rattle.line_steps.specs.Finding.{base_at as base_of, bad_name as bad_name_of, found_at as found_of};
ghost use Rattle.line_steps.specs.Finding.{may_have as may_have_of, only_parent as only_parent_of, ours_at as ours_of};
ghost use Rattle.line_steps.specs.Finding.{picked_as, picked_at as picked_of, sides_at as sides_of, theirs_at as theirs_of, found_on};
ghost use Rattle.line_steps.specs.Places.{blocked_at as blocked_at_of, lacked_at as lacked_at_of, reason_of as reason_of_lack};
ghost use Rattle.object_text.specs.Commits.{IsCommitValue};
ghost use Rattle.objects.specs.Named.{commit_named};
ghost use Rattle.rev_names.specs.Revs.{rev_at};
ghost use Rattle.seq_outside.specs.Halts.{Gives, for_reason, halt_cause};
ghost use Rattle.seq_outside.specs.Seen.{Reads};
ghost use Rattle.seq_step.specs.Causes.{RunsNone};
ghost use Rattle.seq_step.specs.Finding.{IsFound, IsPicked, found_is, picked_is, sides_is};

use crate::head::{INDEX_LIMIT, index_found};
use crate::stop::{blocked, blocked_at, blocked_halt_at, lacked_halt_at, reason_halt};
use index_file::IndexEntry;
use line_steps::Stop;
use object_text::{Commit, Ids};
use objects::read_commit;
use path_trees::{read_commit_map, read_tree_map};
use rev_names::resolve_rev;
use seq_base::{Bytes, Id, PathMap};
use seq_model::Reason;
use seq_outside::{Halt, Lack, LimitWhat, Store};
use std::alloc::{AllocError, Global};

/// The commit that is picked, and the parent that its changes are taken against.
#[derive(Drop)]
pub struct Picked {
    pub id: Id,
    pub commit: Commit,
    /// A first commit has none.
    pub parent: Option<Id>,
}

/// The index, and HEAD's commit.
#[derive(Drop)]
pub struct Found {
    pub index: Vec<IndexEntry>,
    pub parents: Ids,
    pub tree: Id,
    /// Its map.
    pub ours: PathMap,
}

/// A commit that is picked onto HEAD.
#[derive(Drop)]
pub struct Picking {
    pub head: Id,
    pub found: Found,
    pub pick: Picked,
}

/// The maps beside HEAD's.
#[derive(Drop)]
pub struct Sides {
    pub base: PathMap,
    pub theirs: PathMap,
}

fn copy_of(alloc: Global, text: &[u8]) -> Result<Bytes, AllocError>
    ensures { IfOk result (λ copy. copy ≡ text.now) }
{
    Ok(Bytes::from_vec(text.to_vec(alloc)?))
}

/// The commit that a name names; a name of none is bad, whatever is at fault.
fn named<S: Store>(alloc: Global, rev: &[u8], store: &mut S) -> Result<Id, Halt<Stop>>
    ensures gives { S.told → Gives (λ id. id) result (for_reason (bad_name_of rev.now) (rev_at (S.seen store.old).content rev.now)) }
    ensures none { RunsNone result }
    ensures reads { Reads S.told halt_cause result (S.seen store.old) (S.seen store.new) }
{
    match resolve_rev(alloc, store, rev) {
        Ok(id) => Ok(id),
        Err(Halt::Stops(_fault)) => {
            let word = copy_of(alloc, rev)?;
            Err(Halt::Stops(blocked(Reason::BadName { word })))
        }
        Err(Halt::Fault) => Err(Halt::Fault),
        Err(Halt::Memory) => Err(Halt::Memory),
    }
}

fn commit<S: Store>(alloc: Global, id: Id, store: &mut S) -> Result<Commit, Halt<Stop>>
    ensures gives { S.told → Gives (λ c. c) result (for_reason (lacked_at_of id) (commit_named (S.seen store.old).content id)) }
    ensures value { IfOk result IsCommitValue }
    ensures none { RunsNone result }
    ensures reads { Reads S.told halt_cause result (S.seen store.old) (S.seen store.new) }
{
    match read_commit(alloc, store, id) {
        Ok(commit) => Ok(commit),
        Err(halt) => Err(lacked_halt_at(id, halt)),
    }
}

/// A merge is none to pick.
fn only_parent(alloc: Global, rev: &[u8], id: Id, parents: &[Id]) -> Result<Option<Id>, Halt<Stop>>
    ensures gives { Gives (λ parent. parent) result (only_parent_of rev.now id parents.now) }
    ensures none { RunsNone result }
    ensures no_fault { IsErrOf result Halt.Fault → ⊥ }
{
    match parents {
        [] => Ok(None),
        [parent] => Ok(Some(*parent)),
        [_, _, ..] => {
            let word = copy_of(alloc, rev)?;
            Err(Halt::Stops(blocked_at(id, Reason::BadName { word })))
        }
    }
}

/// The commit of an id, as it is picked.
#[tactic(auto, unfolding(line_steps::specs::Finding::picked_as))]
fn picked_by<S: Store>(
    alloc: Global,
    rev: &[u8],
    id: Id,
    store: &mut S,
) -> Result<Picked, Halt<Stop>>
    ensures gives { S.told → Gives picked_is result (picked_as rev.now (S.seen store.old).content id) }
    ensures value { IfOk result IsPicked }
    ensures none { RunsNone result }
    ensures reads { Reads S.told halt_cause result (S.seen store.old) (S.seen store.new) }
{
    let commit = commit(alloc, id, store)?;
    let parent = only_parent(alloc, rev, id, commit.parents.as_slice())?;
    Ok(Picked { id, commit, parent })
}

/// The commit that a line names.
#[tactic(auto, unfolding(line_steps::specs::Finding::picked_at))]
pub fn find_picked<S: Store>(alloc: Global, rev: &[u8], store: &mut S) -> Result<Picked, Halt<Stop>>
    ensures gives { S.told → Gives picked_is result (picked_of rev.now (S.seen store.old).content) }
    ensures value { IfOk result IsPicked }
    ensures none { RunsNone result }
    ensures reads { Reads S.told halt_cause result (S.seen store.old) (S.seen store.new) }
{
    let id = named(alloc, rev, store)?;
    picked_by(alloc, rev, id, store)
}

/// An index has no more entries than it may have.
pub fn may_have(count: usize) -> Result<(), Halt<Lack>>
    ensures gives { Gives (λ x. x) result (may_have_of count) }
    ensures few { OnOk result (count < 2 ^ 32) }
    ensures no_fault { IsErrOf result Halt.Fault → ⊥ }
{
    if count > INDEX_LIMIT {
        return Err(Halt::Stops(Lack::Limit {
            what: LimitWhat::IndexEntries,
            number: count as u64,
        }));
    }
    Ok(())
}

/// The map of HEAD's tree, which an index can hold.
#[tactic(auto, unfolding(line_steps::specs::Finding::ours_at))]
fn ours_in<S: Store>(alloc: Global, tree: Id, store: &mut S) -> Result<PathMap, Halt<Lack>>
    ensures gives { S.told → Gives (λ m. m) result (ours_of tree (S.seen store.old).content) }
    ensures few { IfOk result (λ m. length m < 2 ^ 32) }
    ensures reads { Reads S.told halt_cause result (S.seen store.old) (S.seen store.new) }
{
    let ours = read_tree_map(alloc, store, tree)?;
    may_have(ours.len())?;
    Ok(ours)
}

fn ours<S: Store>(alloc: Global, tree: Id, store: &mut S) -> Result<PathMap, Halt<Reason>>
    ensures gives { S.told → Gives (λ m. m) result (for_reason reason_of_lack (ours_of tree (S.seen store.old).content)) }
    ensures few { IfOk result (λ m. length m < 2 ^ 32) }
    ensures reads { Reads S.told halt_cause result (S.seen store.old) (S.seen store.new) }
{
    match ours_in(alloc, tree, store) {
        Ok(map) => Ok(map),
        Err(halt) => Err(reason_halt(halt)),
    }
}

fn head_commit<S: Store>(alloc: Global, id: Id, store: &mut S) -> Result<Commit, Halt<Reason>>
    ensures gives { S.told → Gives (λ c. c) result (for_reason reason_of_lack (commit_named (S.seen store.old).content id)) }
    ensures reads { Reads S.told halt_cause result (S.seen store.old) (S.seen store.new) }
{
    match read_commit(alloc, store, id) {
        Ok(commit) => Ok(commit),
        Err(halt) => Err(reason_halt(halt)),
    }
}

/// The map of HEAD's commit, and the index.
#[tactic(auto, unfolding(line_steps::specs::Finding::found_on))]
fn found_by<S: Store>(alloc: Global, commit: Commit, store: &mut S) -> Result<Found, Halt<Reason>>
    ensures gives { S.told → Gives found_is result (found_on commit (S.seen store.old).content) }
    ensures found { IfOk result IsFound }
    ensures index { IfOk result (λ found. IsIndex found.index.items) }
    ensures reads { Reads S.told halt_cause result (S.seen store.old) (S.seen store.new) }
{
    let ours = ours(alloc, commit.tree, store)?;
    let index = index_found(alloc, store)?;
    Ok(Found {
        index,
        parents: commit.parents,
        tree: commit.tree,
        ours,
    })
}

/// The index, and a commit with its map.
#[tactic(auto, unfolding(line_steps::specs::Finding::found_at))]
pub fn found_in<S: Store>(alloc: Global, head: Id, store: &mut S) -> Result<Found, Halt<Reason>>
    ensures gives { S.told → Gives found_is result (found_of head (S.seen store.old).content) }
    ensures found { IfOk result IsFound }
    ensures index { IfOk result (λ found. IsIndex found.index.items) }
    ensures reads { Reads S.told halt_cause result (S.seen store.old) (S.seen store.new) }
{
    let commit = head_commit(alloc, head, store)?;
    found_by(alloc, commit, store)
}

/// HEAD's map and the index, for the line of a commit.
pub fn find_found<S: Store>(
    alloc: Global,
    id: Id,
    head: Id,
    store: &mut S,
) -> Result<Found, Halt<Stop>>
    ensures gives { S.told → Gives found_is result (for_reason (blocked_at_of id) (found_of head (S.seen store.old).content)) }
    ensures found { IfOk result IsFound }
    ensures none { RunsNone result }
    ensures reads { Reads S.told halt_cause result (S.seen store.old) (S.seen store.new) }
{
    match found_in(alloc, head, store) {
        Ok(found) => Ok(found),
        Err(halt) => Err(blocked_halt_at(id, halt)),
    }
}

/// The map of the commit that is picked.
#[tactic(auto, unfolding(line_steps::specs::Finding::theirs_at))]
pub fn theirs<S: Store>(alloc: Global, pick: &Picked, store: &mut S) -> Result<PathMap, Halt<Stop>>
    ensures gives { S.told → Gives (λ m. m) result (theirs_of (picked_is pick.now) (S.seen store.old).content) }
    ensures none { RunsNone result }
    ensures reads { Reads S.told halt_cause result (S.seen store.old) (S.seen store.new) }
{
    match read_tree_map(alloc, store, pick.commit.tree) {
        Ok(map) => Ok(map),
        Err(halt) => Err(lacked_halt_at(pick.id, halt)),
    }
}

/// The map of a parent; a first commit is taken against nothing.
fn base_in<S: Store>(
    alloc: Global,
    parent: Option<Id>,
    store: &mut S,
) -> Result<PathMap, Halt<Lack>>
    ensures gives { S.told → Gives (λ m. m) result (base_of (S.seen store.old).content parent) }
    ensures reads { Reads S.told halt_cause result (S.seen store.old) (S.seen store.new) }
{
    match parent {
        Some(parent) => read_commit_map(alloc, store, parent),
        None => Ok(PathMap::new(alloc)),
    }
}

fn base<S: Store>(alloc: Global, pick: &Picked, store: &mut S) -> Result<PathMap, Halt<Stop>>
    ensures gives { S.told → Gives (λ m. m) result (for_reason (lacked_at_of pick.now.id) (base_of (S.seen store.old).content pick.now.parent)) }
    ensures none { RunsNone result }
    ensures reads { Reads S.told halt_cause result (S.seen store.old) (S.seen store.new) }
{
    match base_in(alloc, pick.parent, store) {
        Ok(map) => Ok(map),
        Err(halt) => Err(lacked_halt_at(pick.id, halt)),
    }
}

/// The base's map, then theirs.
#[tactic(auto, unfolding(line_steps::specs::Finding::sides_at))]
pub fn find_sides<S: Store>(alloc: Global, at: &Picking, store: &mut S) -> Result<Sides, Halt<Stop>>
    ensures gives { S.told → Gives (sides_is at.now) result (sides_of at.now.found.ours (picked_is at.now.pick) (S.seen store.old).content) }
    ensures none { RunsNone result }
    ensures reads { Reads S.told halt_cause result (S.seen store.old) (S.seen store.new) }
{
    let base = base(alloc, &at.pick, store)?;
    let theirs = theirs(alloc, &at.pick, store)?;
    Ok(Sides { base, theirs })
}
