//! Index and files, reset to a map.

ghost use Rattle.std.specs.List.{AllByRecursion};
ghost use Rattle.std.specs.Prelude.{◌≡◌, ◌⊎◌, ◌<◌, ◌^◌, IfErr, IfOk, Ok, length};
ghost use Rattle.index_file.specs.Entries.{IsInOrder, IsIndex};
ghost use Rattle.index_file.specs.Index.{indexed};
ghost use Rattle.seq_outside.specs.Halts.{Gives, halt_cause};
ghost use Rattle.seq_outside.specs.Seen.{Reads, Writes};
ghost use Rattle.seq_outside.specs.Turns.{Turns};
ghost use Rattle.seq_outside.specs.Writes.{HasStorePath};
ghost use Rattle.stage_index.specs.Stages.{map_of, row_of};
ghost use Rattle.worktree.specs.Own.{AreOutside, AreOwn, GitStays};
ghost use Rattle.worktree.specs.ResetTurns.{reset_made, reset_to, row_reset, rows_reset};
ghost use Rattle.worktree.specs.Resets.{IsResetFront, IsRowFront, IsRowsFront, OnlyWay, blob_over as blob_over_in, blob_readable};
ghost use Rattle.worktree.specs.Resets.{reset_first as reset_first_of, row_readable, row_writes as row_writes_in, rows_readable};

use crate::blob::read_blob;
use crate::make::make_writes;
use crate::rewritten::is_gitlink;
use crate::room::over;
use crate::writes::{index_write, push_removals};
use index_file::IndexEntry;
use seq_base::PathMap;
use seq_outside::{Halt, Lack, Store, Write};
use stage_index::from_map;
use std::alloc::{AllocError, Global};

/// Reads the entry's blob, and drops it.
#[tactic(auto, unfolding(crate::specs::Resets::blob_readable))]
fn check_blob<S: Store>(alloc: Global, store: &mut S, entry: &IndexEntry) -> Result<(), Halt<Lack>>
    ensures gives { S.told → Gives (λ x. x) result (blob_readable (S.seen store.old).content (row_of entry.now)) }
    ensures reads { Reads S.told halt_cause result (S.seen store.old) (S.seen store.new) }
{
    let _bytes = read_blob(alloc, store, entry.id)?;
    Ok(())
}

/// The same, if it is no submodule.
fn check_row<S: Store>(alloc: Global, store: &mut S, entry: &IndexEntry) -> Result<(), Halt<Lack>>
    ensures gives { S.told → Gives (λ x. x) result (row_readable (S.seen store.old).content (row_of entry.now)) }
    ensures reads { Reads S.told halt_cause result (S.seen store.old) (S.seen store.new) }
{
    if is_gitlink(entry.mode) {
        return Ok(());
    }
    check_blob(alloc, store, entry)
}

/// Reads the blobs of all entries, one at a time; the first that cannot be read is lacked.
pub fn check_rows<S: Store>(
    alloc: Global,
    store: &mut S,
    index: &[IndexEntry],
) -> Result<(), Halt<Lack>>
    requires { index.now ≡ indexed (map_of index.now) }
    ensures gives { S.told → Gives (λ x. x) result (rows_readable (S.seen store.old).content (map_of index.now)) }
    ensures reads { Reads S.told halt_cause result (S.seen store.old) (S.seen store.new) }
{
    let mut rest = index;
    while let [entry, after @ ..] = rest {
        check_row(alloc, store, entry)?;
        rest = after;
    }
    Ok(())
}

/// What gives the entry's path its blob.
#[tactic(auto, unfolding(crate::specs::Resets::blob_over))]
fn blob_over<S: Store>(
    alloc: Global,
    store: &mut S,
    entry: &IndexEntry,
) -> Result<Vec<Write>, Halt<Lack>>
    ensures gives { S.told → Gives (λ writes. writes.items) result (blob_over_in (S.seen store.old).content (row_of entry.now)) }
    ensures outside { S.told → IfOk result (λ writes. AreOutside writes.items) }
    ensures paths { IfOk result (λ writes. AllByRecursion HasStorePath writes.items) }
    ensures reads { Reads S.told halt_cause result (S.seen store.old) (S.seen store.new) }
{
    let bytes = read_blob(alloc, store, entry.id)?;
    Ok(over(alloc, store, &entry.path, bytes)?)
}

/// The same, and nothing at a submodule's path.
#[tactic(auto, using(crate::proofs::Outside::none_outside))]
fn row_writes<S: Store>(
    alloc: Global,
    store: &mut S,
    entry: &IndexEntry,
) -> Result<Vec<Write>, Halt<Lack>>
    ensures gives { S.told → Gives (λ writes. writes.items) result (row_writes_in (S.seen store.old).content (row_of entry.now)) }
    ensures outside { S.told → IfOk result (λ writes. AreOutside writes.items) }
    ensures paths { IfOk result (λ writes. AllByRecursion HasStorePath writes.items) }
    ensures reads { Reads S.told halt_cause result (S.seen store.old) (S.seen store.new) }
{
    if is_gitlink(entry.mode) {
        return Ok(Vec::new(alloc));
    }
    blob_over(alloc, store, entry)
}

/// Gives the entry's path its blob, if it is no submodule's.
#[tactic(auto, unfolding(crate::specs::ResetTurns::row_reset), using(crate::proofs::Outside::git_same, crate::proofs::Outside::outside_stays))]
fn reset_row<S: Store>(alloc: Global, store: &mut S, entry: &IndexEntry) -> Result<(), Halt<Lack>>
    requires { S.told → row_readable (S.seen store.old).content (row_of entry.now) ≡ Ok tt }
    ensures turns { S.told → Turns (λ x. x) result (row_reset (row_of entry.now) (S.seen store.old).content) (S.seen store.new).content }
    ensures front { S.told → IsRowFront (row_of entry.now) (S.seen store.old).content (S.seen store.new).content }
    ensures git { S.told → GitStays (S.seen store.old).content (S.seen store.new).content }
    ensures only_way { S.told → IfErr result OnlyWay }
    ensures writes { Writes S.told halt_cause result (S.seen store.old) (S.seen store.new) }
{
    let writes = row_writes(alloc, store, entry)?;
    make_writes(alloc, store, writes)
}

/// Gives all entries' paths their blobs, one after another.
fn reset_rows<S: Store>(
    alloc: Global,
    store: &mut S,
    index: &[IndexEntry],
) -> Result<(), Halt<Lack>>
    requires indexed { index.now ≡ indexed (map_of index.now) }
    requires readable { S.told → rows_readable (S.seen store.old).content (map_of index.now) ≡ Ok tt }
    ensures turns { S.told → Turns (λ x. x) result (rows_reset (map_of index.now) (S.seen store.old).content) (S.seen store.new).content }
    ensures front { S.told → IsRowsFront (map_of index.now) (S.seen store.old).content (S.seen store.new).content }
    ensures git { S.told → GitStays (S.seen store.old).content (S.seen store.new).content }
    ensures only_way { S.told → IfErr result OnlyWay }
    ensures writes { Writes S.told halt_cause result (S.seen store.old) (S.seen store.new) }
{
    let mut rest = index;
    while let [entry, after @ ..] = rest {
        reset_row(alloc, store, entry)?;
        rest = after;
    }
    Ok(())
}

/// What the index lacks is removed, then it is written.
#[tactic(auto, using(crate::proofs::Owning::own_more, crate::proofs::Owning::own_store_paths, crate::proofs::Resetting::index_write_is))]
fn reset_first(
    alloc: Global,
    from: &[IndexEntry],
    index: &[IndexEntry],
) -> Result<Vec<Write>, AllocError>
    requires from { IsInOrder from.now }
    requires index { IsIndex index.now }
    requires indexed { index.now ≡ indexed (map_of index.now) }
    ensures made { IfOk result (λ writes. writes.items ≡ reset_first_of from.now (map_of index.now)) }
    ensures own { IfOk result (λ writes. AreOwn writes.items) }
    ensures paths { IfOk result (λ writes. AllByRecursion HasStorePath writes.items) }
{
    let mut writes = Vec::new(alloc);
    push_removals(alloc, from, index, &mut writes)?;
    writes.push(index_write(alloc, index)?)?;
    Ok(writes)
}

#[tactic(auto, unfolding(crate::specs::ResetTurns::reset_made), using(crate::proofs::ResetFronts::first_stopped, crate::proofs::ResetFronts::rows_front, crate::proofs::Outside::git_on, crate::proofs::Outside::git_same, crate::proofs::Outside::own_stays))]
fn make_reset<S: Store>(
    alloc: Global,
    store: &mut S,
    from: &[IndexEntry],
    index: &[IndexEntry],
) -> Result<(), Halt<Lack>>
    requires from { IsInOrder from.now }
    requires index { IsIndex index.now }
    requires indexed { index.now ≡ indexed (map_of index.now) }
    requires readable { S.told → rows_readable (S.seen store.old).content (map_of index.now) ≡ Ok tt }
    ensures turns { S.told → Turns (λ x. x) result (reset_made from.now (map_of index.now) (S.seen store.old).content) (S.seen store.new).content }
    ensures front { S.told → IsResetFront from.now (map_of index.now) (S.seen store.old).content (S.seen store.new).content }
    ensures git { S.told → GitStays (S.seen store.old).content (S.seen store.new).content }
    ensures only_way { S.told → IfErr result OnlyWay }
    ensures writes { Writes S.told halt_cause result (S.seen store.old) (S.seen store.new) }
{
    let writes = reset_first(alloc, from, index)?;
    make_writes(alloc, store, writes)?;
    reset_rows(alloc, store, index)
}

/// Resets index and files from what an index tracks to a map (git-reset(1), `--hard`): what the map lacks is removed, but not what stands
/// at a submodule's path; then the index is written; then each path but submodules is given its blob, in path order, and whatever stands
/// in its way is removed before, untracked files too. All blobs are read before anything changes: the first that is missing, damaged or of
/// another kind is Object, and one that is too large Limit. The bytes of one file are held at a time. A blocked put is Way. Whatever ends
/// it, a front of the writes was made.
#[tactic(auto, unfolding(crate::specs::ResetTurns::reset_to), using(crate::proofs::Outside::git_same))]
pub fn reset_hard<S: Store>(
    alloc: Global,
    store: &mut S,
    from: &[IndexEntry],
    to: &PathMap,
) -> Result<(), Halt<Lack>>
    requires order { IsInOrder from.now }
    requires few { length to.now < 2 ^ 32 }
    ensures turns { S.told → Turns (λ x. x) result (reset_to from.now to.now (S.seen store.old).content) (S.seen store.new).content }
    ensures front { S.told → ((S.seen store.new).content ≡ (S.seen store.old).content) ⊎ IsResetFront from.now to.now (S.seen store.old).content (S.seen store.new).content }
    ensures git { S.told → GitStays (S.seen store.old).content (S.seen store.new).content }
    // Where it stops for another reason than a path in the way nothing has changed.
    ensures refused { S.told → IfErr result (λ halt. OnlyWay halt ⊎ ((S.seen store.new).content ≡ (S.seen store.old).content)) }
    ensures writes { Writes S.told halt_cause result (S.seen store.old) (S.seen store.new) }
{
    let _length = to.len();
    let index = from_map(alloc, to)?;
    check_rows(alloc, store, &index)?;
    make_reset(alloc, store, from, &index)
}
