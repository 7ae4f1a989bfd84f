//! A conflict, left in index and files.

ghost use Rattle.index_file.specs.Entries.{IsInOrder, IsIndex};
ghost use Rattle.seq_outside.specs.Halts.{Gives, halt_cause};
ghost use Rattle.seq_outside.specs.Seen.{Reads, Writes};
ghost use Rattle.seq_outside.specs.Turns.{Turns};
ghost use Rattle.worktree.specs.ConflictTurns.{conflicted, conflicted_clear};
ghost use Rattle.worktree.specs.Conflicts.{IsConflictFront, unbarred};
ghost use Rattle.worktree.specs.Own.{OthersStay};

use crate::barred::first_barred;
use crate::conflict_files::conflict_files;
use crate::conflict_writes::conflict_writes;
use crate::make::make_writes;
use index_file::IndexEntry;
use seq_base::{Bytes, Path};
use seq_outside::{Halt, Lack, Store};
use stage_index::ConflictFile;
use std::alloc::Global;

/// Stops at the first path that a conflict would write where an untracked file is in its way.
#[tactic(auto, unfolding(crate::specs::Conflicts::unbarred))]
pub fn stop_barred<S: Store>(
    alloc: Global,
    store: &mut S,
    from: &[IndexEntry],
    index: &[IndexEntry],
    files: &[(Path, ConflictFile)],
) -> Result<(), Halt<Lack>>
    requires order { IsInOrder from.now }
    ensures gives { S.told → Gives (λ x. x) result (unbarred (S.seen store.old).content from.now index.now files.now) }
    ensures reads { Reads S.told halt_cause result (S.seen store.old) (S.seen store.new) }
{
    let all = conflict_files(alloc, index, files)?;
    match first_barred(alloc, store, from, &all)? {
        Some(path) => {
            let path = Bytes::from_vec(path.bytes().to_vec(alloc)?);
            Err(Halt::Stops(Lack::Way { path }))
        }
        None => Ok(()),
    }
}

/// Leaves a conflict where `stop_barred` does not stop. It is `write_conflict` behind that.
#[tactic(auto, unfolding(crate::specs::ConflictTurns::conflicted_clear), using(crate::proofs::Owning::own_none, crate::proofs::Owning::own_store_paths))]
pub fn write_conflict_clear<S: Store>(
    alloc: Global,
    store: &mut S,
    from: &[IndexEntry],
    index: &[IndexEntry],
    files: &[(Path, ConflictFile)],
) -> Result<(), Halt<Lack>>
    requires order { IsInOrder from.now }
    requires index { IsIndex index.now }
    ensures turns { S.told → Turns (λ x. x) result (conflicted_clear from.now index.now files.now (S.seen store.old).content) (S.seen store.new).content }
    ensures front { S.told → IsConflictFront from.now index.now files.now (S.seen store.old).content (S.seen store.new).content }
    ensures elsewhere { S.told → OthersStay (S.seen store.old).content (S.seen store.new).content }
    ensures writes { Writes S.told halt_cause result (S.seen store.old) (S.seen store.new) }
{
    let writes = conflict_writes(alloc, store, from, index, files)?;
    make_writes(alloc, store, writes)
}

/// Leaves a conflict (git-merge(1), "HOW CONFLICTS ARE PRESENTED"): an index with stages, and files, where those of another index stood.
/// What that tracks and is neither merged nor among the files is removed, but not what stands at a submodule's path; then the index is
/// written; then the files: of the merged paths and of `files` those blobs that it has not, and all bytes, in path order. The first path
/// that would be written where an untracked file is in its way is Way, and nothing has changed. All blobs are read before anything
/// changes: the first that is missing, damaged or of another kind is Object, and one that is too large Limit. A blocked put is Way, and
/// those before it have been made. Whatever ends it, a front of the writes was made.
#[tactic(auto, unfolding(crate::specs::ConflictTurns::conflicted))]
pub fn write_conflict<S: Store>(
    alloc: Global,
    store: &mut S,
    from: &[IndexEntry],
    index: &[IndexEntry],
    files: &[(Path, ConflictFile)],
) -> Result<(), Halt<Lack>>
    requires order { IsInOrder from.now }
    requires index { IsIndex index.now }
    ensures turns { S.told → Turns (λ x. x) result (conflicted from.now index.now files.now (S.seen store.old).content) (S.seen store.new).content }
    ensures front { S.told → IsConflictFront from.now index.now files.now (S.seen store.old).content (S.seen store.new).content }
    ensures elsewhere { S.told → OthersStay (S.seen store.old).content (S.seen store.new).content }
    ensures writes { Writes S.told halt_cause result (S.seen store.old) (S.seen store.new) }
{
    stop_barred(alloc, store, from, index, files)?;
    write_conflict_clear(alloc, store, from, index, files)
}
