//! The writes that leave a conflict.

ghost use Rattle.std.specs.Prelude.{◌≡◌, ◌∷◌, ◌++◌, [], IfOk, OnOk};
ghost use Rattle.index_file.specs.Entries.{IsInOrder, IsIndex};
ghost use Rattle.seq_outside.specs.Halts.{Gives, halt_cause};
ghost use Rattle.seq_outside.specs.Seen.{Reads};
ghost use Rattle.stage_index.specs.Conflicts.{conflict_removals, has_file as has_file_in, is_left_out as is_left_out_of, left_out_of};
ghost use Rattle.worktree.specs.Conflicts.{conflict_writes as conflict_writes_of, file_write as file_write_of, first_writes as first_writes_of};
ghost use Rattle.worktree.specs.Conflicts.{with_file as with_file_of, with_files as with_files_of, with_write as with_write_of};
ghost use Rattle.worktree.specs.Own.{AreOwn, HasOwnPath};

use crate::barred::is_written_file;
use crate::blob::read_blob;
use crate::conflict_files::conflict_files;
use crate::rewritten::is_submodule_at;
use crate::writes::{bytes_of, index_write, lacks};
use index_file::IndexEntry;
use seq_base::Path;
use seq_outside::{Halt, Lack, Store, Write};
use stage_index::ConflictFile;
use std::alloc::{AllocError, Global};

fn has_file(files: &[(Path, ConflictFile)], path: &[u8]) -> bool
    ensures { result ≡ has_file_in files.now path.now }
{
    files.iter().any(|file| file.0.bytes() == path)
}

/// Whether the entry's path is neither merged nor left by the conflict, and no submodule's.
fn is_left_out(
    from: &[IndexEntry],
    index: &[IndexEntry],
    files: &[(Path, ConflictFile)],
    entry: &IndexEntry,
    place: &mut usize,
) -> bool
    requires from { IsInOrder from.now }
    requires index { IsInOrder index.now }
    ensures { result ≡ is_left_out_of from.now index.now files.now entry.now }
{
    let path = entry.path.bytes();
    lacks(index, place, path) && !has_file(files, path) && !is_submodule_at(from, path)
}

/// Removes the entry's path, if it is left out.
#[tactic(auto, using(crate::proofs::Owning::own_more))]
fn push_left_out(
    alloc: Global,
    from: &[IndexEntry],
    index: &[IndexEntry],
    files: &[(Path, ConflictFile)],
    entry: &IndexEntry,
    place: &mut usize,
    writes: &mut Vec<Write>,
) -> Result<(), AllocError>
    requires from { IsInOrder from.now }
    requires index { IsInOrder index.now }
    ensures pushed { OnOk result (writes.new.items ≡ writes.old.items ++ left_out_of from.now index.now files.now (entry.now ∷ [])) }
    ensures own { OnOk result (AreOwn writes.old.items → AreOwn writes.new.items) }
{
    if !is_left_out(from, index, files, entry, place) {
        return Ok(());
    }
    let path = bytes_of(alloc, &entry.path)?;
    writes.push(Write::Remove { path })?;
    Ok(())
}

fn push_all_left_out(
    alloc: Global,
    from: &[IndexEntry],
    index: &[IndexEntry],
    files: &[(Path, ConflictFile)],
    writes: &mut Vec<Write>,
) -> Result<(), AllocError>
    requires from { IsInOrder from.now }
    requires index { IsInOrder index.now }
    ensures pushed { OnOk result (writes.new.items ≡ writes.old.items ++ conflict_removals from.now index.now files.now) }
    ensures own { OnOk result (AreOwn writes.old.items → AreOwn writes.new.items) }
{
    let mut place = 0;
    let mut rest = from;
    while let [entry, after @ ..] = rest {
        push_left_out(alloc, from, index, files, entry, &mut place, writes)?;
        rest = after;
    }
    Ok(())
}

/// The removals, then the index.
#[tactic(auto, using(crate::proofs::Owning::own_more))]
fn first_writes(
    alloc: Global,
    from: &[IndexEntry],
    index: &[IndexEntry],
    files: &[(Path, ConflictFile)],
) -> Result<Vec<Write>, AllocError>
    requires from { IsInOrder from.now }
    requires index { IsIndex index.now }
    ensures made { IfOk result (λ writes. writes.items ≡ first_writes_of from.now index.now files.now) }
    ensures own { IfOk result (λ writes. AreOwn writes.items) }
{
    let mut writes = Vec::new(alloc);
    push_all_left_out(alloc, from, index, files, &mut writes)?;
    writes.push(index_write(alloc, index)?)?;
    Ok(writes)
}

/// What is written to the path.
#[tactic(auto, unfolding(crate::specs::Conflicts::file_write))]
fn file_write<S: Store>(
    alloc: Global,
    store: &mut S,
    file: &(Path, ConflictFile),
) -> Result<Write, Halt<Lack>>
    ensures gives { S.told → Gives (λ write. write) result (file_write_of (S.seen store.old).content file.now) }
    ensures own { IfOk result HasOwnPath }
    ensures reads { Reads S.told halt_cause result (S.seen store.old) (S.seen store.new) }
{
    let path = bytes_of(alloc, &file.0)?;
    match &file.1 {
        ConflictFile::Blob(entry) => {
            let bytes = read_blob(alloc, store, entry.id)?;
            Ok(Write::Put { path, bytes })
        }
        ConflictFile::Bytes(bytes) => {
            let bytes = bytes.clone()?;
            Ok(Write::Put { path, bytes })
        }
    }
}

/// The writes, and behind them that of the file.
#[tactic(auto, unfolding(crate::specs::Conflicts::with_write), using(crate::proofs::Owning::own_more))]
fn with_write<S: Store>(
    alloc: Global,
    store: &mut S,
    writes: Vec<Write>,
    file: &(Path, ConflictFile),
) -> Result<Vec<Write>, Halt<Lack>>
    requires { AreOwn writes.items }
    ensures gives { S.told → Gives (λ writes. writes.items) result (with_write_of (S.seen store.old).content writes.items file.now) }
    ensures own { IfOk result (λ writes. AreOwn writes.items) }
    ensures reads { Reads S.told halt_cause result (S.seen store.old) (S.seen store.new) }
{
    let mut writes = writes;
    let write = file_write(alloc, store, file)?;
    writes.push(write)?;
    Ok(writes)
}

/// The same, if the file is written.
fn with_file<S: Store>(
    alloc: Global,
    store: &mut S,
    from: &[IndexEntry],
    writes: Vec<Write>,
    file: &(Path, ConflictFile),
) -> Result<Vec<Write>, Halt<Lack>>
    requires order { IsInOrder from.now }
    requires own { AreOwn writes.items }
    ensures gives { S.told → Gives (λ writes. writes.items) result (with_file_of (S.seen store.old).content from.now writes.items file.now) }
    ensures own { IfOk result (λ writes. AreOwn writes.items) }
    ensures reads { Reads S.told halt_cause result (S.seen store.old) (S.seen store.new) }
{
    if is_written_file(from, file) {
        return with_write(alloc, store, writes, file);
    }
    Ok(writes)
}

/// The writes, and behind them those of all files that are written.
fn with_files<S: Store>(
    alloc: Global,
    store: &mut S,
    from: &[IndexEntry],
    begun: Vec<Write>,
    files: &[(Path, ConflictFile)],
) -> Result<Vec<Write>, Halt<Lack>>
    requires order { IsInOrder from.now }
    requires own { AreOwn begun.items }
    ensures gives { S.told → Gives (λ writes. writes.items) result (with_files_of (S.seen store.old).content from.now begun.items files.now) }
    ensures own { IfOk result (λ writes. AreOwn writes.items) }
    ensures reads { Reads S.told halt_cause result (S.seen store.old) (S.seen store.new) }
{
    let mut writes = begun;
    let mut rest = files;
    while let [file, after @ ..] = rest {
        writes = with_file(alloc, store, from, writes, file)?;
        rest = after;
    }
    Ok(writes)
}

/// What leaves a conflict where no untracked file is in the way, as writes that are not made yet: the removals, then the index, then the
/// files, in path order. All blobs are read. The first that is missing, damaged or of another kind is Object, and one that is too large
/// Limit.
pub(crate) fn conflict_writes<S: Store>(
    alloc: Global,
    store: &mut S,
    from: &[IndexEntry],
    index: &[IndexEntry],
    files: &[(Path, ConflictFile)],
) -> Result<Vec<Write>, Halt<Lack>>
    requires order { IsInOrder from.now }
    requires index { IsIndex index.now }
    ensures gives { S.told → Gives (λ writes. writes.items) result (conflict_writes_of (S.seen store.old).content from.now index.now files.now) }
    ensures own { IfOk result (λ writes. AreOwn writes.items) }
    ensures reads { Reads S.told halt_cause result (S.seen store.old) (S.seen store.new) }
{
    let all = conflict_files(alloc, index, files)?;
    let writes = first_writes(alloc, from, index, files)?;
    with_files(alloc, store, from, writes, &all)
}
