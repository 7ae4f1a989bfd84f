//! Untracked files in the way of what a conflict leaves.

ghost use Rattle.std.specs.Prelude.{◌≡◌, IfOk, Some, option_map};
ghost use Rattle.index_file.specs.Entries.{IsInOrder};
ghost use Rattle.seq_base.specs.PathMaps.{same_entry};
ghost use Rattle.seq_outside.specs.Seen.{Reads, store_cause};
ghost use Rattle.stage_index.specs.Conflicts.{first_barred as first_barred_in, is_barred as is_barred_in, is_written_file as is_written_file_in};
ghost use Rattle.stage_index.specs.Stages.{merged_entry};
ghost use Rattle.stage_index.specs.Switching.{is_kept as is_kept_in};

use crate::obstacle::has_obstacle;
use crate::rewritten::is_gitlink;
use index_file::IndexEntry;
use seq_base::{Entry, Path};
use seq_outside::{Store, StoreError};
use stage_index::{ConflictFile, tracked};
use std::alloc::Global;

fn is_same(kept: &IndexEntry, entry: &Entry) -> bool
    ensures { result ≡ same_entry (merged_entry (Some kept.now)) (Some entry.now) }
{
    if kept.stage != 0 {
        return false;
    }
    kept.mode.number() == entry.mode.number() && kept.id.bytes() == entry.id.bytes()
}

/// Whether the index has this entry at the path.
fn is_kept(from: &[IndexEntry], path: &Path, entry: &Entry) -> bool
    requires { IsInOrder from.now }
    ensures { result ≡ is_kept_in from.now (path.now, entry.now) }
{
    match tracked(from, path.bytes()) {
        Some(kept) => is_same(kept, entry),
        None => false,
    }
}

/// Whether the file is written: bytes always, a blob where the index lacks the path or has it otherwise, and it is no submodule.
pub(crate) fn is_written_file(from: &[IndexEntry], file: &(Path, ConflictFile)) -> bool
    requires { IsInOrder from.now }
    ensures { result ≡ is_written_file_in from.now file.now }
{
    match &file.1 {
        ConflictFile::Blob(entry) => !is_kept(from, &file.0, entry) && !is_gitlink(entry.mode),
        ConflictFile::Bytes(_) => true,
    }
}

/// Whether the file's path was not tracked or is written, and an untracked file is in its way.
fn is_barred<S: Store>(
    alloc: Global,
    store: &mut S,
    from: &[IndexEntry],
    file: &(Path, ConflictFile),
) -> Result<bool, StoreError>
    requires { IsInOrder from.now }
    ensures told { S.told → IfOk result (λ is. is ≡ is_barred_in (S.seen store.old).content from.now file.now) }
    ensures reads { Reads S.told store_cause result (S.seen store.old) (S.seen store.new) }
{
    if tracked(from, file.0.bytes()).is_some() && !is_written_file(from, file) {
        return Ok(false);
    }
    has_obstacle(alloc, store, from, &file.0)
}

/// The path of the first file in whose way an untracked file is.
pub(crate) fn first_barred<S: Store>(
    alloc: Global,
    store: &mut S,
    from: &[IndexEntry],
    files: &[(Path, ConflictFile)],
) -> Result<Option<Path>, StoreError>
    requires { IsInOrder from.now }
    ensures found { S.told → IfOk result (λ found. found ≡ first_barred_in (S.seen store.old).content from.now files.now) }
    ensures reads { Reads S.told store_cause result (S.seen store.old) (S.seen store.new) }
{
    let mut rest = files;
    while let [file, after @ ..] = rest {
        if is_barred(alloc, store, from, file)? {
            return Ok(Some(file.0.copy()?));
        }
        rest = after;
    }
    Ok(None)
}
