//! The files against the index.

ghost use Rattle.std.specs.Prelude.{◌≡◌, IfOk};
ghost use Rattle.index_file.specs.Entries.{IsInOrder};
ghost use Rattle.stage_index.specs.Changes.{changed, is_changed as is_changed_in};
ghost use Rattle.seq_outside.specs.Seen.{Reads, store_cause};

use crate::blob::is_blob;
use crate::rewritten::is_gitlink;
use index_file::IndexEntry;
use seq_base::Path;
use seq_outside::{Store, StoreError};
use std::alloc::Global;

fn is_changed<S: Store>(
    alloc: Global,
    store: &mut S,
    entry: &IndexEntry,
) -> Result<bool, StoreError>
    ensures told { S.told → IfOk result (λ is. is ≡ is_changed_in (S.seen store.old).content entry.now) }
    ensures reads { Reads S.told store_cause result (S.seen store.old) (S.seen store.new) }
{
    if is_gitlink(entry.mode) {
        return Ok(false);
    }
    match store.get(alloc, entry.path.bytes())? {
        None => Ok(true),
        Some(bytes) => Ok(!is_blob(&bytes, &entry.id)),
    }
}

/// The least path of an entry whose file is missing or has other bytes than the entry's blob (git-diff-files(1)). At a
/// submodule's path no file is looked at. Each file is read once and dropped.
pub fn first_change<S: Store>(
    alloc: Global,
    store: &mut S,
    index: &[IndexEntry],
) -> Result<Option<Path>, StoreError>
    requires { IsInOrder index.now }
    ensures found { S.told → IfOk result (λ found. found ≡ changed (S.seen store.old).content index.now) }
    ensures reads { Reads S.told store_cause result (S.seen store.old) (S.seen store.new) }
{
    let mut rest = index;
    while let [entry, after @ ..] = rest {
        if is_changed(alloc, store, entry)? {
            return Ok(Some(entry.path.copy()?));
        }
        rest = after;
    }
    Ok(None)
}
