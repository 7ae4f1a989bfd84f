//! Untracked files in the way of a path.

ghost use Rattle.std.specs.FinMap as map;
ghost use Rattle.std.specs.List.{list_any};
ghost use Rattle.std.specs.Prelude.{◌≡◌, ◌<◌, ◌&&◌, IfOk, length};
ghost use Rattle.index_file.specs.Entries.{IsInOrder};
ghost use Rattle.seq_base.specs.Paths.{IsPath};
ghost use Rattle.seq_base.specs.StorePaths.{IsStorePath};
ghost use Rattle.seq_base.specs.World.{is_below};
ghost use Rattle.stage_index.specs.Stages.{row_of};
ghost use Rattle.stage_index.specs.Switching.{first_obstructed as first_obstructed_in, is_obstructed as is_obstructed_in};
ghost use Rattle.stage_index.specs.Switching.{is_in_way, is_untracked as is_untracked_in};
ghost use Rattle.std.specs.Prelude.{map as map_list};
ghost use Rattle.seq_outside.specs.Seen.{Reads, store_cause};
ghost use Rattle.worktree.specs.Folders.{has_untracked_at, is_file_before};

use crate::rewritten::{is_rewritten, is_tracked, is_untracked};
use index_file::IndexEntry;
use seq_base::{Bytes, Path};
use seq_outside::{Store, StoreError};
use std::alloc::Global;

/// Whether an untracked file stands at the path.
fn stands_at<S: Store>(
    alloc: Global,
    store: &mut S,
    from: &[IndexEntry],
    path: &[u8],
) -> Result<bool, StoreError>
    requires order { IsInOrder from.now }
    requires path { IsStorePath path.now }
    ensures told { S.told → IfOk result (λ is. is ≡ is_untracked_in from.now path.now && map.contains_key (S.seen store.old).content path.now) }
    ensures reads { Reads S.told store_cause result (S.seen store.old) (S.seen store.new) }
{
    if !is_untracked(from, path) {
        return Ok(false);
    }
    Ok(store.get(alloc, path)?.is_some())
}

/// Whether the path has a folder that ends there, and an untracked file stands in its place.
fn stands_before<S: Store>(
    alloc: Global,
    store: &mut S,
    from: &[IndexEntry],
    path: &[u8],
    n: usize,
) -> Result<bool, StoreError>
    requires order { IsInOrder from.now }
    requires path { IsStorePath path.now }
    requires within { n < length path.now }
    ensures told { S.told → IfOk result (λ is. is ≡ is_file_before (S.seen store.old).content from.now path.now n) }
    ensures reads { Reads S.told store_cause result (S.seen store.old) (S.seen store.new) }
{
    if path[n] != b'/' {
        return Ok(false);
    }
    stands_at(alloc, store, from, &path[..n])
}

/// Whether an untracked file stands in the place of a folder of the path.
fn stands_above<S: Store>(
    alloc: Global,
    store: &mut S,
    from: &[IndexEntry],
    path: &[u8],
) -> Result<bool, StoreError>
    requires order { IsInOrder from.now }
    requires path { IsStorePath path.now }
    ensures told { S.told → IfOk result (λ is. is ≡ has_untracked_at (S.seen store.old).content from.now (λ file. is_below file path.now)) }
    ensures reads { Reads S.told store_cause result (S.seen store.old) (S.seen store.new) }
{
    let mut n = 0;
    while n < path.len() {
        if stands_before(alloc, store, from, path, n)? {
            return Ok(true);
        }
        n += 1;
    }
    Ok(false)
}

fn has_untracked(from: &[IndexEntry], files: &[Bytes]) -> bool
    requires { IsInOrder from.now }
    ensures { result ≡ list_any (is_untracked_in from.now) files.now }
{
    for file in files {
        if is_untracked(from, file.as_slice()) {
            return true;
        }
    }
    false
}

/// Whether an untracked file stands below the path.
fn stands_below<S: Store>(
    alloc: Global,
    store: &mut S,
    from: &[IndexEntry],
    path: &[u8],
) -> Result<bool, StoreError>
    requires order { IsInOrder from.now }
    requires path { IsPath path.now }
    requires store_path { IsStorePath path.now }
    ensures told { S.told → IfOk result (λ is. is ≡ has_untracked_at (S.seen store.old).content from.now (is_below path.now)) }
    ensures reads { Reads S.told store_cause result (S.seen store.old) (S.seen store.new) }
{
    let files = store.list(alloc, path)?;
    Ok(has_untracked(from, &files))
}

/// Whether an untracked file is in the way of the path.
pub(crate) fn has_obstacle<S: Store>(
    alloc: Global,
    store: &mut S,
    from: &[IndexEntry],
    path: &Path,
) -> Result<bool, StoreError>
    requires { IsInOrder from.now }
    ensures told { S.told → IfOk result (λ is. is ≡ has_untracked_at (S.seen store.old).content from.now (is_in_way path.now)) }
    ensures reads { Reads S.told store_cause result (S.seen store.old) (S.seen store.new) }
{
    let path = path.bytes();
    if stands_at(alloc, store, from, path)? {
        return Ok(true);
    }
    if stands_above(alloc, store, from, path)? {
        return Ok(true);
    }
    let is_below = stands_below(alloc, store, from, path)?;
    Ok(is_below)
}

/// Whether the entry's path was not tracked or is written, and an untracked file is in its way.
fn is_obstructed<S: Store>(
    alloc: Global,
    store: &mut S,
    from: &[IndexEntry],
    place: &mut usize,
    entry: &IndexEntry,
) -> Result<bool, StoreError>
    requires { IsInOrder from.now }
    ensures told { S.told → IfOk result (λ is. is ≡ is_obstructed_in (S.seen store.old).content from.now (row_of entry.now)) }
    ensures reads { Reads S.told store_cause result (S.seen store.old) (S.seen store.new) }
{
    if is_tracked(from, place, entry.path.bytes()) && !is_rewritten(from, place, entry) {
        return Ok(false);
    }
    has_obstacle(alloc, store, from, &entry.path)
}

/// The least path of an entry in whose way an untracked file is.
pub(crate) fn first_obstructed<S: Store>(
    alloc: Global,
    store: &mut S,
    from: &[IndexEntry],
    to: &[IndexEntry],
) -> Result<Option<Path>, StoreError>
    requires from { IsInOrder from.now }
    requires to { IsInOrder to.now }
    ensures found { S.told → IfOk result (λ found. found ≡ first_obstructed_in (S.seen store.old).content from.now (map_list row_of to.now)) }
    ensures reads { Reads S.told store_cause result (S.seen store.old) (S.seen store.new) }
{
    let mut place = 0;
    let mut rest = to;
    while let [entry, after @ ..] = rest {
        if is_obstructed(alloc, store, from, &mut place, entry)? {
            return Ok(Some(entry.path.copy()?));
        }
        rest = after;
    }
    Ok(None)
}
