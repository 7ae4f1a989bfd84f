//! The writes of a switch.

ghost use Rattle.std.specs.List.{AllByRecursion};
ghost use Rattle.std.specs.Prelude.{◌≡◌, ◌<◌, ◌^◌, ◌++◌, ◌∷◌, [], IfOk, OnOk, codes, is_none, length, map};
ghost use Rattle.index_file.specs.Entries.{IsInOrder, IsIndex};
ghost use Rattle.index_file.specs.Spelling.{index_text as text_of_index};
ghost use Rattle.seq_base.specs.PathMaps.{entry_at};
ghost use Rattle.seq_base.specs.Paths.{IsPath};
ghost use Rattle.seq_outside.specs.Halts.{Gives, halt_cause};
ghost use Rattle.seq_outside.specs.Seen.{Reads};
ghost use Rattle.seq_outside.specs.Writes.{HasStorePath};
ghost use Rattle.stage_index.specs.Stages.{map_of, row_of};
ghost use Rattle.stage_index.specs.Switching.{is_dropped as is_dropped_from, removals, removals_of};
ghost use Rattle.worktree.specs.Own.{AreOwn};
ghost use Rattle.worktree.specs.Writes.{Appends, clear_writes as clear_writes_of, rewritten};

use crate::blob::read_blob;
use crate::rewritten::{is_rewritten, is_submodule_at};
use index_file::{IndexEntry, index_text};
use seq_base::{Bytes, Path, PathMap};
use seq_outside::{Halt, Lack, Store, Write};
use stage_index::{from_map, tracked_from};
use std::alloc::{AllocError, Global};

pub(crate) fn bytes_of(alloc: Global, path: &Path) -> Result<Bytes, AllocError>
    ensures same { IfOk result (λ bytes. bytes ≡ path.now) }
    ensures path { IfOk result (λ bytes. IsPath bytes) }
{
    Ok(Bytes::from_vec(Vec::from_slice(alloc, path.bytes())?))
}

/// Whether the index has no merged entry at the path, of paths that are asked for in their order.
pub(crate) fn lacks(index: &[IndexEntry], place: &mut usize, path: &[u8]) -> bool
    requires { IsInOrder index.now }
    ensures { result ≡ is_none (entry_at (map_of index.now) path.now) }
{
    match tracked_from(index, place, path) {
        Some(entry) => entry.stage != 0,
        None => true,
    }
}

/// Whether the entry's path is tracked no longer, and is no submodule's.
fn is_dropped(from: &[IndexEntry], entry: &IndexEntry, to: &[IndexEntry], place: &mut usize) -> bool
    requires from { IsInOrder from.now }
    requires to { IsInOrder to.now }
    ensures { result ≡ is_dropped_from from.now (map_of to.now) entry.now }
{
    lacks(to, place, entry.path.bytes()) && !is_submodule_at(from, entry.path.bytes())
}

/// Removes the entry's path, if it is tracked no longer.
#[tactic(auto, using(crate::proofs::Owning::own_more))]
fn push_removal(
    alloc: Global,
    from: &[IndexEntry],
    entry: &IndexEntry,
    to: &[IndexEntry],
    place: &mut usize,
    writes: &mut Vec<Write>,
) -> Result<(), AllocError>
    requires from { IsInOrder from.now }
    requires to { IsInOrder to.now }
    ensures pushed { OnOk result (writes.new.items ≡ writes.old.items ++ removals_of from.now (map_of to.now) (entry.now ∷ [])) }
    ensures own { OnOk result (AreOwn writes.old.items → AreOwn writes.new.items) }
{
    if !is_dropped(from, entry, to, place) {
        return Ok(());
    }
    let path = bytes_of(alloc, &entry.path)?;
    writes.push(Write::Remove { path })?;
    Ok(())
}

pub(crate) fn push_removals(
    alloc: Global,
    from: &[IndexEntry],
    to: &[IndexEntry],
    writes: &mut Vec<Write>,
) -> Result<(), AllocError>
    requires from { IsInOrder from.now }
    requires to { IsInOrder to.now }
    ensures pushed { OnOk result (writes.new.items ≡ writes.old.items ++ removals from.now (map_of to.now)) }
    ensures own { OnOk result (AreOwn writes.old.items → AreOwn writes.new.items) }
{
    let mut place = 0;
    let mut rest = from;
    while let [entry, after @ ..] = rest {
        push_removal(alloc, from, entry, to, &mut place, writes)?;
        rest = after;
    }
    Ok(())
}

pub(crate) fn index_write(alloc: Global, to: &[IndexEntry]) -> Result<Write, AllocError>
    requires { IsIndex to.now }
    ensures { IfOk result (λ write. write ≡ Write.Put (codes ".git/index") (text_of_index to.now)) }
{
    let path = Bytes::from_vec(Vec::from_slice(alloc, b".git/index")?);
    let bytes = Bytes::from_vec(index_text(alloc, to)?);
    Ok(Write::Put { path, bytes })
}

/// Puts the entry's blob, if it is written.
#[tactic(auto, using(crate::proofs::Owning::own_more))]
fn push_blob<S: Store>(
    alloc: Global,
    store: &mut S,
    from: &[IndexEntry],
    place: &mut usize,
    entry: &IndexEntry,
    writes: &mut Vec<Write>,
) -> Result<(), Halt<Lack>>
    requires { IsInOrder from.now }
    ensures appends { S.told → Appends result writes.old.items writes.new.items
        (rewritten (S.seen store.old).content from.now (row_of entry.now ∷ [])) }
    ensures own { OnOk result (AreOwn writes.old.items → AreOwn writes.new.items) }
    ensures reads { Reads S.told halt_cause result (S.seen store.old) (S.seen store.new) }
{
    if !is_rewritten(from, place, entry) {
        return Ok(());
    }
    let bytes = read_blob(alloc, store, entry.id)?;
    let path = bytes_of(alloc, &entry.path)?;
    writes.push(Write::Put { path, bytes })?;
    Ok(())
}

/// Puts the blobs of all entries that are written.
fn push_blobs<S: Store>(
    alloc: Global,
    store: &mut S,
    from: &[IndexEntry],
    to: &[IndexEntry],
    writes: &mut Vec<Write>,
) -> Result<(), Halt<Lack>>
    requires { IsInOrder from.now }
    ensures appends { S.told → Appends result writes.old.items writes.new.items (rewritten (S.seen store.old).content from.now (map row_of to.now)) }
    ensures own { OnOk result (AreOwn writes.old.items → AreOwn writes.new.items) }
    ensures reads { Reads S.told halt_cause result (S.seen store.old) (S.seen store.new) }
{
    let mut place = 0;
    let mut rest = to;
    while let [entry, after @ ..] = rest {
        push_blob(alloc, store, from, &mut place, entry, writes)?;
        rest = after;
    }
    Ok(())
}

/// What switches index and files from what an index tracks to a map, where no untracked file is in the way (git-read-tree(1), "Two
/// Tree Merge"), as writes that are not made yet: the removals, then the index, then the files, in path order. All blobs are read.
/// The first that is missing, damaged or of another kind is Object, and one that is too large Limit.
pub fn clear_writes<S: Store>(
    alloc: Global,
    store: &mut S,
    from: &[IndexEntry],
    to: &PathMap,
) -> Result<Vec<Write>, Halt<Lack>>
    requires order { IsInOrder from.now }
    requires few { length to.now < 2 ^ 32 }
    ensures gives { S.told → Gives (λ writes. writes.items) result (clear_writes_of (S.seen store.old).content from.now to.now) }
    ensures own { IfOk result (λ writes. AreOwn writes.items) }

    // It follows from `own`, and a call of `make_writes` asks for it.
    ensures store_paths { IfOk result (λ writes. AllByRecursion HasStorePath writes.items) }
    ensures reads { Reads S.told halt_cause result (S.seen store.old) (S.seen store.new) }
{
    let _length = to.len();
    let index = from_map(alloc, to)?;
    let mut writes = Vec::new(alloc);
    push_removals(alloc, from, &index, &mut writes)?;
    writes.push(index_write(alloc, &index)?)?;
    push_blobs(alloc, store, from, &index, &mut writes)?;
    Ok(writes)
}
