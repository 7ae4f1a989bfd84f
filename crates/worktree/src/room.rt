//! Files in the way of a path, and the writes that put it over them.

ghost use Rattle.std.specs.List.{AllByRecursion};
ghost use Rattle.std.specs.Prelude.{◌≡◌, ◌<◌, ◌∷◌, ◌++◌, [], IfOk, length, map as map_list};
ghost use Rattle.seq_base.specs.StorePaths.{IsStorePath};
ghost use Rattle.seq_outside.specs.Seen.{Reads, store_cause};
ghost use Rattle.seq_outside.specs.Writes.{HasStorePath};
ghost use Rattle.worktree.specs.Own.{AreOutside};
ghost use Rattle.worktree.specs.Resets.{file_above, files_above as files_above_in, in_way as in_way_of, over as over_of, removal};

use crate::writes::bytes_of;
use seq_base::{Bytes, Path};
use seq_outside::{Store, StoreError, Write};
use std::alloc::{AllocError, Global};

/// The files, and behind them the first bytes of a path.
#[tactic(auto, using(crate::proofs::Resetting::paths_pushed))]
fn with_front(alloc: Global, files: Vec<Bytes>, front: &[u8]) -> Result<Vec<Bytes>, AllocError>
    requires front { IsStorePath front.now }
    requires files { AllByRecursion IsStorePath files.items }
    ensures pushed { IfOk result (λ all. all.items ≡ files.items ++ (front.now ∷ [])) }
    ensures paths { IfOk result (λ all. AllByRecursion IsStorePath all.items) }
{
    let mut files = files;
    files.push(Bytes::from_vec(Vec::from_slice(alloc, front)?))?;
    Ok(files)
}

/// The files, and behind them the one in the place of the folder of the path that ends there, if there is one.
#[tactic(auto, using(seq_outside::proofs::Blocking::front_is_store_path))]
fn with_file_above<S: Store>(
    alloc: Global,
    store: &mut S,
    files: Vec<Bytes>,
    path: &[u8],
    n: usize,
) -> Result<Vec<Bytes>, StoreError>
    requires path { IsStorePath path.now }
    requires within { n < length path.now }
    requires files { AllByRecursion IsStorePath files.items }
    ensures found { S.told → IfOk result (λ all. all.items ≡ files.items ++ file_above (S.seen store.old).content path.now n) }
    ensures paths { IfOk result (λ all. AllByRecursion IsStorePath all.items) }
    ensures reads { Reads S.told store_cause result (S.seen store.old) (S.seen store.new) }
{
    if path[n] != b'/' {
        return Ok(files);
    }
    if store.get(alloc, &path[..n])?.is_none() {
        return Ok(files);
    }
    Ok(with_front(alloc, files, &path[..n])?)
}

/// The files in the places of the path's folders.
#[tactic(auto, using(crate::proofs::Resetting::above_next))]
fn files_above<S: Store>(
    alloc: Global,
    store: &mut S,
    path: &[u8],
) -> Result<Vec<Bytes>, StoreError>
    requires { IsStorePath path.now }
    ensures found { S.told → IfOk result (λ files. files.items ≡ files_above_in (S.seen store.old).content path.now (length path.now)) }
    ensures paths { IfOk result (λ files. AllByRecursion IsStorePath files.items) }
    ensures reads { Reads S.told store_cause result (S.seen store.old) (S.seen store.new) }
{
    let mut files = Vec::new(alloc);
    let mut n = 0;
    while n < path.len() {
        files = with_file_above(alloc, store, files, path, n)?;
        n += 1;
    }
    Ok(files)
}

#[tactic(auto, using(crate::proofs::Resetting::paths_joined))]
fn both(files: Vec<Bytes>, more: Vec<Bytes>) -> Result<Vec<Bytes>, AllocError>
    requires files { AllByRecursion IsStorePath files.items }
    requires more { AllByRecursion IsStorePath more.items }
    ensures both { IfOk result (λ all. all.items ≡ files.items ++ more.items) }
    ensures paths { IfOk result (λ all. AllByRecursion IsStorePath all.items) }
{
    let mut files = files;
    let mut more = more;
    files.append(&mut more)?;
    Ok(files)
}

/// The files in the places of the path's folders, and those below it.
fn in_way<S: Store>(alloc: Global, store: &mut S, path: &[u8]) -> Result<Vec<Bytes>, StoreError>
    requires { IsStorePath path.now }
    ensures found { S.told → IfOk result (λ files. files.items ≡ in_way_of (S.seen store.old).content path.now) }
    ensures paths { IfOk result (λ files. AllByRecursion IsStorePath files.items) }
    ensures reads { Reads S.told store_cause result (S.seen store.old) (S.seen store.new) }
{
    let above = files_above(alloc, store, path)?;
    let below = store.list(alloc, path)?;
    Ok(both(above, below)?)
}

/// The writes, and behind them the removal of the file.
#[tactic(auto, using(crate::proofs::Resetting::writes_pushed))]
fn with_removal(alloc: Global, writes: Vec<Write>, file: &Bytes) -> Result<Vec<Write>, AllocError>
    requires file { IsStorePath file.now }
    requires writes { AllByRecursion HasStorePath writes.items }
    ensures made { IfOk result (λ all. all.items ≡ writes.items ++ (removal file.now ∷ [])) }
    ensures paths { IfOk result (λ all. AllByRecursion HasStorePath all.items) }
{
    let mut writes = writes;
    let path = Bytes::from_vec(Vec::from_slice(alloc, file.as_slice())?);
    writes.push(Write::Remove { path })?;
    Ok(writes)
}

/// Removes the files.
fn removals_of(alloc: Global, files: &[Bytes]) -> Result<Vec<Write>, AllocError>
    requires { AllByRecursion IsStorePath files.now }
    ensures made { IfOk result (λ writes. writes.items ≡ map_list removal files.now) }
    ensures paths { IfOk result (λ writes. AllByRecursion HasStorePath writes.items) }
{
    let mut writes = Vec::new(alloc);
    let mut rest = files;
    while let [file, after @ ..] = rest {
        writes = with_removal(alloc, writes, file)?;
        rest = after;
    }
    Ok(writes)
}

/// The writes, and behind them that of the path with these bytes.
#[tactic(auto, using(crate::proofs::Resetting::writes_pushed))]
fn with_put(writes: Vec<Write>, path: Bytes, bytes: Bytes) -> Result<Vec<Write>, AllocError>
    requires path { IsStorePath path }
    requires writes { AllByRecursion HasStorePath writes.items }
    ensures made { IfOk result (λ all. all.items ≡ writes.items ++ (Write.Put path bytes ∷ [])) }
    ensures paths { IfOk result (λ all. AllByRecursion HasStorePath all.items) }
{
    let mut writes = writes;
    writes.push(Write::Put { path, bytes })?;
    Ok(writes)
}

/// What gives the path these bytes: the removals of whatever stands in its way, then the put.
#[tactic(auto, using(crate::proofs::Outside::over_outside))]
pub(crate) fn over<S: Store>(
    alloc: Global,
    store: &mut S,
    path: &Path,
    bytes: Bytes,
) -> Result<Vec<Write>, StoreError>
    ensures found { S.told → IfOk result (λ writes. writes.items ≡ over_of (S.seen store.old).content path.now bytes) }
    ensures outside { S.told → IfOk result (λ writes. AreOutside writes.items) }
    ensures paths { IfOk result (λ writes. AllByRecursion HasStorePath writes.items) }
    ensures reads { Reads S.told store_cause result (S.seen store.old) (S.seen store.new) }
{
    let files = in_way(alloc, store, path.bytes())?;
    let writes = removals_of(alloc, &files)?;
    let place = bytes_of(alloc, path)?;
    Ok(with_put(writes, place, bytes)?)
}
