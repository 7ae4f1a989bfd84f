//! The paths below a folder once changes are made.

ghost use Rattle.std.specs.List.{AllByRecursion};
ghost use Rattle.std.specs.Prelude.{◌≡◌, ◌∷◌, [], IfErr, IfOk, OnOk, filter};
ghost use Rattle.seq_base.specs.StorePaths.{IsStorePath};
ghost use Rattle.seq_outside.specs.Listing.{IsAt, IsGapFor, ListsMade, changes_in};
ghost use Rattle.seq_outside.specs.Listing.{drop_path as drop_path_of, is_listed as is_listed_below, put_path as put_path_of};
ghost use Rattle.seq_outside.specs.Slots.{kept};
ghost use Rattle.seq_outside.specs.Writes.{HasStorePath};

use crate::changes::Changes;
use crate::write::Write;
use seq_base::{Bytes, lies_below};
use std::alloc::{AllocError, Global};
use std::cmp::Ordering;

/// Where the path stands, or where it is to stand.
fn place_of(files: &[Bytes], path: &[u8]) -> Result<usize, usize>
    ensures found { IfOk result (IsAt files.now path.now) }
    ensures absent { IfErr result (IsGapFor files.now path.now) }
{
    for (i, file) in files.iter().enumerate() {
        match path.cmp(file.as_slice()) {
            Ordering::Less => return Err(i),
            Ordering::Equal => return Ok(i),
            Ordering::Greater => {}
        }
    }
    Err(files.len())
}

#[tactic(auto, using(crate::proofs::ListedPaths::put_at, crate::proofs::ListedPaths::put_gap))]
fn put_path(alloc: Global, files: &mut Vec<Bytes>, path: &[u8]) -> Result<(), AllocError>
    ensures { OnOk result (files.new.items ≡ put_path_of path.now files.old.items) }
{
    let Err(i) = place_of(files, path) else {
        return Ok(());
    };
    let path = Bytes::from_vec(path.to_vec(alloc)?);
    files.insert(i, path)?;
    Ok(())
}

fn drop_path(files: &mut Vec<Bytes>, path: &[u8])
    ensures { files.new.items ≡ drop_path_of path.now files.old.items }
{
    files.retain(|file| path.cmp(file.as_slice()) != Ordering::Equal);
}

fn change_file(
    alloc: Global,
    files: &mut Vec<Bytes>,
    slot: &Option<Write>,
) -> Result<(), AllocError>
    ensures { OnOk result (files.new.items ≡ changes_in files.old.items (kept (slot.now ∷ []))) }
{
    match slot {
        Some(Write::Put { path, .. }) => put_path(alloc, files, path.as_slice()),
        Some(Write::Remove { path }) => {
            drop_path(files, path.as_slice());
            Ok(())
        }
        None => Ok(()),
    }
}

fn change_files(
    alloc: Global,
    files: &mut Vec<Bytes>,
    slots: &[Option<Write>],
) -> Result<(), AllocError>
    ensures { OnOk result (files.new.items ≡ changes_in files.old.items (kept slots.now)) }
{
    let mut rest = slots;
    while let [slot, after @ ..] = rest {
        change_file(alloc, files, slot)?;
        rest = after;
    }
    Ok(())
}

fn is_listed(folder: &[u8], path: &[u8]) -> bool
    ensures { result ≡ is_listed_below folder.now path.now }
{
    match folder {
        [] => true,
        [_, ..] => lies_below(folder, path),
    }
}

fn keep_listed(files: &mut Vec<Bytes>, folder: &[u8])
    ensures { files.new.items ≡ filter (is_listed_below folder.now) files.old.items }
{
    files.retain(|file| is_listed(folder, file.as_slice()));
}

/// The paths below a folder once the changes are made, from those before.
pub(crate) fn listed(
    alloc: Global,
    changes: &Changes,
    mut files: Vec<Bytes>,
    folder: &[u8],
) -> Result<Vec<Bytes>, AllocError>
    ensures found { IfOk result (λ paths. ListsMade folder.now changes.now files.items paths.items) }
    ensures store_paths { AllByRecursion IsStorePath files.items → IfOk result (λ paths. AllByRecursion IsStorePath paths.items) }
{
    change_files(alloc, &mut files, changes.slots())?;
    keep_listed(&mut files, folder);
    Ok(files)
}
