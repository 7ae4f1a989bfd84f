//! The paths of three maps whose entries are not all equal.

ghost use Rattle.std.specs.Prelude.{◌≡◌, IfOk, OnOk};
ghost use Rattle.std.specs.Option.{option_copied};
ghost use Rattle.seq_base.specs.PathMaps.{is_less};
ghost use Rattle.tree_merge.specs.Plans.{AreInOrder, all_rows as all_rows_of, is_listed, is_present, listed, row_of};
ghost use Rattle.tree_merge.specs.Walks.{head_path, lesser};

use crate::cursor::Cursor;
use crate::plans::Planned;
use crate::rules::{Choice, choose, is_same};
use seq_base::{Entry, Path, PathMap};
use std::alloc::{AllocError, Global};
use std::cmp::Ordering;

/// The paths, in order, as if none clashed with another.
pub(crate) fn listed_rows(
    alloc: Global,
    base: &PathMap,
    ours: &PathMap,
    theirs: &PathMap,
) -> Result<Vec<Planned>, AllocError>
    ensures rows { IfOk result (λ rows. rows.items ≡ listed base.now ours.now theirs.now) }
    ensures order { IfOk result (λ rows. AreInOrder rows.items) }
{
    let mut rows = Vec::new(alloc);
    let mut base_left = Cursor::new(base);
    let mut ours_left = Cursor::new(ours);
    let mut theirs_left = Cursor::new(theirs);
    while let Some(path) = least_path(&base_left, &ours_left, &theirs_left) {
        let row = row(
            copy_of(path)?,
            base_left.take(path),
            ours_left.take(path),
            theirs_left.take(path),
        );
        if is_row_listed(&row) {
            rows.push(row)?;
        }
    }
    Ok(rows)
}

/// All paths of the maps, in order, as if none clashed with another.
pub(crate) fn all_rows(
    alloc: Global,
    base: &PathMap,
    ours: &PathMap,
    theirs: &PathMap,
) -> Result<Vec<Planned>, AllocError>
    ensures rows { IfOk result (λ rows. rows.items ≡ all_rows_of base.now ours.now theirs.now) }
    ensures order { IfOk result (λ rows. AreInOrder rows.items) }
{
    let mut rows = Vec::new(alloc);
    let mut base_left = Cursor::new(base);
    let mut ours_left = Cursor::new(ours);
    let mut theirs_left = Cursor::new(theirs);
    while let Some(path) = least_path(&base_left, &ours_left, &theirs_left) {
        let row = row(
            copy_of(path)?,
            base_left.take(path),
            ours_left.take(path),
            theirs_left.take(path),
        );
        rows.push(row)?;
    }
    Ok(rows)
}

pub(crate) fn copy_of(path: &Path) -> Result<Path, AllocError>
    ensures { IfOk result (λ copy. copy ≡ path.now) }
{
    path.clone()
}

/// The least of the first paths.
pub(crate) fn least_path<'a>(
    base: &Cursor<'a>,
    ours: &Cursor<'a>,
    theirs: &Cursor<'a>,
) -> Option<&'a Path>
    ensures { option_copied result ≡ lesser (lesser (head_path base.now) (head_path ours.now)) (head_path theirs.now) }
{
    lesser_path(lesser_path(base.first(), ours.first()), theirs.first())
}

fn lesser_path<'a>(a: Option<&'a Path>, b: Option<&'a Path>) -> Option<&'a Path>
    ensures { option_copied result ≡ lesser (option_copied a.entry) (option_copied b.entry) }
{
    let Some(first) = a else {
        return b;
    };
    let Some(second) = b else {
        return Some(first);
    };
    if comes_before(second.bytes(), first.bytes()) {
        Some(second)
    } else {
        Some(first)
    }
}

fn comes_before(a: &[u8], b: &[u8]) -> bool
    ensures { result ≡ is_less a.now b.now }
{
    match a.cmp(b) {
        Ordering::Less => true,
        Ordering::Equal | Ordering::Greater => false,
    }
}

fn row(path: Path, base: Option<Entry>, ours: Option<Entry>, theirs: Option<Entry>) -> Planned
    ensures { result ≡ row_of path base ours theirs }
{
    let choice = choose(&base, &ours, &theirs);
    let written = has_entry(&choice);
    Planned {
        path,
        base,
        ours,
        theirs,
        choice,
        clash: false,
        written,
    }
}

pub(crate) fn has_entry(choice: &Choice) -> bool
    ensures { result ≡ is_present choice.now }
{
    match choice {
        Choice::Take(entry) => entry.is_some(),
        Choice::Content { .. } => true,
        Choice::Conflict { file } => file.is_some(),
    }
}

fn is_row_listed(row: &Planned) -> bool
    ensures { result ≡ is_listed row.now }
{
    !(is_same(&row.base, &row.ours) && is_same(&row.ours, &row.theirs))
}
