//! Paths that would be folders of one another.

ghost use Rattle.std.specs.Prelude.{◌≡◌, ◌<◌, ◌||◌, ◌&&◌, ◌==◌, ℕ, false, not, map, IfOk, replicate, length, slice_index_or};
ghost use Rattle.std.specs.List.{starts_with};
ghost use Rattle.tree_merge.specs.declared.plans.Planned.{Planned as PlannedValue};
ghost use Rattle.tree_merge.specs.Plans.{AreInOrder, is_present, is_under, is_upper, marked};
ghost use Rattle.tree_merge.specs.Marks.{AreMarks};

use crate::plans::Planned;
use crate::walk::has_entry;
use seq_base::lies_below;
use std::alloc::{AllocError, Global};

fn is_row_under(upper: &Planned, lower: &Planned) -> bool
    ensures { result ≡ is_under upper.now lower.now }
{
    has_entry(&upper.choice)
        && has_entry(&lower.choice)
        && lies_below(upper.path.bytes(), lower.path.bytes())
}

/// Whether the row's path begins with the bytes of the other's.
fn begins_with(row: &Planned, front: &Planned) -> bool
    ensures { result ≡ starts_with (λ x y. x == y) row.now.path front.now.path }
{
    row.path.bytes().starts_with(front.path.bytes())
}

/// Marks the rows below row number i, and says whether there are any. They stand behind it, among those that begin with it.
fn mark_below(rows: &[Planned], i: usize, lowers: &mut [bool]) -> bool
    requires within { i < length rows.now }
    requires marks { length lowers.old ≡ length rows.now }
    requires order { AreInOrder rows.now }
    ensures upper { (d : PlannedValue) → result ≡ is_upper rows.now (slice_index_or rows.now i d) }
    ensures lower { (k : ℕ) (d : PlannedValue) → k < length rows.now → slice_index_or lowers.new k false
        ≡ slice_index_or lowers.old k false || is_under (slice_index_or rows.now i d) (slice_index_or rows.now k d) }
{
    let upper = &rows[i];
    let mut found = false;
    for j in i + 1..rows.len() {
        let row = &rows[j];
        if !begins_with(row, upper) {
            break;
        }
        if is_row_under(upper, row) {
            lowers[j] = true;
            found = true;
        }
    }
    found
}

/// Which rows have another below them, and which lie below another.
#[derive(Drop)]
pub(crate) struct Marks {
    pub(crate) uppers: Vec<bool>,
    pub(crate) lowers: Vec<bool>,
}

pub(crate) fn marks_of(alloc: Global, rows: &[Planned]) -> Result<Marks, AllocError>
    requires { AreInOrder rows.now }
    ensures { IfOk result (λ marks. AreMarks rows.now marks.uppers.items marks.lowers.items) }
{
    let mut uppers = vec![in alloc; false; rows.len()]?;
    let mut lowers = vec![in alloc; false; rows.len()]?;
    mark_all(rows, &mut uppers, &mut lowers);
    Ok(Marks { uppers, lowers })
}

fn mark_all(rows: &[Planned], uppers: &mut [bool], lowers: &mut [bool])
    requires order { AreInOrder rows.now }
    requires uppers { length uppers.old ≡ length rows.now }
    requires lowers { lowers.old ≡ replicate (length rows.now) false }
    ensures { AreMarks rows.now uppers.new lowers.new }
{
    for i in 0..rows.len() {
        uppers[i] = mark_below(rows, i, lowers);
    }
}

pub(crate) fn mark_rows(rows: &mut [Planned], uppers: &[bool], lowers: &[bool])
    requires { AreMarks rows.old uppers.now lowers.now }
    ensures { rows.new ≡ map (marked rows.old) rows.old }
{
    for i in 0..rows.len() {
        mark_row(&mut rows[i], uppers[i], lowers[i]);
    }
}

fn mark_row(row: &mut Planned, upper: bool, lower: bool)
    ensures { row.new ≡ record row.old { clash = upper || lower; written = is_present row.old.choice && not upper } }
{
    row.written = has_entry(&row.choice) && !upper;
    row.clash = upper || lower;
}
