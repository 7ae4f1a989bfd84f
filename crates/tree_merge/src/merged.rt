//! The map that a merge without conflicts leaves.

ghost use Rattle.std.specs.Prelude.{◌≡◌, IfOk, None};
ghost use Rattle.std.specs.List.{find};
ghost use Rattle.std.specs.Option.{option_copied, option_map};
ghost use Rattle.tree_merge.specs.Plans.{plan_of};
ghost use Rattle.tree_merge.specs.Results.{conflict_in, does_conflict, is_taken as is_taken_of, result_of, taken};

use crate::cursor::Cursor;
use crate::plans::Planned;
use crate::rules::{Choice, choose};
use crate::walk::{copy_of, least_path};
use seq_base::{Entry, Path, PathMap};
use std::alloc::{AllocError, Global};

/// The first row of a plan at which a merge conflicts (git-merge(1), "HOW CONFLICTS ARE PRESENTED"): its path clashes, or
/// neither an entry nor none is taken there.
pub fn conflict(rows: &[Planned]) -> Option<&Planned>
    ensures row { option_copied result ≡ find does_conflict rows.now }
    ensures path { option_map (λ row. row.now.path) result ≡ conflict_in rows.now }
{
    rows.iter().find(|row| row.clash || !is_taken(&row.choice))
}

fn is_taken(choice: &Choice) -> bool
    ensures { result ≡ is_taken_of choice.now }
{
    match choice {
        Choice::Take(_) => true,
        Choice::Content { .. } | Choice::Conflict { .. } => false,
    }
}

/// The map that a merge without conflicts leaves (git-merge(1), "TRUE MERGE"): each path at which the merge takes an entry
/// has that one, and no other path is there. `conflict` finds what conflicts in a plan.
#[tactic(auto, using(crate::proofs::Files::result_map))]
pub fn merged_map(
    alloc: Global,
    base: &PathMap,
    ours: &PathMap,
    theirs: &PathMap,
) -> Result<PathMap, AllocError>
    requires { conflict_in (plan_of base.now ours.now theirs.now) ≡ None }
    ensures { IfOk result (λ map. map ≡ result_of base.now ours.now theirs.now) }
{
    let _base_length = base.len();
    let _ours_length = ours.len();
    let _theirs_length = theirs.len();
    let entries = taken_entries(alloc, base, ours, theirs)?;
    Ok(PathMap::from_entries(entries))
}

/// The paths at which an entry is taken, in order.
fn taken_entries(
    alloc: Global,
    base: &PathMap,
    ours: &PathMap,
    theirs: &PathMap,
) -> Result<Vec<(Path, Entry)>, AllocError>
    ensures { IfOk result (λ entries. entries.items ≡ result_of base.now ours.now theirs.now) }
{
    let mut entries = Vec::new(alloc);
    let mut base_left = Cursor::new(base);
    let mut ours_left = Cursor::new(ours);
    let mut theirs_left = Cursor::new(theirs);
    while let Some(path) = least_path(&base_left, &ours_left, &theirs_left) {
        let before = base_left.take(path);
        let mine = ours_left.take(path);
        let other = theirs_left.take(path);
        if let Some(entry) = taken_entry(choose(&before, &mine, &other)) {
            entries.push((copy_of(path)?, entry))?;
        }
    }
    Ok(entries)
}

/// The entry that a choice takes.
fn taken_entry(choice: Choice) -> Option<Entry>
    ensures { result ≡ taken choice }
{
    match choice {
        Choice::Take(entry) => entry,
        Choice::Content { .. } | Choice::Conflict { .. } => None,
    }
}
