//! What a three-way merge of maps is to do at each path.

ghost use Rattle.std.specs.Prelude.{◌≡◌, IfOk};
ghost use Rattle.tree_merge.specs.Plans.{plan_of, whole_plan_of};

use crate::clash::{mark_rows, marks_of};
use crate::rules::Choice;
use crate::walk::{all_rows, listed_rows};
use seq_base::{Entry, Path, PathMap};
use std::alloc::{AllocError, Global};
use std::marker::Model;

/// What a merge is to do at a path whose three entries are not all equal.
#[derive(Debug, Drop)]
pub struct Planned {
    pub path: Path,
    pub base: Option<Entry>,
    pub ours: Option<Entry>,
    pub theirs: Option<Entry>,
    pub choice: Choice,
    /// After the merge this path would be a folder of another, or another a folder of this one.
    pub clash: bool,
    /// The path has a file after the merge: its choice has an entry, and no other path lies below it.
    pub written: bool,
}

/// The paths of a plan, which contracts see as a list.
#[derive(Debug, Drop)]
pub struct PlannedPaths {
    held: Vec<Planned>,
}

impl Model for PlannedPaths {
    ghost use Rattle.std.specs.Prelude.{List};
    ghost use Rattle.tree_merge.specs.declared.plans.Planned.{Planned as PlannedValue};

    ghost Value = { List PlannedValue };

    ghost view = { λ p. p.held.items };
}

impl PlannedPaths {
    pub fn from_vec(paths: Vec<Planned>) -> PlannedPaths
        ensures { result ≡ paths.items }
    {
        PlannedPaths { held: paths }
    }

    pub fn as_slice(&self) -> &[Planned]
        ensures { result.now ≡ self.now }
    {
        &self.held
    }

    pub fn into_vec(self) -> Vec<Planned>
        ensures { result.items ≡ self }
    {
        self.held
    }
}

/// What a three-way merge of maps is to do, in byte order of the paths.
#[derive(Debug, Drop)]
pub struct MergePlan {
    pub paths: PlannedPaths,
}

/// Plans the merge of three maps (git-read-tree(1), "3-Way Merge"): what to do at each path whose three entries are not all
/// equal. Every other path stays as it is.
pub fn plan(
    alloc: Global,
    base: &PathMap,
    ours: &PathMap,
    theirs: &PathMap,
) -> Result<MergePlan, AllocError>
    ensures { IfOk result (λ plan. plan.paths ≡ plan_of base.now ours.now theirs.now) }
{
    let mut rows = listed_rows(alloc, base, ours, theirs)?;
    let marks = marks_of(alloc, &rows)?;
    mark_rows(&mut rows, &marks.uppers, &marks.lowers);
    Ok(MergePlan {
        paths: PlannedPaths::from_vec(rows),
    })
}

/// The same of each path of the maps: one whose three entries are equal is taken as it is.
pub fn whole_plan(
    alloc: Global,
    base: &PathMap,
    ours: &PathMap,
    theirs: &PathMap,
) -> Result<MergePlan, AllocError>
    ensures { IfOk result (λ plan. plan.paths ≡ whole_plan_of base.now ours.now theirs.now) }
{
    let mut rows = all_rows(alloc, base, ours, theirs)?;
    let marks = marks_of(alloc, &rows)?;
    mark_rows(&mut rows, &marks.uppers, &marks.lowers);
    Ok(MergePlan {
        paths: PlannedPaths::from_vec(rows),
    })
}
