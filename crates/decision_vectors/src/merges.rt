//! Cases of `tree_merge`.

use cases::{Answer, Case, CaseFault, map_of, put_map};
use seq_base::PathMap;
use std::alloc::AllocError;
use tree_merge::{Choice, Planned, conflict, merged_map, plan, three_way};

fn put_choice(out: &mut Answer, choice: &Choice) -> Result<(), AllocError> {
    match choice {
        Choice::Take(entry) => {
            out.word(b"take")?;
            out.entry_or_none(entry)
        }
        Choice::Content { mode, mode_clean } => {
            out.word(b"content")?;
            out.mode(*mode)?;
            out.word(if *mode_clean { b"clean" } else { b"unclean" })
        }
        Choice::Conflict { file } => {
            out.word(b"conflict")?;
            out.entry_or_none(file)
        }
    }
}

/// BASE OURS THEIRS, each `none` or a mode and an id.
pub fn one_path(case: &mut Case<'_>) -> Result<(), CaseFault> {
    let base = case.fields.entry_or_none()?;
    let ours = case.fields.entry_or_none()?;
    let theirs = case.fields.entry_or_none()?;
    put_choice(&mut case.out, &three_way(base, ours, theirs))?;
    Ok(())
}

/// The maps of a merge.
#[derive(Drop)]
struct Maps {
    base: PathMap,
    ours: PathMap,
    theirs: PathMap,
}

/// The number of its entries and the entries, of each map.
fn maps_of(case: &mut Case<'_>) -> Result<Maps, CaseFault> {
    let base = counted_map(case)?;
    let ours = counted_map(case)?;
    let theirs = counted_map(case)?;
    Ok(Maps { base, ours, theirs })
}

fn counted_map(case: &mut Case<'_>) -> Result<PathMap, CaseFault> {
    let count = case.fields.number()?;
    map_of(case, count as usize)
}

fn put_row(out: &mut Answer, row: &Planned) -> Result<(), AllocError> {
    out.bytes(row.path.bytes())?;
    put_choice(out, &row.choice)?;
    out.word(if row.clash { b"clash" } else { b"alone" })?;
    out.word(if row.written {
        b"written"
    } else {
        b"unwritten"
    })
}

/// Three maps: of each path whose entries are not all equal, its choice, whether it clashes, and whether its file is written.
pub fn plan_of(case: &mut Case<'_>) -> Result<(), CaseFault> {
    let maps = maps_of(case)?;
    let plan = plan(case.alloc, &maps.base, &maps.ours, &maps.theirs)?;
    case.out.word(b"plan")?;
    for row in plan.paths.as_slice() {
        put_row(&mut case.out, row)?;
    }
    Ok(())
}

/// Three maps: the first path that conflicts, or the merged map.
pub fn merge(case: &mut Case<'_>) -> Result<(), CaseFault> {
    let maps = maps_of(case)?;
    let plan = plan(case.alloc, &maps.base, &maps.ours, &maps.theirs)?;
    if let Some(row) = conflict(plan.paths.as_slice()) {
        case.out.named(b"conflict", row.path.bytes())?;
        return Ok(());
    }
    let merged = merged_map(case.alloc, &maps.base, &maps.ours, &maps.theirs)?;
    case.out.word(b"merged")?;
    put_map(&mut case.out, &merged)
}
