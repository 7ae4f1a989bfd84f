//! Cases of `stage_index`. An index is written as its hex digits.

use cases::{Answer, Case, CaseFault, index_of, map_of, put_map};
use index_file::IndexEntry;
use stage_index::{StageFault, from_map, set_stages, staged_path, to_map, tracked, unmerged};

/// INDEX: its unmerged paths.
pub fn unmerged_paths(case: &mut Case<'_>) -> Result<(), CaseFault> {
    let entries = index_of(case)?;
    case.out.word(b"unmerged")?;
    for path in unmerged(case.alloc, &entries)?.iter() {
        case.out.bytes(path.bytes())?;
    }
    Ok(())
}

/// INDEX: its map, or why it has none.
#[tactic(auto, using(stage_index::proofs::Joining::no_folders))]
pub fn map_of_index(case: &mut Case<'_>) -> Result<(), CaseFault> {
    let entries = index_of(case)?;
    match to_map(case.alloc, &entries) {
        Ok(map) => {
            case.out.word(b"map")?;
            put_map(&mut case.out, &map)?;
        }
        Err(StageFault::Unmerged { path }) => case.out.named(b"unmerged", path.bytes())?,
        Err(StageFault::Clash { path }) => case.out.named(b"clash", path.bytes())?,
        Err(StageFault::Memory) => return Err(CaseFault::Memory),
    }
    Ok(())
}

fn put_entries(out: &mut Answer, entries: &[IndexEntry]) -> Result<(), CaseFault> {
    out.counted(b"entries", entries.len() as u64)?;
    for entry in entries {
        out.bytes(entry.path.bytes())?;
        out.number(u64::from(entry.stage))?;
        out.mode(entry.mode)?;
        out.id(entry.id)?;
    }
    Ok(())
}

/// INDEX PATH MERGED BASE OURS THEIRS, each of these `none` or a mode and an id: the entries once the path has these stages.
pub fn with_stages(case: &mut Case<'_>) -> Result<(), CaseFault> {
    let mut entries = index_of(case)?;
    let path = case.fields.path()?;
    let merged = case.fields.entry_or_none()?;
    let base = case.fields.entry_or_none()?;
    let ours = case.fields.entry_or_none()?;
    let theirs = case.fields.entry_or_none()?;
    set_stages(
        case.alloc,
        &mut entries,
        &path,
        [merged, base, ours, theirs],
    )?;
    put_entries(&mut case.out, &entries)
}

/// Entries, each a path, a mode and an id: the index of their map.
pub fn index_of_map(case: &mut Case<'_>) -> Result<(), CaseFault> {
    let count = case.fields.len() / 3;
    let map = map_of(case, count)?;
    let entries = from_map(case.alloc, &map)?;
    put_entries(&mut case.out, &entries)
}

/// INDEX, and the entries of HEAD's map: the least path at which they differ, or `none`.
pub fn staged(case: &mut Case<'_>) -> Result<(), CaseFault> {
    let entries = index_of(case)?;
    let count = case.fields.len() / 3;
    let head = map_of(case, count)?;
    match staged_path(&entries, &head) {
        Some(path) => case.out.bytes(path.bytes())?,
        None => case.out.word(b"none")?,
    }
    Ok(())
}

/// INDEX PATH: whether the index tracks the path.
pub fn is_tracked(case: &mut Case<'_>) -> Result<(), CaseFault> {
    let entries = index_of(case)?;
    let path = case.fields.bytes()?;
    case.out.yes_or_no(tracked(&entries, path).is_some())?;
    Ok(())
}
