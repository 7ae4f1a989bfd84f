//! Cases of `seq_base`: maps from paths.

use cases::{Case, CaseFault, map_of, put_map};

/// Entries: what clashes, `map` and the entries that stand.
pub fn path_map(case: &mut Case<'_>) -> Result<(), CaseFault> {
    let count = case.fields.len() / 3;
    let map = map_of(case, count)?;
    case.out.word(b"map")?;
    put_map(&mut case.out, &map)
}

/// A path, and entries: the entry at the path.
pub fn path_map_get(case: &mut Case<'_>) -> Result<(), CaseFault> {
    let path = case.fields.path()?;
    let count = case.fields.len() / 3;
    let map = map_of(case, count)?;
    case.out.entry_or_none(&map.get(&path))?;
    Ok(())
}
