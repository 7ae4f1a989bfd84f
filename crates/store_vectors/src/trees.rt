//! Cases of the crate `path_trees`.

use crate::faults::{lack_halt, tree_fault};
use cases::{Answer, Case, CaseFault, map_of, put_map};
use path_trees::{read_commit_map, read_map, read_tree_map, write_map, write_trees};
use seq_base::PathMap;
use seq_memory::QuietStore;

fn put_whole_map(out: &mut Answer, map: &PathMap) -> Result<(), CaseFault> {
    out.word(b"map")?;
    put_map(out, map)
}

/// ID: the map of the tree.
pub fn map(case: &mut Case<'_>, store: &mut QuietStore) -> Result<(), CaseFault> {
    let id = case.fields.id()?;
    match read_map(case.alloc, store, id) {
        Ok(map) => put_whole_map(&mut case.out, &map),
        Err(fault) => tree_fault(&mut case.out, &fault),
    }
}

/// The same, and of what lacks.
pub fn map_of_tree(case: &mut Case<'_>, store: &mut QuietStore) -> Result<(), CaseFault> {
    let id = case.fields.id()?;
    match read_tree_map(case.alloc, store, id) {
        Ok(map) => put_whole_map(&mut case.out, &map),
        Err(halt) => lack_halt(&mut case.out, &halt),
    }
}

/// ID: the map of the commit's tree.
pub fn map_of_commit(case: &mut Case<'_>, store: &mut QuietStore) -> Result<(), CaseFault> {
    let id = case.fields.id()?;
    match read_commit_map(case.alloc, store, id) {
        Ok(map) => put_whole_map(&mut case.out, &map),
        Err(halt) => lack_halt(&mut case.out, &halt),
    }
}

fn given_map(case: &mut Case<'_>) -> Result<PathMap, CaseFault> {
    let count = case.fields.len() / 3;
    map_of(case, count)
}

/// Entries, each a path, a mode and an id: the id of their root.
pub fn root(case: &mut Case<'_>, store: &mut QuietStore) -> Result<(), CaseFault> {
    let map = given_map(case)?;
    match write_map(case.alloc, store, &map) {
        Ok(id) => Ok(case.out.id(id)?),
        Err(fault) => tree_fault(&mut case.out, &fault),
    }
}

/// The same, and of what lacks.
pub fn root_of(case: &mut Case<'_>, store: &mut QuietStore) -> Result<(), CaseFault> {
    let map = given_map(case)?;
    match write_trees(case.alloc, store, &map) {
        Ok(id) => Ok(case.out.id(id)?),
        Err(halt) => lack_halt(&mut case.out, &halt),
    }
}
