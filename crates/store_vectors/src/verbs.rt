//! The verbs.

use crate::{held_objects, histories, paths, refs, revs, trees};
use cases::{Case, CaseFault, Verbs, files_of, put_changes};
use seq_memory::QuietStore;

/// The verbs of the crates over a store.
pub struct StoreVerbs;

impl Verbs for StoreVerbs {
    fn answer(&self, verb: &str, case: &mut Case<'_>) -> Result<bool, CaseFault> {
        if verb == "rev" {
            revs::parts(case)?;
            return Ok(true);
        }
        over_files(verb, case)
    }
}

/// Answers a case over the files that it begins with, and tells which of them are changed.
fn over_files(verb: &str, case: &mut Case<'_>) -> Result<bool, CaseFault> {
    let files = files_of(case)?;
    let mut store = QuietStore::new(case.alloc, &files)?;
    if !over_store(verb, case, &mut store)? {
        return Ok(false);
    }
    put_changes(case.alloc, &mut case.out, &files, store.content())?;
    Ok(true)
}

fn over_store(verb: &str, case: &mut Case<'_>, store: &mut QuietStore) -> Result<bool, CaseFault> {
    Ok(
        of_objects(verb, case, store)?
            || of_trees(verb, case, store)?
            || of_refs(verb, case, store)?
            || of_moves(verb, case, store)?
            || of_paths(verb, case, store)?,
    )
}

/// The crates objects and history.
fn of_objects(verb: &str, case: &mut Case<'_>, store: &mut QuietStore) -> Result<bool, CaseFault> {
    match verb {
        "get" => held_objects::got(case, store)?,
        "read-object" => held_objects::object(case, store)?,
        "read-commit" => held_objects::commit(case, store)?,
        "put" => held_objects::new_object(case, store)?,
        "write-object" => held_objects::written(case, store)?,
        "with-prefix" => held_objects::ids(case, store)?,
        "load" => histories::loaded(case, store)?,
        _ => return Ok(false),
    }
    Ok(true)
}

/// The crates path_trees and rev_names.
fn of_trees(verb: &str, case: &mut Case<'_>, store: &mut QuietStore) -> Result<bool, CaseFault> {
    match verb {
        "read-map" => trees::map(case, store)?,
        "read-tree-map" => trees::map_of_tree(case, store)?,
        "read-commit-map" => trees::map_of_commit(case, store)?,
        "write-map" => trees::root(case, store)?,
        "write-trees" => trees::root_of(case, store)?,
        "resolve-rev" => revs::commits(case, store)?,
        "resolve-label" => revs::labels(case, store)?,
        _ => return Ok(false),
    }
    Ok(true)
}

/// What the crate ref_store reads.
fn of_refs(verb: &str, case: &mut Case<'_>, store: &mut QuietStore) -> Result<bool, CaseFault> {
    match verb {
        "head" => refs::head_of(case, store)?,
        "packed-refs" => refs::packed(case, store)?,
        "list" => refs::listed(case, store)?,
        "resolve" => refs::value(case, store)?,
        "log" => refs::lines(case, store)?,
        _ => return Ok(false),
    }
    Ok(true)
}

/// What the crate ref_store writes.
fn of_moves(verb: &str, case: &mut Case<'_>, store: &mut QuietStore) -> Result<bool, CaseFault> {
    match verb {
        "update" => refs::updated(case, store)?,
        "update-with-log" => refs::updated_with_log(case, store)?,
        "delete" => refs::deleted(case, store)?,
        "set-head" => refs::head_set(case, store)?,
        "move-branch" => refs::branch_moved(case, store)?,
        "move-head" => refs::head_moved(case, store)?,
        _ => return Ok(false),
    }
    Ok(true)
}

/// The crate worktree.
fn of_paths(verb: &str, case: &mut Case<'_>, store: &mut QuietStore) -> Result<bool, CaseFault> {
    match verb {
        "first-change" => paths::changed(case, store)?,
        "obstructed-path" => paths::obstructed(case, store)?,
        "clear-writes" => paths::writes(case, store)?,
        "switch" => paths::switched(case, store)?,
        "switch-clear" => paths::switched_clear(case, store)?,
        "reset-hard" => paths::reset(case, store)?,
        "write-conflict" => paths::conflict(case, store)?,
        _ => return Ok(false),
    }
    Ok(true)
}
