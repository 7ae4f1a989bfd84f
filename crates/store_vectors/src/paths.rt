//! Cases of the crate `worktree`. An index is written as its hex digits.

ghost use Rattle.std.specs.Prelude.{◌<◌, ◌^◌, IfOk, length};

use crate::faults::lack_halt;
use cases::{Answer, Case, CaseFault, index_of, map_of, put_writes};
use seq_base::{Path, PathMap};
use seq_memory::QuietStore;
use seq_outside::{Halt, Lack, StoreError};
use worktree::{
    ConflictFile, clear_writes, first_change, obstructed_path, reset_hard, switch, switch_clear,
    write_conflict,
};

fn put_path(out: &mut Answer, found: Result<Option<Path>, StoreError>) -> Result<(), CaseFault> {
    match found {
        Ok(Some(path)) => Ok(out.bytes(path.bytes())?),
        Ok(None) => Ok(out.word(b"none")?),
        Err(StoreError::Memory) => Err(CaseFault::Memory),
        Err(_) => Ok(out.word(b"fault")?),
    }
}

/// INDEX: the least path that is changed, or `none`.
pub fn changed(case: &mut Case<'_>, store: &mut QuietStore) -> Result<(), CaseFault> {
    let index = index_of(case)?;
    let found = first_change(case.alloc, store, &index);
    put_path(&mut case.out, found)
}

/// The entries that are left, each a path, a mode and an id.
fn given_map(case: &mut Case<'_>) -> Result<PathMap, CaseFault>
    ensures { IfOk result (λ map. length map < 2 ^ 32) }
{
    let count = case.fields.len() / 3;
    let map = map_of(case, count)?;
    if map.len() > 0xffff_ffff {
        return Err(CaseFault::Value);
    }
    Ok(map)
}

/// INDEX, and entries: the least path in whose way an untracked file is, or `none`.
pub fn obstructed(case: &mut Case<'_>, store: &mut QuietStore) -> Result<(), CaseFault> {
    let from = index_of(case)?;
    let to = given_map(case)?;
    let found = obstructed_path(case.alloc, store, &from, &to);
    put_path(&mut case.out, found)
}

/// INDEX, and entries: the writes of a switch, in their order.
pub fn writes(case: &mut Case<'_>, store: &mut QuietStore) -> Result<(), CaseFault> {
    let from = index_of(case)?;
    let to = given_map(case)?;
    match clear_writes(case.alloc, store, &from, &to) {
        Ok(writes) => Ok(put_writes(&mut case.out, &writes)?),
        Err(halt) => lack_halt(&mut case.out, &halt),
    }
}

fn put_done(out: &mut Answer, done: Result<(), Halt<Lack>>) -> Result<(), CaseFault> {
    match done {
        Ok(()) => Ok(out.word(b"ok")?),
        Err(halt) => lack_halt(out, &halt),
    }
}

/// INDEX, and entries.
pub fn switched(case: &mut Case<'_>, store: &mut QuietStore) -> Result<(), CaseFault> {
    let from = index_of(case)?;
    let to = given_map(case)?;
    let done = switch(case.alloc, store, &from, &to);
    put_done(&mut case.out, done)
}

/// INDEX, and entries: nothing untracked is looked for.
pub fn switched_clear(case: &mut Case<'_>, store: &mut QuietStore) -> Result<(), CaseFault> {
    let from = index_of(case)?;
    let to = given_map(case)?;
    let done = switch_clear(case.alloc, store, &from, &to);
    put_done(&mut case.out, done)
}

/// INDEX, and entries.
pub fn reset(case: &mut Case<'_>, store: &mut QuietStore) -> Result<(), CaseFault> {
    let from = index_of(case)?;
    let to = given_map(case)?;
    let done = reset_hard(case.alloc, store, &from, &to);
    put_done(&mut case.out, done)
}

/// `blob`, a mode and an id, or `bytes` and a text.
fn conflict_file(case: &mut Case<'_>) -> Result<ConflictFile, CaseFault> {
    if case.fields.word()? == "blob" {
        return Ok(ConflictFile::Blob(case.fields.entry()?));
    }
    Ok(ConflictFile::Bytes(case.fields.owned()?))
}

/// INDEX, the INDEX of the conflict, COUNT, and as many files, each a path and what is written to it.
pub fn conflict(case: &mut Case<'_>, store: &mut QuietStore) -> Result<(), CaseFault> {
    let from = index_of(case)?;
    let index = index_of(case)?;
    let count = case.fields.number()?;
    let mut files = Vec::new(case.alloc);
    for _ in 0..count {
        let path = case.fields.path()?;
        let file = conflict_file(case)?;
        files.push((path, file))?;
    }
    let done = write_conflict(case.alloc, store, &from, &index, &files);
    put_done(&mut case.out, done)
}
