//! Cases of the crate `ref_store`.

ghost use Rattle.ref_text.specs.Heads.{IsHeadValue};
ghost use Rattle.seq_base.specs.RefNames.{IsRefName};
ghost use Rattle.std.specs.Prelude.{IfOk};

use crate::faults::{lack_halt, ref_halt};
use cases::{Answer, Case, CaseFault, log_line_of, put_head, put_log_line};
use ref_store::{
    RefFault, delete, head, list, log, move_branch, move_head, packed_refs, resolve, set_head,
    update,
};
use ref_text::Head;
use seq_base::{Bytes, Id, is_ref_name, is_store_path};
use seq_memory::QuietStore;
use seq_outside::{Halt, Lack};
use std::alloc::AllocError;

fn ref_name<'a>(case: &mut Case<'a>) -> Result<&'a [u8], CaseFault>
    ensures { IfOk result (λ name. IsRefName name.now) }
{
    let name = case.fields.bytes()?;
    if !is_ref_name(name) {
        return Err(CaseFault::Value);
    }
    Ok(name)
}

/// `branch` and its name, or `detached` and an id.
fn given_head(case: &mut Case<'_>) -> Result<Head, CaseFault>
    ensures { IfOk result (λ head. IsHeadValue head) }
{
    if case.fields.word()? == "detached" {
        return Ok(Head::Detached(case.fields.id()?));
    }
    let name = ref_name(case)?;
    Ok(Head::Branch(Bytes::from_vec(Vec::from_slice(case.alloc, name)?)))
}

fn put_refs(out: &mut Answer, refs: &[(Bytes, Id)]) -> Result<(), AllocError> {
    out.counted(b"refs", refs.len() as u64)?;
    for (name, id) in refs {
        out.bytes(name.as_slice())?;
        out.id(*id)?;
    }
    Ok(())
}

/// HEAD: `branch` and its name, or `detached` and an id.
pub fn head_of(case: &mut Case<'_>, store: &mut QuietStore) -> Result<(), CaseFault> {
    match head(case.alloc, store) {
        Ok(head) => Ok(put_head(&mut case.out, &head)?),
        Err(halt) => ref_halt(&mut case.out, &halt),
    }
}

/// The packed refs: names and ids.
pub fn packed(case: &mut Case<'_>, store: &mut QuietStore) -> Result<(), CaseFault> {
    match packed_refs(case.alloc, store) {
        Ok(refs) => Ok(put_refs(&mut case.out, &refs)?),
        Err(halt) => ref_halt(&mut case.out, &halt),
    }
}

/// FOLDER: the refs below it, names and ids.
pub fn listed(case: &mut Case<'_>, store: &mut QuietStore) -> Result<(), CaseFault> {
    let folder = case.fields.bytes()?;
    let mut path = Vec::from_slice(case.alloc, b".git/")?;
    path.extend_from_slice(folder)?;
    if !is_store_path(&path) {
        return Err(CaseFault::Value);
    }
    match list(case.alloc, store, folder) {
        Ok(refs) => Ok(put_refs(&mut case.out, &refs)?),
        Err(halt) => ref_halt(&mut case.out, &halt),
    }
}

/// NAME: its value, or `none`.
pub fn value(case: &mut Case<'_>, store: &mut QuietStore) -> Result<(), CaseFault> {
    let name = ref_name(case)?;
    match resolve(case.alloc, store, name) {
        Ok(id) => Ok(case.out.id_or_none(id)?),
        Err(halt) => ref_halt(&mut case.out, &halt),
    }
}

/// NAME: the lines of its log.
pub fn lines(case: &mut Case<'_>, store: &mut QuietStore) -> Result<(), CaseFault> {
    let name = ref_name(case)?;
    match log(case.alloc, store, name) {
        Ok(lines) => {
            case.out.counted(b"lines", lines.len() as u64)?;
            for line in lines.iter() {
                put_log_line(&mut case.out, line)?;
            }
            Ok(())
        }
        Err(halt) => ref_halt(&mut case.out, &halt),
    }
}

fn put_done(out: &mut Answer, done: Result<(), Halt<RefFault>>) -> Result<(), CaseFault> {
    match done {
        Ok(()) => Ok(out.word(b"ok")?),
        Err(halt) => ref_halt(out, &halt),
    }
}

/// NAME EXPECTED NEW, without a line of a log.
pub fn updated(case: &mut Case<'_>, store: &mut QuietStore) -> Result<(), CaseFault> {
    let name = ref_name(case)?;
    let expected = case.fields.id_or_none()?;
    let new = case.fields.id()?;
    let done = update(case.alloc, store, name, expected, new, None);
    put_done(&mut case.out, done)
}

/// NAME EXPECTED NEW, and a line of its log: OLD NEW IDENT MESSAGE.
pub fn updated_with_log(case: &mut Case<'_>, store: &mut QuietStore) -> Result<(), CaseFault> {
    let name = ref_name(case)?;
    let expected = case.fields.id_or_none()?;
    let new = case.fields.id()?;
    let line = log_line_of(case)?;
    let done = update(case.alloc, store, name, expected, new, Some(&line));
    put_done(&mut case.out, done)
}

/// NAME: whether it was there.
pub fn deleted(case: &mut Case<'_>, store: &mut QuietStore) -> Result<(), CaseFault> {
    let name = ref_name(case)?;
    match delete(case.alloc, store, name) {
        Ok(was_there) => Ok(case.out.yes_or_no(was_there)?),
        Err(halt) => ref_halt(&mut case.out, &halt),
    }
}

/// HEAD, and a line of its log.
pub fn head_set(case: &mut Case<'_>, store: &mut QuietStore) -> Result<(), CaseFault> {
    let head = given_head(case)?;
    let line = log_line_of(case)?;
    let done = set_head(case.alloc, store, &head, &line);
    put_done(&mut case.out, done)
}

fn put_moved(out: &mut Answer, moved: Result<(), Halt<Lack>>) -> Result<(), CaseFault> {
    match moved {
        Ok(()) => Ok(out.word(b"ok")?),
        Err(halt) => lack_halt(out, &halt),
    }
}

/// NAME ID, and a line of both logs.
pub fn branch_moved(case: &mut Case<'_>, store: &mut QuietStore) -> Result<(), CaseFault> {
    let name = ref_name(case)?;
    let id = case.fields.id()?;
    let line = log_line_of(case)?;
    let moved = move_branch(case.alloc, store, name, id, &line);
    put_moved(&mut case.out, moved)
}

/// HEAD ID, and a line of the logs.
pub fn head_moved(case: &mut Case<'_>, store: &mut QuietStore) -> Result<(), CaseFault> {
    let head = given_head(case)?;
    let id = case.fields.id()?;
    let line = log_line_of(case)?;
    let moved = move_head(case.alloc, store, &head, id, &line);
    put_moved(&mut case.out, moved)
}
