//! Cases of the crate `objects`.

use crate::faults::{lack_halt, object_fault};
use cases::{Answer, Case, CaseFault, kind_of, kind_word, put_commit};
use object_text::Object;
use objects::{get, is_prefix, put, read_commit, read_object, with_prefix, write_object};
use seq_memory::QuietStore;
use std::alloc::AllocError;

fn put_object(out: &mut Answer, object: &Object) -> Result<(), AllocError> {
    out.word(kind_word(object.kind))?;
    out.bytes(object.bytes.as_slice())
}

/// ID: the object's kind and content.
pub fn got(case: &mut Case<'_>, store: &mut QuietStore) -> Result<(), CaseFault> {
    let id = case.fields.id()?;
    match get(case.alloc, store, id) {
        Ok(object) => Ok(put_object(&mut case.out, &object)?),
        Err(fault) => object_fault(&mut case.out, &fault),
    }
}

/// The same, and of what lacks.
pub fn object(case: &mut Case<'_>, store: &mut QuietStore) -> Result<(), CaseFault> {
    let id = case.fields.id()?;
    match read_object(case.alloc, store, id) {
        Ok(object) => Ok(put_object(&mut case.out, &object)?),
        Err(halt) => lack_halt(&mut case.out, &halt),
    }
}

/// ID: the commit's fields.
pub fn commit(case: &mut Case<'_>, store: &mut QuietStore) -> Result<(), CaseFault> {
    let id = case.fields.id()?;
    match read_commit(case.alloc, store, id) {
        Ok(commit) => Ok(put_commit(&mut case.out, &commit)?),
        Err(halt) => lack_halt(&mut case.out, &halt),
    }
}

/// KIND CONTENT: the id.
pub fn new_object(case: &mut Case<'_>, store: &mut QuietStore) -> Result<(), CaseFault> {
    let kind = kind_of(case.fields.word()?)?;
    let content = case.fields.bytes()?;
    match put(case.alloc, store, kind, content) {
        Ok(id) => Ok(case.out.id(id)?),
        Err(fault) => object_fault(&mut case.out, &fault),
    }
}

/// The same, and of what lacks.
pub fn written(case: &mut Case<'_>, store: &mut QuietStore) -> Result<(), CaseFault> {
    let kind = kind_of(case.fields.word()?)?;
    let content = case.fields.bytes()?;
    match write_object(case.alloc, store, kind, content) {
        Ok(id) => Ok(case.out.id(id)?),
        Err(halt) => lack_halt(&mut case.out, &halt),
    }
}

/// DIGITS: the ids that begin so.
pub fn ids(case: &mut Case<'_>, store: &mut QuietStore) -> Result<(), CaseFault> {
    let digits = case.fields.bytes()?;
    if !is_prefix(digits) {
        return Ok(case.out.word(b"no-prefix")?);
    }
    match with_prefix(case.alloc, store, digits) {
        Ok(ids) => {
            case.out.word(b"ids")?;
            for id in ids.iter() {
                case.out.id(*id)?;
            }
            Ok(())
        }
        Err(fault) => object_fault(&mut case.out, &fault),
    }
}
