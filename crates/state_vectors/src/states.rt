//! Cases of `state_text`.

use crate::controls::control;
use crate::words;
use cases::{Case, CaseFault, put_writes};
use seq_base::Bytes;
use state_text::{
    StateFile, end_writes, file_name, file_text, files_of, in_step_path, state_files, state_path,
    stop_writes,
};

/// VERB: where `in-step` stands, and the names and places of its files, in the order in which they are looked at.
pub fn places(case: &mut Case<'_>) -> Result<(), CaseFault> {
    let verb = words::verb(case.fields.word()?)?;
    case.out.named(b"in-step", in_step_path(verb))?;
    for file in files_of(verb) {
        case.out.bytes(file_name(*file))?;
        case.out.bytes(state_path(verb, *file))?;
    }
    Ok(())
}

/// A stopped list: its files.
pub fn files(case: &mut Case<'_>) -> Result<(), CaseFault> {
    let control = control(case)?;
    let files = state_files(case.alloc, &control)?;
    case.out.counted(b"files", files.len() as u64)?;
    for (path, text) in files.iter() {
        case.out.bytes(path.as_slice())?;
        case.out.bytes(text.as_slice())?;
    }
    Ok(())
}

fn file_of(files: &[StateFile], name: &[u8]) -> Result<StateFile, CaseFault> {
    for file in files {
        if file_name(*file) == name {
            return Ok(*file);
        }
    }
    Err(CaseFault::Form)
}

/// NAME and a stopped list: what it has in the file of this name, or `none`.
pub fn file(case: &mut Case<'_>) -> Result<(), CaseFault> {
    let name = case.fields.bytes()?;
    let control = control(case)?;
    let file = file_of(files_of(control.verb), name)?;
    match file_text(case.alloc, file, &control)? {
        Some(text) => Ok(case.out.bytes(text.as_slice())?),
        None => Ok(case.out.word(b"none")?),
    }
}

/// The paths that are left.
fn found(case: &mut Case<'_>) -> Result<Vec<Bytes>, CaseFault> {
    let mut found = Vec::new(case.alloc);
    for _ in 0..case.fields.len() {
        found.push(case.fields.owned()?)?;
    }
    Ok(found)
}

/// VERB COUNT, as many files, each a path and its text, and the paths of the files that were found: the writes of a stop.
pub fn stop(case: &mut Case<'_>) -> Result<(), CaseFault> {
    let verb = words::verb(case.fields.word()?)?;
    let count = case.fields.number()?;
    let mut files = Vec::new(case.alloc);
    for _ in 0..count {
        let path = case.fields.owned()?;
        let text = case.fields.owned()?;
        files.push((path, text))?;
    }
    let found = found(case)?;
    let writes = stop_writes(case.alloc, verb, &files, &found)?;
    Ok(put_writes(&mut case.out, &writes)?)
}

/// VERB, and the paths of the files that were found: the writes of an end.
pub fn end(case: &mut Case<'_>) -> Result<(), CaseFault> {
    let verb = words::verb(case.fields.word()?)?;
    let found = found(case)?;
    let writes = end_writes(case.alloc, verb, &found)?;
    Ok(put_writes(&mut case.out, &writes)?)
}
