//! Cases of `ref_text`.

use crate::failure::{Failure, value};
use cases::{Answer, Case, CaseFault, log_line_behind, put_head, put_log_line};
use ref_text::{
    Head, HeadFault, LineFault, head_text, log_text, packed_text, parse_head, parse_log,
    parse_loose, parse_packed,
};
use seq_base::is_ref_name;
use std::alloc::AllocError;

impl Failure for HeadFault {
    fn tell(self, out: &mut Answer) -> Result<(), AllocError> {
        match self {
            HeadFault::Bad => out.word(b"bad"),
            HeadFault::Memory => Err(AllocError),
        }
    }
}

impl Failure for LineFault {
    fn tell(self, out: &mut Answer) -> Result<(), AllocError> {
        match self {
            LineFault::Bad { line } => out.counted(b"bad-line", line),
            LineFault::Memory => Err(AllocError),
        }
    }
}

/// TEXT: `branch` and its name, or `detached` and an id.
pub fn head(case: &mut Case<'_>) -> Result<(), CaseFault> {
    let parsed = parse_head(case.alloc, case.fields.bytes()?);
    let head = value(parsed, &mut case.out)?;
    put_head(&mut case.out, &head)?;
    Ok(())
}

/// TEXT: the same of a loose ref.
pub fn loose(case: &mut Case<'_>) -> Result<(), CaseFault> {
    let parsed = parse_loose(case.alloc, case.fields.bytes()?);
    let head = value(parsed, &mut case.out)?;
    put_head(&mut case.out, &head)?;
    Ok(())
}

/// NAME: the text of a HEAD on this branch.
pub fn head_on(case: &mut Case<'_>) -> Result<(), CaseFault> {
    let name = case.fields.owned()?;
    if !is_ref_name(name.as_slice()) {
        return Err(CaseFault::Value);
    }
    case.out
        .bytes(&head_text(case.alloc, &Head::Branch(name))?)?;
    Ok(())
}

/// ID: the text of a HEAD at this commit.
pub fn head_at(case: &mut Case<'_>) -> Result<(), CaseFault> {
    let id = case.fields.id()?;
    case.out
        .bytes(&head_text(case.alloc, &Head::Detached(id))?)?;
    Ok(())
}

/// TEXT: the names and ids.
pub fn packed(case: &mut Case<'_>) -> Result<(), CaseFault> {
    let parsed = parse_packed(case.alloc, case.fields.bytes()?);
    let refs = value(parsed, &mut case.out)?;
    case.out.counted(b"refs", refs.len() as u64)?;
    for (name, id) in refs.iter() {
        case.out.bytes(name.as_slice())?;
        case.out.id(*id)?;
    }
    Ok(())
}

/// TEXT: what is written of its refs.
pub fn packed_again(case: &mut Case<'_>) -> Result<(), CaseFault> {
    let parsed = parse_packed(case.alloc, case.fields.bytes()?);
    let refs = value(parsed, &mut case.out)?;
    case.out.bytes(&packed_text(case.alloc, &refs)?)?;
    Ok(())
}

/// TEXT: old value, new value, ident and message of each line.
pub fn log(case: &mut Case<'_>) -> Result<(), CaseFault> {
    let parsed = parse_log(case.alloc, case.fields.bytes()?);
    let lines = value(parsed, &mut case.out)?;
    case.out.counted(b"lines", lines.len() as u64)?;
    for line in lines.iter() {
        put_log_line(&mut case.out, line)?;
    }
    Ok(())
}

/// NEW IDENT MESSAGE: the first line of a log.
pub fn first_log_line(case: &mut Case<'_>) -> Result<(), CaseFault> {
    let line = log_line_behind(case, None)?;
    case.out.bytes(&log_text(case.alloc, &line)?)?;
    Ok(())
}
