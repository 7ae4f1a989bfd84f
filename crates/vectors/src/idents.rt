//! Cases of `ident_text`.

use crate::failure::{Failure, value};
use cases::{Answer, Case, CaseFault};
use ident_text::{Ident, IdentFault, author_script, ident_text, parse_author_script, parse_ident};
use std::alloc::AllocError;

impl Failure for IdentFault {
    fn tell(self, out: &mut Answer) -> Result<(), AllocError> {
        match self {
            IdentFault::Bad { at } => out.counted(b"bad", at),
            IdentFault::Memory => Err(AllocError),
        }
    }
}

fn put_ident(out: &mut Answer, ident: &Ident) -> Result<(), AllocError> {
    out.bytes(ident.name.as_slice())?;
    out.bytes(ident.email.as_slice())?;
    out.signed(ident.secs)?;
    out.word(ident.zone.as_slice())
}

/// TEXT: name, email, seconds and zone, and what is written of them.
pub fn ident(case: &mut Case<'_>) -> Result<(), CaseFault> {
    let parsed = parse_ident(case.alloc, case.fields.bytes()?);
    let ident = value(parsed, &mut case.out)?;
    put_ident(&mut case.out, &ident)?;
    case.out.bytes(&ident_text(case.alloc, &ident)?)?;
    Ok(())
}

/// IDENT: its author's script.
pub fn script_of(case: &mut Case<'_>) -> Result<(), CaseFault> {
    let parsed = parse_ident(case.alloc, case.fields.bytes()?);
    let ident = value(parsed, &mut case.out)?;
    case.out.bytes(&author_script(case.alloc, &ident)?)?;
    Ok(())
}

/// SCRIPT: name, email, seconds and zone.
pub fn script(case: &mut Case<'_>) -> Result<(), CaseFault> {
    let parsed = parse_author_script(case.alloc, case.fields.bytes()?);
    let ident = value(parsed, &mut case.out)?;
    put_ident(&mut case.out, &ident)?;
    Ok(())
}
