//! Cases of the crates `rev_text` and `rev_names`.

use crate::faults::rev_halt;
use cases::{Answer, Case, CaseFault};
use rev_names::{RevFault, resolve_label, resolve_rev};
use rev_text::{Rev, RevTextFault, Step, parse_rev};
use seq_base::Id;
use seq_memory::QuietStore;
use seq_outside::Halt;
use std::alloc::AllocError;

fn put_rev(out: &mut Answer, rev: &Rev) -> Result<(), AllocError> {
    out.named(b"base", rev.base.as_slice())?;
    if let Some(entry) = rev.entry {
        out.counted(b"entry", entry)?;
    }
    for step in rev.steps.iter() {
        match step {
            Step::Parent { number } => out.counted(b"parent", *number)?,
            Step::Ancestor { number } => out.counted(b"ancestor", *number)?,
        }
    }
    Ok(())
}

/// WORD: what it says.
pub fn parts(case: &mut Case<'_>) -> Result<(), CaseFault> {
    match parse_rev(case.alloc, case.fields.bytes()?) {
        Ok(rev) => Ok(put_rev(&mut case.out, &rev)?),
        Err(RevTextFault::Form) => Ok(case.out.word(b"form")?),
        Err(RevTextFault::Memory) => Err(CaseFault::Memory),
    }
}

fn put_id(out: &mut Answer, found: Result<Id, Halt<RevFault>>) -> Result<(), CaseFault> {
    match found {
        Ok(id) => Ok(out.id(id)?),
        Err(halt) => rev_halt(out, &halt),
    }
}

/// Words: the commit of each.
pub fn commits(case: &mut Case<'_>, store: &mut QuietStore) -> Result<(), CaseFault> {
    for _ in 0..case.fields.len() {
        let found = resolve_rev(case.alloc, store, case.fields.bytes()?);
        put_id(&mut case.out, found)?;
    }
    Ok(())
}

/// Words that may be labels: the commit of each.
pub fn labels(case: &mut Case<'_>, store: &mut QuietStore) -> Result<(), CaseFault> {
    for _ in 0..case.fields.len() {
        let found = resolve_label(case.alloc, store, case.fields.bytes()?);
        put_id(&mut case.out, found)?;
    }
    Ok(())
}
