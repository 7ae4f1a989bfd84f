//! Cases of `index_file`. An index is written as its hex digits.

use crate::failure::{Failure, value};
use cases::{Answer, Case, CaseFault};
use index_file::{IndexFault, index_text, parse_index};
use std::alloc::AllocError;

impl Failure for IndexFault {
    fn tell(self, out: &mut Answer) -> Result<(), AllocError> {
        match self {
            IndexFault::Magic => out.word(b"magic"),
            IndexFault::Version { n } => out.counted(b"version", n),
            IndexFault::Count => out.word(b"count"),
            IndexFault::Name { n } => out.counted(b"name", n),
            IndexFault::Order { n } => out.counted(b"order", n),
            IndexFault::Extension { tag } => out.named(b"extension", tag.as_slice()),
            IndexFault::Hash => out.word(b"hash"),
            IndexFault::Memory => Err(AllocError),
        }
    }
}

/// INDEX: path, stage, mode and id of each entry.
pub fn index(case: &mut Case<'_>) -> Result<(), CaseFault> {
    let parsed = parse_index(case.alloc, &case.fields.hex()?);
    let entries = value(parsed, &mut case.out)?;
    case.out.counted(b"entries", entries.len() as u64)?;
    for entry in entries.iter() {
        case.out.bytes(entry.path.bytes())?;
        case.out.number(u64::from(entry.stage))?;
        case.out.mode(entry.mode)?;
        case.out.id(entry.id)?;
    }
    Ok(())
}

/// INDEX: what is written of its entries.
pub fn index_again(case: &mut Case<'_>) -> Result<(), CaseFault> {
    let parsed = parse_index(case.alloc, &case.fields.hex()?);
    let entries = value(parsed, &mut case.out)?;
    case.out.hex(&index_text(case.alloc, &entries)?)?;
    Ok(())
}
