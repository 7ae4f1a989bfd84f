//! Indexes, in cases.

ghost use Rattle.index_file.specs.Entries.{IsIndex};
ghost use Rattle.std.specs.Prelude.{IfOk};

use crate::case::Case;
use crate::fault::CaseFault;
use index_file::{IndexEntry, IndexFault, parse_index};

/// An index, which is written as its hex digits.
pub fn index_of(case: &mut Case<'_>) -> Result<Vec<IndexEntry>, CaseFault>
    ensures { IfOk result (λ entries. IsIndex entries.items) }
{
    match parse_index(case.alloc, &case.fields.hex()?) {
        Ok(entries) => Ok(entries),
        Err(IndexFault::Memory) => Err(CaseFault::Memory),
        Err(_) => Err(CaseFault::Value),
    }
}
