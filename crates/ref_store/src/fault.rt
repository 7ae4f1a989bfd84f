//! Why a ref was not read or written.

use seq_base::{Bytes, Id};

/// Why a ref was not read or written.
#[derive(Drop)]
pub enum RefFault {
    /// The file of HEAD is missing, or is none.
    BadHead,
    /// The file of the name is none of a ref, or leads on where five files have led on before.
    BadRef { name: Bytes },
    /// The first line with which no packed refs go on, counted from 1, or the last one where they end too early.
    BadPacked { line: u64 },
    /// The same of a reflog.
    BadLog { line: u64 },
    /// The ref has another value than was expected.
    Moved { found: Option<Id> },
    /// A file stands in a folder's place, or a folder in a file's, where the ref or its log is to be kept.
    Blocked { name: Bytes },
}
