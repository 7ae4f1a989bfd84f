//! Files that a conflict leaves.

ghost use Rattle.std.specs.Prelude.{◌≡◌, IfOk};

use seq_base::{Bytes, Entry};
use std::alloc::AllocError;

/// What is written to a path that conflicts: the blob of an entry, or bytes, as a merge driver left them.
#[derive(Debug, Drop)]
pub enum ConflictFile {
    Blob(Entry),
    Bytes(Bytes),
}

impl ConflictFile {
    pub fn copy(&self) -> Result<ConflictFile, AllocError>
        ensures { IfOk result (λ copy. copy ≡ self.now) }
    {
        match self {
            ConflictFile::Blob(entry) => Ok(ConflictFile::Blob(*entry)),
            ConflictFile::Bytes(bytes) => Ok(ConflictFile::Bytes(bytes.clone()?)),
        }
    }
}
