//! Why bytes are no object, tree or commit.

ghost use Rattle.std.specs.Prelude.{◌≡◌};
ghost use Rattle.object_text.specs.declared.fault.TextFault.TheVariants.{Memory};

use std::alloc::{AllocError, AllocFailed};
use thiserror::Error;

/// Why bytes were not read.
#[derive(Clone, Copy, Debug, PartialEq, Eq, Drop, Error)]
pub enum TextFault {
    /// The first byte with which no text of the format goes on, or the length of the bytes where they end too early.
    #[error("byte {at} may not stand there")]
    Bad { at: u64 },
    /// The text is a commit's, and that has more than 16 parents.
    #[error("a commit has at most 16 parents, and this has {count}")]
    Parents { count: u64 },
    #[error("out of memory")]
    Memory,
}

impl From<AllocError> for TextFault {
    ghost from_gives = { λ _ e. e ≡ Memory };

    fn from(_e: AllocError) -> TextFault {
        TextFault::Memory
    }
}

impl<T: Drop> From<AllocFailed<T>> for TextFault {
    ghost from_gives = { λ _ e. e ≡ Memory };

    fn from(_e: AllocFailed<T>) -> TextFault {
        TextFault::Memory
    }
}
