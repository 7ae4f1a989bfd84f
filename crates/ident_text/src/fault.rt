//! Why bytes are no ident.

ghost use Rattle.std.specs.Prelude.{◌≡◌};
ghost use Rattle.ident_text.specs.declared.fault.IdentFault.TheVariants.{Memory};

use std::alloc::{AllocError, AllocFailed};
use thiserror::Error;

/// Why bytes were not read.
#[derive(Clone, Copy, Debug, PartialEq, Eq, Drop, Error)]
pub enum IdentFault {
    /// The first byte with which no text of the format goes on, or the length of the bytes where they end too early.
    #[error("byte {at} may not stand there")]
    Bad { at: u64 },
    #[error("out of memory")]
    Memory,
}

impl From<AllocError> for IdentFault {
    ghost from_gives = { λ _ e. e ≡ Memory };

    fn from(_e: AllocError) -> IdentFault {
        IdentFault::Memory
    }
}

impl<T: Drop> From<AllocFailed<T>> for IdentFault {
    ghost from_gives = { λ _ e. e ≡ Memory };

    fn from(_e: AllocFailed<T>) -> IdentFault {
        IdentFault::Memory
    }
}
