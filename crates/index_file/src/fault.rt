//! Why bytes are no index.

use std::alloc::{AllocError, AllocFailed};
use thiserror::Error;

/// What is wrong with the bytes of an index: the first fault from the left. Entries are numbered from 1.
#[derive(Clone, Copy, Debug, PartialEq, Eq, Drop, Error)]
pub enum IndexFault {
    /// The bytes do not begin with `DIRC`.
    #[error("no index begins so")]
    Magic,
    /// The version is not 2.
    #[error("the index has version {n}, and not 2")]
    Version { n: u64 },
    /// The bytes end before the version, the count, an entry, an extension or the trailer is whole.
    #[error("the index is cut short")]
    Count,
    /// The mode, the extended flag, the length of the name, the path or the padding of an entry is not as it should be.
    #[error("entry {n} of the index is bad")]
    Name { n: u64 },
    /// An entry does not come after the one before, its path is there at stage 0 already, or it has stage 0 and lies below
    /// an earlier path of stage 0.
    #[error("entry {n} of the index may not stand there")]
    Order { n: u64 },
    /// An extension that has to be understood: its tag does not begin with a capital letter.
    #[error("the index has the extension {tag:?}, which is not known")]
    Extension { tag: [u8; 4] },
    /// The trailer is neither the SHA-1 of all before it nor zero.
    #[error("the index has another SHA-1 than its trailer says")]
    Hash,
    #[error("out of memory")]
    Memory,
}

impl From<AllocError> for IndexFault {
    ghost use Rattle.std.specs.Prelude.{◌≡◌};
    ghost use Rattle.index_file.specs.declared.fault.IndexFault.TheVariants.{Memory};

    ghost from_gives = { λ _ e. e ≡ Memory };

    fn from(_e: AllocError) -> IndexFault {
        IndexFault::Memory
    }
}

impl<T: Drop> From<AllocFailed<T>> for IndexFault {
    ghost use Rattle.std.specs.Prelude.{◌≡◌};
    ghost use Rattle.index_file.specs.declared.fault.IndexFault.TheVariants.{Memory};

    ghost from_gives = { λ _ e. e ≡ Memory };

    fn from(_e: AllocFailed<T>) -> IndexFault {
        IndexFault::Memory
    }
}
