//! Why an index has no map.

use seq_base::Path;
use std::alloc::{AllocError, AllocFailed};
use thiserror::Error;

/// Why entries are no map: the first of them that is at fault.
#[derive(Debug, Drop, Error)]
pub enum StageFault {
    /// The path has an entry at another stage than 0.
    #[error("a path is unmerged")]
    Unmerged { path: Path },
    /// The path would be a folder of an earlier one, or lies below it.
    #[error("one path would be a folder of another")]
    Clash { path: Path },
    #[error("out of memory")]
    Memory,
}

impl From<AllocError> for StageFault {
    ghost use Rattle.std.specs.Prelude.{◌≡◌};
    ghost use Rattle.stage_index.specs.declared.fault.StageFault.TheVariants.{Memory};

    ghost from_gives = { λ _ e. e ≡ Memory };

    fn from(_e: AllocError) -> StageFault {
        StageFault::Memory
    }
}

impl<T: Drop> From<AllocFailed<T>> for StageFault {
    ghost use Rattle.std.specs.Prelude.{◌≡◌};
    ghost use Rattle.stage_index.specs.declared.fault.StageFault.TheVariants.{Memory};

    ghost from_gives = { λ _ e. e ≡ Memory };

    fn from(_e: AllocFailed<T>) -> StageFault {
        StageFault::Memory
    }
}
