//! How a driver ended, and why drivers gave no ends.

use seq_base::Bytes;
use seq_outside::{Exit, StoreError};
use std::alloc::AllocError;
use thiserror::Error;

/// How a driver ended (gitattributes(5), "Defining a custom merge driver").
#[derive(Debug, PartialEq, Eq, Drop)]
pub enum DriverEnd {
    /// With status 0: the merged text.
    Clean(Bytes),
    /// With a status of 1 to 127: a text that shows conflicts.
    Conflict(Bytes),
    /// With a greater status or by a signal, or its file is gone.
    Broken(Exit),
}

/// Why drivers gave no ends.
#[derive(Clone, Copy, Debug, PartialEq, Eq, Drop, Error)]
pub enum PoolFault {
    #[error("the store failed")]
    Fault,
    /// Something stands in the way of a job's file: a file in the place of one of its folders, or a file below it.
    #[error("a file stands in a folder's place, or a folder in a file's")]
    Blocked,
    #[error("a child could not be run")]
    Child,
    #[error("out of memory")]
    Memory,
}

impl From<StoreError> for PoolFault {
    ghost use Rattle.std.specs.Prelude.{◌≡◌};
    ghost use Rattle.driver_pool.specs.Pools.{fault_of};

    ghost from_gives = { λ error fault. fault ≡ fault_of error };

    fn from(error: StoreError) -> PoolFault {
        match error {
            StoreError::Failed => PoolFault::Fault,
            StoreError::Blocked => PoolFault::Blocked,
            StoreError::Memory => PoolFault::Memory,
        }
    }
}

impl From<AllocError> for PoolFault {
    ghost use Rattle.std.specs.Prelude.{◌≡◌};
    ghost use Rattle.driver_pool.specs.declared.end.PoolFault.TheVariants.{Memory};

    ghost from_gives = { λ _ fault. fault ≡ Memory };

    fn from(_: AllocError) -> PoolFault {
        PoolFault::Memory
    }
}
