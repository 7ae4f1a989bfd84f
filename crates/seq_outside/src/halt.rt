//! Why a step gives no value.

use crate::store::StoreError;
use std::alloc::{AllocError, AllocFailed};

/// Why a step gives no value. A fault of the store and want of memory are no values of the step.
#[derive(Drop)]
pub enum Halt<E> {
    /// It stops, for this reason.
    Stops(E),
    /// The store failed.
    Fault,
    Memory,
}

/// For calls of a store that no path blocks, such as a draft that is made: whoever puts a file tells a blocked put apart, as `put_file` does.
impl<E> From<StoreError> for Halt<E> {
    ghost use Rattle.std.specs.Prelude.{◌≡◌};
    ghost use Rattle.seq_outside.specs.Halts.{halt_of};

    ghost from_gives = { λ error halt. halt ≡ halt_of error };

    fn from(error: StoreError) -> Halt<E> {
        match error {
            StoreError::Failed => Halt::Fault,
            StoreError::Blocked => Halt::Fault,
            StoreError::Memory => Halt::Memory,
        }
    }
}

impl<E> From<AllocError> for Halt<E> {
    ghost use Rattle.std.specs.Prelude.{◌≡◌};
    ghost use Rattle.seq_outside.specs.declared.halt.Halt.TheVariants.{Memory};

    ghost from_gives = { λ _ halt. halt ≡ Memory };

    fn from(_: AllocError) -> Halt<E> {
        Halt::Memory
    }
}

impl<T: Drop, E> From<AllocFailed<T>> for Halt<E> {
    ghost use Rattle.std.specs.Prelude.{◌≡◌};
    ghost use Rattle.seq_outside.specs.declared.halt.Halt.TheVariants.{Memory};

    ghost from_gives = { λ _ halt. halt ≡ Memory };

    fn from(_: AllocFailed<T>) -> Halt<E> {
        Halt::Memory
    }
}
