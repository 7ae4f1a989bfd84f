//! How a call of a crate fails, in an answer.

ghost use Rattle.std.specs.Prelude.{◌≡◌, IfOk};

use cases::{Answer, CaseFault};
use std::alloc::AllocError;

/// What a call answers in place of its value.
pub trait Failure {
    /// Its words. Want of memory has none.
    fn tell(self, out: &mut Answer) -> Result<(), AllocError>;
}

/// The value of a call. Where it failed the answer tells how, and the case ends there.
pub fn value<T, F: Failure>(read: Result<T, F>, out: &mut Answer) -> Result<T, CaseFault>
    ensures { IfOk result (λ value. read ≡ Ok value) }
{
    match read {
        Ok(value) => Ok(value),
        Err(failure) => {
            failure.tell(out)?;
            Err(CaseFault::Told)
        }
    }
}
