//! Why an invocation is denied what it asks for.

ghost use Rattle.std.specs.Prelude.{◌≡◌};

use crate::refusal::Refusal;
use seq_outside::{Halt, LimitWhat};

/// Why an invocation is denied what it asks for. The repository is then as it was.
#[derive(Drop)]
pub enum Denial {
    Refused(Refusal),
    /// A quantity passes its limit.
    Limit { what: LimitWhat, number: u64 },
}

/// The halt of a refusal.
pub fn refused(refusal: Refusal) -> Halt<Denial>
    ensures { result ≡ Halt.Stops (Denial.Refused refusal) }
{
    Halt::Stops(Denial::Refused(refusal))
}
