//! What a command answers.

ghost use Rattle.std.specs.Prelude.{◌≡◌};
ghost use Rattle.seq_model.specs.Judged.{IsOwn, outcome_of as outcome_of_step};

use crate::denial::Denial;
use crate::outcome::Outcome;
use seq_base::{Bytes, Id};
use seq_outside::Halt;

/// What a command answers where nothing is refused: the commit that HEAD then names, and what it prints itself.
#[derive(Drop)]
pub struct Reply {
    pub head: Option<Id>,
    pub own: Bytes,
}

/// The outcome of a step. What it prints itself takes the place of what stands in `out`.
pub fn outcome_of(ended: Result<Reply, Halt<Denial>>, out: &mut Vec<u8>) -> Outcome
    ensures outcome { result ≡ outcome_of_step ended }
    ensures own { IsOwn ended out.new.items }
{
    match ended {
        Ok(reply) => {
            *out = reply.own.into_vec();
            Outcome::Done { head: reply.head }
        }
        Err(Halt::Stops(Denial::Refused(refusal))) => Outcome::Refused(refusal),
        Err(Halt::Stops(Denial::Limit { what, number })) => Outcome::Limit { what, number },
        Err(Halt::Fault) => Outcome::StoreFault,
        Err(Halt::Memory) => Outcome::Memory,
    }
}
