//! A file that is put, as a step.

ghost use Rattle.std.specs.Prelude.{◌≡◌};
ghost use Rattle.seq_base.specs.StorePaths.{IsStorePath};
ghost use Rattle.seq_outside.specs.Halts.{halt_cause};
ghost use Rattle.seq_outside.specs.Seen.{Writes};
ghost use Rattle.seq_outside.specs.Store.{StaysElsewhere};
ghost use Rattle.seq_outside.specs.Turns.{Turns, put_in};
ghost use Rattle.seq_outside.specs.Writes.{StepLeaves};
ghost use Rattle.seq_outside.specs.declared.write.Write.TheVariants.{Put};

use crate::halt::Halt;
use crate::lack::Lack;
use crate::store::{Store, StoreError};
use seq_base::Bytes;
use std::alloc::Global;

/// Puts a file. Where the put is blocked, its path is what is lacked.
#[tactic(auto, unfolding(crate::specs::Turns::put_in))]
pub fn put_file<S: Store>(
    alloc: Global,
    store: &mut S,
    path: Bytes,
    bytes: &[u8],
) -> Result<(), Halt<Lack>>
    requires { IsStorePath path }
    ensures turns { S.told → Turns (λ x. x) result (put_in path bytes.now (S.seen store.old).content) (S.seen store.new).content }
    ensures leaves { S.told → StepLeaves result (S.seen store.old).content (Put path bytes.now) (S.seen store.new).content }
    ensures elsewhere { S.told → StaysElsewhere path (S.seen store.old).content (S.seen store.new).content }
    ensures writes { Writes S.told halt_cause result (S.seen store.old) (S.seen store.new) }
{
    match store.put(alloc, path.as_slice(), bytes) {
        Ok(()) => Ok(()),
        Err(StoreError::Failed) => Err(Halt::Fault),
        Err(StoreError::Blocked) => Err(Halt::Stops(Lack::Way { path })),
        Err(StoreError::Memory) => Err(Halt::Memory),
    }
}
