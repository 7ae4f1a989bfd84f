//! Whether there is a repository.

ghost use Rattle.seq_model.specs.Checks.{is_repository};
ghost use Rattle.seq_outside.specs.Halts.{Gives, halt_cause};
ghost use Rattle.seq_outside.specs.Seen.{Reads};

use seq_model::{Denial, Refusal, refused};
use seq_outside::{Halt, Store};
use std::alloc::Global;

/// NotARepository where there is no `.git/HEAD` (gitrepository-layout(5)).
#[tactic(auto, unfolding(seq_model::specs::Checks::is_repository))]
pub fn want_repository<S: Store>(alloc: Global, store: &mut S) -> Result<(), Halt<Denial>>
    ensures gives { S.told → Gives (λ x. x) result (is_repository (S.seen store.old).content) }
    ensures reads { Reads S.told halt_cause result (S.seen store.old) (S.seen store.new) }
{
    match store.get(alloc, b".git/HEAD")? {
        Some(_) => Ok(()),
        None => Err(refused(Refusal::NotARepository)),
    }
}
