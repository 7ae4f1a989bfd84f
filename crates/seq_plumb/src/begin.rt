//! What the commands begin with.

ghost use Rattle.std.specs.Prelude.{IfOk};
ghost use Rattle.index_file.specs.Entries.{IsIndex};
ghost use Rattle.seq_outside.specs.Halts.{Gives, halt_cause};
ghost use Rattle.seq_outside.specs.Seen.{Reads};
ghost use Rattle.seq_plumb.specs.Begun.{begun};
ghost use Rattle.start_checks.specs.Basis.{basis_is};

use seq_model::Denial;
use seq_outside::{Halt, Store};
use start_checks::{Basis, read_basis, want_repository};
use std::alloc::Global;

/// What the commands stand on, in a repository.
#[tactic(auto, unfolding(crate::specs::Begun::begun))]
pub fn begin<S: Store>(alloc: Global, store: &mut S) -> Result<Basis, Halt<Denial>>
    ensures gives { S.told → Gives basis_is result (begun (S.seen store.old).content) }
    ensures index { IfOk result (λ basis. IsIndex basis.index.items) }
    ensures reads { Reads S.told halt_cause result (S.seen store.old) (S.seen store.new) }
{
    want_repository(alloc, store)?;
    read_basis(alloc, store)
}
