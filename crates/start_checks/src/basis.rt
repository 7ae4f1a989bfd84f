//! What a command stands on.

ghost use Rattle.std.specs.Prelude.{IfOk};
ghost use Rattle.index_file.specs.Entries.{IsIndex};
ghost use Rattle.ref_text.specs.Heads.{IsHeadValue};
ghost use Rattle.seq_model.specs.Basis.{basis_at};
ghost use Rattle.seq_outside.specs.Halts.{Gives, halt_cause};
ghost use Rattle.seq_outside.specs.Seen.{Reads};
ghost use Rattle.start_checks.specs.Basis.{basis_is};

use crate::index::read_index;
use crate::place::place_in;
use crate::settings::taken_config;
use config_text::Config;
use index_file::IndexEntry;
use seq_model::{Denial, Place};
use seq_outside::{Halt, Store};
use std::alloc::Global;

/// What a command stands on: what HEAD is, the configuration, and the index.
#[derive(Drop)]
pub struct Basis {
    pub place: Place,
    pub config: Config,
    pub index: Vec<IndexEntry>,
}

/// `place_in`, then `taken_config`, then `read_index`.
#[tactic(auto, unfolding(seq_model::specs::Basis::basis_at))]
pub fn read_basis<S: Store>(alloc: Global, store: &mut S) -> Result<Basis, Halt<Denial>>
    ensures gives { S.told → Gives basis_is result (basis_at (S.seen store.old).content) }
    ensures value { IfOk result (λ basis. IsHeadValue basis.place.head) }
    ensures index { IfOk result (λ basis. IsIndex basis.index.items) }
    ensures reads { Reads S.told halt_cause result (S.seen store.old) (S.seen store.new) }
{
    let place = place_in(alloc, store)?;
    let config = taken_config(alloc, store)?;
    let index = read_index(alloc, store)?;
    Ok(Basis {
        place,
        config,
        index,
    })
}
