//! A rebase that is given up, or left as it stands.

ghost use Rattle.std.specs.Prelude.{◌≡◌, None, OnOk, IsErrOf};
ghost use Rattle.reading.specs.Aborting.{given_up, quitted};
ghost use Rattle.seq_abort.specs.Aborts.{given_up_to};
ghost use Rattle.seq_abort.specs.Causes.{HasAbortCause};
ghost use Rattle.seq_base.specs.RefNames.{IsRefName};
ghost use Rattle.seq_outside.specs.Seen.{Writes, store_cause};
ghost use Rattle.seq_outside.specs.Turns.{Turns};
ghost use Rattle.seq_step.specs.Settings.{MayCommit};
ghost use Rattle.state_text.specs.Controls.{IfThere};

use crate::abort::abort_list;
use line_steps::Setting;
use seq_base::{Bytes, Id};
use seq_model::Reason;
use seq_outside::{Halt, Store, StoreError};
use seq_state::{clear_files, clear_state};
use state_text::Verb;
use std::alloc::Global;

/// No file of the list is there.
fn clear_its_files<S: Store>(
    alloc: Global,
    setting: &Setting,
    store: &mut S,
) -> Result<(), Halt<Reason>>
    ensures turns { S.told → Turns (λ x. x) result (given_up setting.now None (S.seen store.old).content) (S.seen store.new).content }
    ensures cause { HasAbortCause S.told result (S.seen store.old) (S.seen store.new) }
{
    clear_files(alloc, Verb::Rebase, store)?;
    Ok(())
}

/// A rebase is given up: of the branch that it was told of, with its commit; or its files alone go, where that is not told.
pub fn give_up<S: Store>(
    alloc: Global,
    setting: &Setting,
    before: &Option<(Option<Bytes>, Id)>,
    store: &mut S,
) -> Result<(), Halt<Reason>>
    requires setting { MayCommit setting.now }
    requires before { IfThere (λ b. IfThere IsRefName b.0) before.now }
    ensures turns { S.told → Turns (λ x. x) result (given_up_to setting.now before.now (S.seen store.old).content) (S.seen store.new).content }
    ensures cause { HasAbortCause S.told result (S.seen store.old) (S.seen store.new) }
{
    match before {
        Some((name, orig)) => abort_list(alloc, setting, name, *orig, store),
        None => clear_its_files(alloc, setting, store),
    }
}

/// A rebase is left as it stands, without its state (git-rebase(1), "--quit").
pub fn quit_list<S: Store>(alloc: Global, store: &mut S) -> Result<(), StoreError>
    ensures left { S.told → OnOk result ((S.seen store.new).content ≡ quitted (S.seen store.old).content) }
    ensures free { S.told → IsErrOf result StoreError.Blocked → ⊥ }
    ensures writes { Writes S.told store_cause result (S.seen store.old) (S.seen store.new) }
{
    clear_state(alloc, Verb::Rebase, store)
}
