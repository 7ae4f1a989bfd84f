//! Writes that are made in a store.

ghost use Rattle.std.specs.List.{AllByRecursion};
ghost use Rattle.seq_base.specs.StorePaths.{IsStorePath};
ghost use Rattle.seq_outside.specs.Halts.{halt_cause};
ghost use Rattle.seq_outside.specs.Seen.{Writes};
ghost use Rattle.seq_outside.specs.Store.{StaysElsewhere, StaysOutside};
ghost use Rattle.seq_outside.specs.Turns.{Turns};
ghost use Rattle.seq_outside.specs.Writes.{HasStorePath, IsFront, StepLeaves, is_written, path_of};
ghost use Rattle.worktree.specs.Switches.{write_made, writes_made};

use seq_outside::{Halt, Lack, Store, Write, put_file};
use std::alloc::Global;

/// Makes one write, and drops it.
#[tactic(auto, unfolding(crate::specs::Switches::write_made))]
fn make_write<S: Store>(alloc: Global, store: &mut S, write: Write) -> Result<(), Halt<Lack>>
    requires { HasStorePath write }
    ensures turns { S.told → Turns (λ x. x) result (write_made write (S.seen store.old).content) (S.seen store.new).content }
    ensures leaves { S.told → StepLeaves result (S.seen store.old).content write (S.seen store.new).content }
    ensures elsewhere { S.told → StaysElsewhere (path_of write) (S.seen store.old).content (S.seen store.new).content }
    ensures writes { Writes S.told halt_cause result (S.seen store.old) (S.seen store.new) }
{
    match write {
        Write::Put { path, bytes } => put_file(alloc, store, path, bytes.as_slice()),
        Write::Remove { path } => {
            let _was_there = store.remove(alloc, path.as_slice())?;
            Ok(())
        }
    }
}

/// Makes the writes one after another, and drops each once it is made. A blocked put is Way; those before it have been
/// made. Whatever ends it, a front of them was.
pub fn make_writes<S: Store>(
    alloc: Global,
    store: &mut S,
    writes: Vec<Write>,
) -> Result<(), Halt<Lack>>
    requires { AllByRecursion HasStorePath writes.items }
    ensures turns { S.told → Turns (λ x. x) result (writes_made writes.items (S.seen store.old).content) (S.seen store.new).content }
    ensures front { S.told → IsFront (S.seen store.old).content writes.items (S.seen store.new).content }
    ensures elsewhere { S.told → StaysOutside (is_written writes.items) (S.seen store.old).content (S.seen store.new).content }
    ensures writes { Writes S.told halt_cause result (S.seen store.old) (S.seen store.new) }
{
    for write in writes {
        make_write(alloc, store, write)?;
    }
    Ok(())
}
