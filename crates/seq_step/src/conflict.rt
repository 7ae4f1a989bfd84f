//! A conflict stops the line.

ghost use Rattle.std.specs.Prelude.{◌<◌, ◌^◌, OnOk, length};
ghost use Rattle.child_steps.specs.Causes.{HasStepCause};
ghost use Rattle.child_steps.specs.Children.{spot_of};
ghost use Rattle.index_file.specs.Entries.{IsInOrder, IsIndex};
ghost use Rattle.line_steps.specs.Finding.{may_conflict};
ghost use Rattle.line_steps.specs.Picks.{conflict_does};
ghost use Rattle.line_steps.specs.Places.{lacked_at as lacked_at_of, writes};
ghost use Rattle.line_steps.specs.Writing.{conflicted_filled, conflicted_with};
ghost use Rattle.seq_outside.specs.Follows.{Follows};
ghost use Rattle.seq_outside.specs.Halts.{Gives, halt_cause};
ghost use Rattle.seq_outside.specs.Seen.{Reads, Writes};
ghost use Rattle.seq_outside.specs.Turns.{Turns};
ghost use Rattle.seq_step.specs.Causes.{RunsNone, stop_failed};
ghost use Rattle.seq_step.specs.Finding.{IsPicking, picking_is};
ghost use Rattle.worktree.specs.ConflictTurns.{conflicted_clear};
ghost use Rattle.worktree.specs.Conflicts.{unbarred};
ghost use Rattle.seq_step.specs.Keeping.{Keeps};

use crate::finding::{Found, Picking, may_have};
use crate::pending::stop_pending;
use crate::stop::lacked_at;
use crate::switching::put_texts;
use content_merge::{ConflictFiles, IndexEntries, Texts};
use line_steps::{Place, Stop};
use seq_base::Id;
use seq_model::StopKind;
use seq_outside::{Clock, Halt, Lack, Spawner, Store};
use std::alloc::Global;
use worktree::{stop_barred, write_conflict_clear};

/// Stops where an untracked file is in the way of what a conflict leaves.
fn stop_in_the_way<S: Store>(
    alloc: Global,
    found: &Found,
    index: &IndexEntries,
    files: &ConflictFiles,
    store: &mut S,
) -> Result<(), Halt<Lack>>
    requires order { IsInOrder found.now.index.items }
    ensures gives { S.told → Gives (λ x. x) result (unbarred (S.seen store.old).content found.now.index.items index.now files.now) }
    ensures reads { Reads S.told halt_cause result (S.seen store.old) (S.seen store.new) }
{
    stop_barred(
        alloc,
        store,
        &found.index,
        index.as_slice(),
        files.as_slice(),
    )
}

/// Stops where an index has too many entries, or an untracked file is in the way of what a conflict leaves.
#[tactic(auto, unfolding(line_steps::specs::Finding::may_conflict))]
fn stop_unfit_conflict<S: Store>(
    alloc: Global,
    found: &Found,
    index: &IndexEntries,
    files: &ConflictFiles,
    store: &mut S,
) -> Result<(), Halt<Lack>>
    requires order { IsInOrder found.now.index.items }
    ensures gives { S.told → Gives (λ x. x) result (may_conflict found.now.index.items index.now files.now (S.seen store.old).content) }
    ensures few { OnOk result (length index.now < 2 ^ 32) }
    ensures reads { Reads S.told halt_cause result (S.seen store.old) (S.seen store.new) }
{
    may_have(index.as_slice().len())?;
    stop_in_the_way(alloc, found, index, files, store)
}

/// Writes index and files of a conflict.
fn write_left<S: Store>(
    alloc: Global,
    found: &Found,
    index: &IndexEntries,
    files: &ConflictFiles,
    store: &mut S,
) -> Result<(), Halt<Lack>>
    requires order { IsInOrder found.now.index.items }
    requires index { IsIndex index.now }
    ensures turns { S.told → Turns (λ x. x) result (conflicted_clear found.now.index.items index.now files.now (S.seen store.old).content)
        (S.seen store.new).content }
    ensures writes { Writes S.told halt_cause result (S.seen store.old) (S.seen store.new) }
{
    write_conflict_clear(
        alloc,
        store,
        &found.index,
        index.as_slice(),
        files.as_slice(),
    )
}

#[tactic(auto, unfolding(line_steps::specs::Writing::conflicted_filled))]
fn fill_conflict<S: Store>(
    alloc: Global,
    found: &Found,
    index: &IndexEntries,
    files: &ConflictFiles,
    texts: &Texts,
    store: &mut S,
) -> Result<(), Halt<Lack>>
    requires order { IsInOrder found.now.index.items }
    requires index { IsIndex index.now }
    ensures turns { S.told → Turns (λ x. x) result
        (conflicted_filled found.now.index.items index.now files.now texts.now (S.seen store.old).content)
        (S.seen store.new).content }
    ensures writes { Writes S.told halt_cause result (S.seen store.old) (S.seen store.new) }
{
    put_texts(alloc, texts, store)?;
    write_left(alloc, found, index, files, store)
}

/// The conflict stands in index and files, and the new blobs of the merge are there.
#[tactic(auto, unfolding(line_steps::specs::Writing::conflicted_with))]
fn leave_conflict<S: Store>(
    alloc: Global,
    found: &Found,
    index: &IndexEntries,
    files: &ConflictFiles,
    texts: &Texts,
    store: &mut S,
) -> Result<(), Halt<Lack>>
    requires order { IsInOrder found.now.index.items }
    requires index { length index.now < 2 ^ 32 → IsIndex index.now }
    ensures turns { S.told → Turns (λ x. x) result (conflicted_with found.now.index.items index.now files.now texts.now (S.seen store.old).content)
        (S.seen store.new).content }
    ensures writes { Writes S.told halt_cause result (S.seen store.old) (S.seen store.new) }
{
    stop_unfit_conflict(alloc, found, index, files, store)?;
    fill_conflict(alloc, found, index, files, texts, store)
}

fn conflict_step<S: Store, P: Spawner<S>, C: Clock>(
    alloc: Global,
    pick: Id,
    found: &Found,
    index: &IndexEntries,
    files: &ConflictFiles,
    texts: &Texts,
    place: &mut Place,
    store: &mut S,
    spawner: &mut P,
    clock: &mut C,
) -> Result<(), Halt<Stop>>
    requires order { IsInOrder found.now.index.items }
    requires index { length index.now < 2 ^ 32 → IsIndex index.now }
    ensures follows { S.told → Follows P.ran C.ticked spawner.old clock.old spawner.new clock.new (λ x. x)
        (writes (lacked_at_of pick) (conflicted_with found.now.index.items index.now files.now texts.now))
        (spot_of (S.seen store.old) place.old) result (spot_of (S.seen store.new) place.new) }
    ensures none { RunsNone result }
    ensures cause { HasStepCause S.told stop_failed result (S.seen store.old) (S.seen store.new) (P.seen spawner.old) (P.seen spawner.new) }
    ensures keeps { Keeps place.old result place.new }
{
    match leave_conflict(alloc, found, index, files, texts, store) {
        Ok(()) => Ok(()),
        Err(Halt::Stops(lack)) => Err(Halt::Stops(lacked_at(pick, lack))),
        Err(Halt::Fault) => Err(Halt::Fault),
        Err(Halt::Memory) => Err(Halt::Memory),
    }
}

/// Leaves the conflict, and stops.
#[tactic(auto, unfolding(line_steps::specs::Picks::conflict_does))]
pub fn conflict<S: Store, P: Spawner<S>, C: Clock>(
    alloc: Global,
    at: &Picking,
    index: &IndexEntries,
    files: &ConflictFiles,
    texts: &Texts,
    place: &mut Place,
    store: &mut S,
    spawner: &mut P,
    clock: &mut C,
) -> Result<(), Halt<Stop>>
    requires at { IsPicking at.now }
    requires index { length index.now < 2 ^ 32 → IsIndex index.now }
    ensures follows { S.told → Follows P.ran C.ticked spawner.old clock.old spawner.new clock.new (λ x. x)
        (conflict_does (picking_is at.now) index.now files.now texts.now)
        (spot_of (S.seen store.old) place.old) result (spot_of (S.seen store.new) place.new) }
    ensures cause { HasStepCause S.told stop_failed result (S.seen store.old) (S.seen store.new) (P.seen spawner.old) (P.seen spawner.new) }
    ensures keeps { Keeps place.old result place.new }
{
    conflict_step(
        alloc, at.pick.id, &at.found, index, files, texts, place, store, spawner, clock,
    )?;
    let kind = StopKind::Conflict;
    stop_pending(alloc, kind, true, &at.pick, place, store, spawner, clock)
}
