//! How a stopped list is gone on with, before its lines.

ghost use Rattle.std.specs.Prelude.{◌≡◌, ◌<◌, ◌^◌, IfOk, length};
ghost use Rattle.child_steps.specs.Causes.{HasStepCause};
ghost use Rattle.child_steps.specs.Children.{spot_of};
ghost use Rattle.index_file.specs.Entries.{IsInOrder};
ghost use Rattle.line_steps.specs.Finding.{map_held as map_held_by};
ghost use Rattle.line_steps.specs.Places.{reads, writes};
ghost use Rattle.reading.specs.Going.{acts as acts_by, between_lines as between_lines_by, reset_does, resume_from as resume_from_by, skip_does};
ghost use Rattle.reading.specs.Resuming.{resets_at as resets_at_word};
ghost use Rattle.reading.specs.Stages.{left_as};
ghost use Rattle.reading.specs.State.{begun};
ghost use Rattle.seq_resume.specs.Pendings.{HasPending};
ghost use Rattle.seq_model.specs.Refusing.{told_by};
ghost use Rattle.seq_outside.specs.Follows.{Follows};
ghost use Rattle.seq_outside.specs.Halts.{Gives, for_reason, halt_cause};
ghost use Rattle.seq_outside.specs.Seen.{Reads, Writes};
ghost use Rattle.seq_outside.specs.Turns.{Turns};
ghost use Rattle.seq_step.specs.Keeping.{Keeps};
ghost use Rattle.seq_step.specs.Causes.{HasLineCause, RunsNone, stop_failed};
ghost use Rattle.seq_step.specs.Settings.{MayCommit};
ghost use Rattle.worktree.specs.ResetTurns.{reset_to};

use crate::pending::continue_pending;
use line_steps::{Place, Stop};
use path_trees::read_commit_map;
use reading::{Again, Going};
use seq_base::{Id, PathMap};
use seq_lines::between;
use seq_outside::{Clock, Halt, Lack, Spawner, Store};
use seq_state::begin_step;
use seq_step::{may_have, reason_of};
use state_text::{Control, StopWord};
use std::alloc::Global;
use worktree::reset_hard;

/// What is lacked between lines.
fn lacked_between(halt: Halt<Lack>) -> Halt<Stop>
    ensures { result ≡ told_by between_lines_by halt }
{
    match halt {
        Halt::Stops(lack) => Halt::Stops(between(reason_of(lack))),
        Halt::Fault => Halt::Fault,
        Halt::Memory => Halt::Memory,
    }
}

/// The map of a commit, which an index can hold.
#[tactic(auto, unfolding(line_steps::specs::Finding::map_held))]
pub fn map_held<S: Store>(alloc: Global, id: Id, store: &mut S) -> Result<PathMap, Halt<Lack>>
    ensures gives { S.told → Gives (λ m. m) result (map_held_by id (S.seen store.old).content) }
    ensures few { IfOk result (λ m. length m < 2 ^ 32) }
    ensures reads { Reads S.told halt_cause result (S.seen store.old) (S.seen store.new) }
{
    let map = read_commit_map(alloc, store, id)?;
    may_have(map.len())?;
    Ok(map)
}

fn held_between<S: Store>(alloc: Global, id: Id, store: &mut S) -> Result<PathMap, Halt<Stop>>
    ensures gives { S.told → Gives (λ m. m) result (for_reason between_lines_by (map_held_by id (S.seen store.old).content)) }
    ensures few { IfOk result (λ m. length m < 2 ^ 32) }
    ensures none { RunsNone result }
    ensures reads { Reads S.told halt_cause result (S.seen store.old) (S.seen store.new) }
{
    match map_held(alloc, id, store) {
        Ok(map) => Ok(map),
        Err(halt) => Err(lacked_between(halt)),
    }
}

/// Index and files are those of a map.
fn reset_index<S: Store>(
    alloc: Global,
    going: &Going,
    ours: &PathMap,
    store: &mut S,
) -> Result<(), Halt<Lack>>
    requires order { IsInOrder going.now.index }
    requires few { length ours.now < 2 ^ 32 }
    ensures turns { S.told → Turns (λ x. x) result (reset_to going.now.index ours.now (S.seen store.old).content) (S.seen store.new).content }
    ensures writes { Writes S.told halt_cause result (S.seen store.old) (S.seen store.new) }
{
    reset_hard(alloc, store, going.index.as_slice(), ours)
}

fn reset_step<S: Store, P: Spawner<S>, C: Clock>(
    alloc: Global,
    going: &Going,
    ours: &PathMap,
    place: &mut Place,
    store: &mut S,
    spawner: &mut P,
    clock: &mut C,
) -> Result<(), Halt<Stop>>
    requires order { IsInOrder going.now.index }
    requires few { length ours.now < 2 ^ 32 }
    ensures follows { S.told → Follows P.ran C.ticked spawner.old clock.old spawner.new clock.new (λ x. x)
        (writes between_lines_by (reset_to going.now.index ours.now))
        (spot_of (S.seen store.old) place.old) result (spot_of (S.seen store.new) place.new) }
    ensures none { RunsNone result }
    ensures cause { HasStepCause S.told stop_failed result (S.seen store.old) (S.seen store.new) (P.seen spawner.old) (P.seen spawner.new) }
    ensures keeps { Keeps place.old result place.new }
{
    match reset_index(alloc, going, ours, store) {
        Ok(()) => Ok(()),
        Err(Halt::Stops(lack)) => Err(Halt::Stops(between(reason_of(lack)))),
        Err(Halt::Fault) => Err(Halt::Fault),
        Err(Halt::Memory) => Err(Halt::Memory),
    }
}

/// Index and files are HEAD's.
#[tactic(auto, unfolding(reading::specs::Going::reset_does))]
fn reset<S: Store, P: Spawner<S>, C: Clock>(
    alloc: Global,
    going: &Going,
    place: &mut Place,
    store: &mut S,
    spawner: &mut P,
    clock: &mut C,
) -> Result<(), Halt<Stop>>
    requires order { IsInOrder going.now.index }
    ensures follows { S.told → Follows P.ran C.ticked spawner.old clock.old spawner.new clock.new (λ x. x)
        (reset_does going.now)
        (spot_of (S.seen store.old) place.old) result (spot_of (S.seen store.new) place.new) }
    ensures cause { HasStepCause S.told stop_failed result (S.seen store.old) (S.seen store.new) (P.seen spawner.old) (P.seen spawner.new) }
    ensures keeps { Keeps place.old result place.new }
{
    let ours = held_between(alloc, going.head, store)?;
    reset_step(alloc, going, &ours, place, store, spawner, clock)
}

/// Whether index and files are reset where a list is skipped: not where the todo did not read or a ref had moved.
pub fn resets_at(word: StopWord) -> bool
    ensures { result ≡ resets_at_word word }
{
    match word {
        StopWord::TodoBad | StopWord::RefMoved => false,
        _ => true,
    }
}

fn skip<S: Store, P: Spawner<S>, C: Clock>(
    alloc: Global,
    going: &Going,
    control: &Control,
    place: &mut Place,
    store: &mut S,
    spawner: &mut P,
    clock: &mut C,
) -> Result<(), Halt<Stop>>
    requires order { IsInOrder going.now.index }
    ensures follows { S.told → Follows P.ran C.ticked spawner.old clock.old spawner.new clock.new (λ x. x)
        (skip_does going.now control.now)
        (spot_of (S.seen store.old) place.old) result (spot_of (S.seen store.new) place.new) }
    ensures cause { HasStepCause S.told stop_failed result (S.seen store.old) (S.seen store.new) (P.seen spawner.old) (P.seen spawner.new) }
    ensures keeps { Keeps place.old result place.new }
{
    if resets_at(control.stop) {
        return reset(alloc, going, place, store, spawner, clock);
    }
    Ok(())
}

fn act<S: Store, P: Spawner<S>, C: Clock>(
    alloc: Global,
    again: Again,
    going: &Going,
    control: &Control,
    place: &mut Place,
    store: &mut S,
    spawner: &mut P,
    clock: &mut C,
) -> Result<(), Halt<Stop>>
    requires setting { MayCommit going.now.setting }
    requires pending { HasPending control.now }
    requires order { IsInOrder going.now.index }
    ensures follows { S.told → Follows P.ran C.ticked spawner.old clock.old spawner.new clock.new (λ x. x)
        (acts_by again going.now control.now)
        (spot_of (S.seen store.old) place.old) result (spot_of (S.seen store.new) place.new) }
    ensures cause { HasStepCause S.told stop_failed result (S.seen store.old) (S.seen store.new) (P.seen spawner.old) (P.seen spawner.new) }
    ensures keeps { Keeps place.old result place.new }
{
    match again {
        Again::Continue => continue_pending(alloc, going, control, place, store, spawner, clock),
        Again::Skip => skip(alloc, going, control, place, store, spawner, clock),
    }
}

/// What was pending is made, or index and files are reset.
#[tactic(auto, unfolding(reading::specs::Going::resume_from))]
pub fn resume_from<S: Store, P: Spawner<S>, C: Clock>(
    alloc: Global,
    again: Again,
    going: &Going,
    control: &Control,
    place: &mut Place,
    store: &mut S,
    spawner: &mut P,
    clock: &mut C,
) -> Result<(), Halt<Stop>>
    requires setting { MayCommit going.now.setting }
    requires pending { HasPending control.now }
    requires order { IsInOrder going.now.index }
    ensures follows { S.told → Follows P.ran C.ticked spawner.old clock.old spawner.new clock.new (λ x. x)
        (resume_from_by again going.now control.now)
        (spot_of (S.seen store.old) place.old) result (spot_of (S.seen store.new) place.new) }
    ensures cause { HasLineCause stop_failed result (S.seen store.old) (S.seen store.new) (P.seen spawner.old) (P.seen spawner.new) }
    ensures keeps { Keeps place.old result place.new }
{
    place.head = going.head;
    act(alloc, again, going, control, place, store, spawner, clock)
}

/// An invocation is at work.
pub fn resume_state<S: Store, P: Spawner<S>, C: Clock>(
    alloc: Global,
    control: &Control,
    place: &mut Place,
    store: &mut S,
    spawner: &mut P,
    clock: &mut C,
) -> Result<(), Halt<Stop>>
    ensures follows { S.told → Follows P.ran C.ticked spawner.old clock.old spawner.new clock.new (λ x. x)
        (left_as (begun control.now))
        (spot_of (S.seen store.old) place.old) result (spot_of (S.seen store.new) place.new) }
    ensures cause { HasLineCause stop_failed result (S.seen store.old) (S.seen store.new) (P.seen spawner.old) (P.seen spawner.new) }
    ensures keeps { Keeps place.old result place.new }
{
    begin_step(alloc, control, store)?;
    Ok(())
}
