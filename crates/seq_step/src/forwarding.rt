//! HEAD goes forward to the commit that is picked.

ghost use Rattle.std.specs.Prelude.{◌≡◌, ◌∷◌, ◌++◌, [], IfOk};
ghost use Rattle.child_steps.specs.Causes.{HasStepCause};
ghost use Rattle.child_steps.specs.Children.{spot_of};
ghost use Rattle.line_steps.specs.Picks.{forward_does, forward_goes, forward_heads, forward_line as forward_line_of};
ghost use Rattle.line_steps.specs.Picks.{forward_moved, forward_or_back, forward_to, waits};
ghost use Rattle.message_text.specs.Paragraphs.{subject as subject_in};
ghost use Rattle.ref_text.specs.Logs.{IsLogValue, IsMessage};
ghost use Rattle.seq_outside.specs.Follows.{Follows};
ghost use Rattle.seq_step.specs.Causes.{stop_failed};
ghost use Rattle.seq_step.specs.Finding.{IsPicking, picking_is};
ghost use Rattle.seq_step.specs.Keeping.{Keeps};
ghost use Rattle.seq_step.specs.Settings.{MayCommit};

use crate::back::go_back_if;
use crate::finding::{Picking, theirs};
use crate::moving::{move_head, pick_line, turn_ident};
use crate::switching::switch_step;
use line_steps::{Place, Setting, Stop};
use message_text::subject;
use ref_text::LogLine;
use seq_base::{Id, PathMap};
use seq_outside::{Clock, Halt, Spawner, Store};
use state_text::Ids;
use std::alloc::{AllocError, Global};

/// The ids, and one more.
pub fn with_id(alloc: Global, ids: &Ids, id: Id) -> Result<Ids, AllocError>
    ensures { IfOk result (λ more. more ≡ ids.now ++ id ∷ []) }
{
    let mut more = Vec::from_slice(alloc, ids.as_slice())?;
    more.push(id)?;
    Ok(Ids::from_vec(more))
}

/// The commit waits to be paired with what became of it.
pub fn wait<S: Store, P: Spawner<S>, C: Clock>(
    alloc: Global,
    id: Id,
    place: &mut Place,
    store: &mut S,
    spawner: &mut P,
    clock: &mut C,
) -> Result<(), Halt<Stop>>
    ensures follows { S.told → Follows P.ran C.ticked spawner.old clock.old spawner.new clock.new (λ x. x)
        (waits id) (spot_of (S.seen store.old) place.old) result (spot_of (S.seen store.new) place.new) }
    ensures cause { HasStepCause S.told stop_failed result (S.seen store.old) (S.seen store.new) (P.seen spawner.old) (P.seen spawner.new) }
    ensures keeps { Keeps place.old result place.new }
{
    place.waiting = with_id(alloc, &place.waiting, id)?;
    Ok(())
}

/// HEAD is at the commit, which waits.
#[tactic(auto, unfolding(line_steps::specs::Picks::forward_heads))]
fn take_head<S: Store, P: Spawner<S>, C: Clock>(
    alloc: Global,
    id: Id,
    place: &mut Place,
    store: &mut S,
    spawner: &mut P,
    clock: &mut C,
) -> Result<(), Halt<Stop>>
    ensures follows { S.told → Follows P.ran C.ticked spawner.old clock.old spawner.new clock.new (λ x. x)
        (forward_heads id) (spot_of (S.seen store.old) place.old) result (spot_of (S.seen store.new) place.new) }
    ensures cause { HasStepCause S.told stop_failed result (S.seen store.old) (S.seen store.new) (P.seen spawner.old) (P.seen spawner.new) }
    ensures keeps { Keeps place.old result place.new }
{
    place.head = id;
    wait(alloc, id, place, store, spawner, clock)
}

/// The subject of a message, which may stand in a log.
fn subject_of(alloc: Global, message: &[u8]) -> Result<Vec<u8>, AllocError>
    ensures text { IfOk result (λ text. text.items ≡ subject_in message.now) }
    ensures message { IfOk result (λ text. IsMessage text.items) }
{
    let text = subject(alloc, message)?;
    Ok(text)
}

fn forward_line(alloc: Global, setting: &Setting, at: &Picking) -> Result<LogLine, AllocError>
    requires setting { MayCommit setting.now }
    ensures line { IfOk result (λ line. line ≡ forward_line_of setting.now (picking_is at.now)) }
    ensures value { IfOk result IsLogValue }
{
    let ident = turn_ident(alloc, setting)?;
    let subject = subject_of(alloc, at.pick.commit.message.as_slice())?;
    let line = pick_line(alloc, &subject, at.head, at.pick.id, &ident)?;
    Ok(line)
}

/// HEAD goes to the commit.
fn move_forward<S: Store, P: Spawner<S>, C: Clock>(
    alloc: Global,
    setting: &Setting,
    at: &Picking,
    place: &mut Place,
    store: &mut S,
    spawner: &mut P,
    clock: &mut C,
) -> Result<(), Halt<Stop>>
    requires setting { MayCommit setting.now }
    ensures follows { S.told → Follows P.ran C.ticked spawner.old clock.old spawner.new clock.new (λ x. x)
        (forward_moved setting.now (picking_is at.now)) (spot_of (S.seen store.old) place.old) result (spot_of (S.seen store.new) place.new) }
    ensures cause { HasStepCause S.told stop_failed result (S.seen store.old) (S.seen store.new) (P.seen spawner.old) (P.seen spawner.new) }
    ensures keeps { Keeps place.old result place.new }
{
    let line = forward_line(alloc, setting, at)?;
    move_head(
        alloc, at.pick.id, at.head, at.pick.id, &line, place, store, spawner, clock,
    )
}

/// HEAD goes to the commit, or index and files go back.
#[tactic(auto, using(crate::proofs::Backs::went, crate::proofs::Backs::stopped), unfolding(line_steps::specs::Picks::forward_or_back))]
fn move_or_back<S: Store, P: Spawner<S>, C: Clock>(
    alloc: Global,
    setting: &Setting,
    at: &Picking,
    theirs: &PathMap,
    place: &mut Place,
    store: &mut S,
    spawner: &mut P,
    clock: &mut C,
) -> Result<(), Halt<Stop>>
    requires setting { MayCommit setting.now }
    requires at { IsPicking at.now }
    ensures follows { S.told → Follows P.ran C.ticked spawner.old clock.old spawner.new clock.new (λ x. x)
        (forward_or_back setting.now (picking_is at.now) theirs.now)
        (spot_of (S.seen store.old) place.old) result (spot_of (S.seen store.new) place.new) }
    ensures cause { HasStepCause S.told stop_failed result (S.seen store.old) (S.seen store.new) (P.seen spawner.old) (P.seen spawner.new) }
    ensures keeps { Keeps place.old result place.new }
{
    match move_forward(alloc, setting, at, place, store, spawner, clock) {
        Ok(()) => Ok(()),
        Err(Halt::Stops(stop)) => {
            match go_back_if(alloc, theirs, &at.found.ours, &stop, store) {
                Ok(()) => Err(Halt::Stops(stop)),
                Err(Halt::Stops(never)) => Err(Halt::Stops(never)),
                Err(Halt::Fault) => Err(Halt::Fault),
                Err(Halt::Memory) => Err(Halt::Memory),
            }
        }
        Err(Halt::Fault) => Err(Halt::Fault),
        Err(Halt::Memory) => Err(Halt::Memory),
    }
}

#[tactic(auto, unfolding(line_steps::specs::Picks::forward_goes))]
fn go_forward<S: Store, P: Spawner<S>, C: Clock>(
    alloc: Global,
    setting: &Setting,
    at: &Picking,
    theirs: &PathMap,
    place: &mut Place,
    store: &mut S,
    spawner: &mut P,
    clock: &mut C,
) -> Result<(), Halt<Stop>>
    requires setting { MayCommit setting.now }
    requires at { IsPicking at.now }
    ensures follows { S.told → Follows P.ran C.ticked spawner.old clock.old spawner.new clock.new (λ x. x)
        (forward_goes setting.now (picking_is at.now) theirs.now)
        (spot_of (S.seen store.old) place.old) result (spot_of (S.seen store.new) place.new) }
    ensures cause { HasStepCause S.told stop_failed result (S.seen store.old) (S.seen store.new) (P.seen spawner.old) (P.seen spawner.new) }
    ensures keeps { Keeps place.old result place.new }
{
    move_or_back(alloc, setting, at, theirs, place, store, spawner, clock)?;
    take_head(alloc, at.pick.id, place, store, spawner, clock)
}

/// Index and files are switched to the commit's map, and HEAD goes to it.
#[tactic(auto, unfolding(line_steps::specs::Picks::forward_to))]
fn go_to<S: Store, P: Spawner<S>, C: Clock>(
    alloc: Global,
    setting: &Setting,
    at: &Picking,
    theirs: &PathMap,
    place: &mut Place,
    store: &mut S,
    spawner: &mut P,
    clock: &mut C,
) -> Result<(), Halt<Stop>>
    requires setting { MayCommit setting.now }
    requires at { IsPicking at.now }
    ensures follows { S.told → Follows P.ran C.ticked spawner.old clock.old spawner.new clock.new (λ x. x)
        (forward_to setting.now (picking_is at.now) theirs.now)
        (spot_of (S.seen store.old) place.old) result (spot_of (S.seen store.new) place.new) }
    ensures cause { HasStepCause S.told stop_failed result (S.seen store.old) (S.seen store.new) (P.seen spawner.old) (P.seen spawner.new) }
    ensures keeps { Keeps place.old result place.new }
{
    switch_step(
        alloc, at.pick.id, &at.found, theirs, place, store, spawner, clock,
    )?;
    go_forward(alloc, setting, at, theirs, place, store, spawner, clock)
}

/// HEAD goes forward to a commit whose only parent it is at; no commit is made.
#[tactic(auto, unfolding(line_steps::specs::Picks::forward_does))]
pub fn forward<S: Store, P: Spawner<S>, C: Clock>(
    alloc: Global,
    setting: &Setting,
    at: &Picking,
    place: &mut Place,
    store: &mut S,
    spawner: &mut P,
    clock: &mut C,
) -> Result<(), Halt<Stop>>
    requires setting { MayCommit setting.now }
    requires at { IsPicking at.now }
    ensures follows { S.told → Follows P.ran C.ticked spawner.old clock.old spawner.new clock.new (λ x. x)
        (forward_does setting.now (picking_is at.now)) (spot_of (S.seen store.old) place.old) result (spot_of (S.seen store.new) place.new) }
    ensures cause { HasStepCause S.told stop_failed result (S.seen store.old) (S.seen store.new) (P.seen spawner.old) (P.seen spawner.new) }
    ensures keeps { Keeps place.old result place.new }
{
    let theirs = theirs(alloc, &at.pick, store)?;
    go_to(alloc, setting, at, &theirs, place, store, spawner, clock)
}
