//! What comes before a line, and before the end.

ghost use Rattle.std.specs.Prelude.{◌≡◌, ◌++◌, IfOk, OnOk};
ghost use Rattle.child_steps.specs.Causes.{HasStepCause};
ghost use Rattle.child_steps.specs.Children.{spot_of};
ghost use Rattle.line_steps.specs.Heads.{clean_at, head_found as head_found_at};
ghost use Rattle.reading.specs.Stages.{before_end_does, before_line_does, between as between_reason, clean_does, closes, head_does, left_unclean as left_unclean_by, look_does, paired};
ghost use Rattle.seq_model.specs.Refusing.{told_by};
ghost use Rattle.seq_outside.specs.Follows.{Follows};
ghost use Rattle.seq_outside.specs.Halts.{Gives, for_reason, halt_cause};
ghost use Rattle.seq_outside.specs.Seen.{Reads};
ghost use Rattle.seq_step.specs.Causes.{RunsNone, stop_failed};
ghost use Rattle.seq_step.specs.Keeping.{Keeps};

use line_steps::{Place, Stop, Unclean};
use seq_base::Id;
use seq_model::{Reason, StopKind};
use seq_outside::{Clock, Halt, Spawner, Store};
use seq_step::{head_found, stop_of, stop_unclean};
use state_text::{IdPairs, Ids};
use std::alloc::{AllocError, Global};
use std::mem::replace;

/// The list stops between its lines: none is put back.
pub fn between(why: Reason) -> Stop
    ensures { result ≡ between_reason why }
{
    stop_of(StopKind::Blocked(why))
}

fn left_unclean(unclean: Unclean) -> Stop
    ensures { result ≡ left_unclean_by unclean }
{
    match unclean {
        Unclean::IsUnread(why) => between(why),
        Unclean::IsChanged(path) => between(Reason::Dirty { path }),
    }
}

pub fn between_halt(halt: Halt<Reason>) -> Halt<Stop>
    ensures { result ≡ told_by between_reason halt }
{
    match halt {
        Halt::Stops(why) => Halt::Stops(between(why)),
        Halt::Fault => Halt::Fault,
        Halt::Memory => Halt::Memory,
    }
}

fn unclean_halt(halt: Halt<Unclean>) -> Halt<Stop>
    ensures { result ≡ told_by left_unclean_by halt }
{
    match halt {
        Halt::Stops(unclean) => Halt::Stops(left_unclean(unclean)),
        Halt::Fault => Halt::Fault,
        Halt::Memory => Halt::Memory,
    }
}

fn head_between<S: Store>(alloc: Global, store: &mut S) -> Result<Id, Halt<Stop>>
    ensures gives { S.told → Gives (λ id. id) result (for_reason between_reason (head_found_at (S.seen store.old).content)) }
    ensures none { RunsNone result }
    ensures reads { Reads S.told halt_cause result (S.seen store.old) (S.seen store.new) }
{
    match head_found(alloc, store) {
        Ok(id) => Ok(id),
        Err(halt) => Err(between_halt(halt)),
    }
}

/// HEAD's commit, as it is then.
#[tactic(auto, unfolding(reading::specs::Stages::head_does))]
fn read_head<S: Store, P: Spawner<S>, C: Clock>(
    alloc: Global,
    place: &mut Place,
    store: &mut S,
    spawner: &mut P,
    clock: &mut C,
) -> Result<Id, Halt<Stop>>
    ensures follows { S.told → Follows P.ran C.ticked spawner.old clock.old spawner.new clock.new (λ id. id)
        head_does (spot_of (S.seen store.old) place.old) result (spot_of (S.seen store.new) place.new) }
    ensures cause { HasStepCause S.told stop_failed result (S.seen store.old) (S.seen store.new) (P.seen spawner.old) (P.seen spawner.new) }
    ensures keeps { Keeps place.old result place.new }
{
    let head = head_between(alloc, store)?;
    place.head = head;
    Ok(head)
}

fn stop_left<S: Store>(alloc: Global, head: Id, store: &mut S) -> Result<(), Halt<Stop>>
    ensures gives { S.told → Gives (λ x. x) result (for_reason left_unclean_by (clean_at (S.seen store.old).content head)) }
    ensures none { RunsNone result }
    ensures reads { Reads S.told halt_cause result (S.seen store.old) (S.seen store.new) }
{
    match stop_unclean(alloc, head, store) {
        Ok(()) => Ok(()),
        Err(halt) => Err(unclean_halt(halt)),
    }
}

/// Index and files are those of HEAD's commit.
#[tactic(auto, unfolding(reading::specs::Stages::clean_does))]
fn clean<S: Store, P: Spawner<S>, C: Clock>(
    alloc: Global,
    head: Id,
    place: &mut Place,
    store: &mut S,
    spawner: &mut P,
    clock: &mut C,
) -> Result<(), Halt<Stop>>
    ensures follows { S.told → Follows P.ran C.ticked spawner.old clock.old spawner.new clock.new (λ x. x)
        (clean_does head) (spot_of (S.seen store.old) place.old) result (spot_of (S.seen store.new) place.new) }
    ensures cause { HasStepCause S.told stop_failed result (S.seen store.old) (S.seen store.new) (P.seen spawner.old) (P.seen spawner.new) }
    ensures keeps { Keeps place.old result place.new }
{
    stop_left(alloc, head, store)?;
    place.unseen = false;
    Ok(())
}

/// The same, where a hook or an editor has ended since they were last looked at.
#[tactic(auto, unfolding(reading::specs::Stages::look_does))]
fn look<S: Store, P: Spawner<S>, C: Clock>(
    alloc: Global,
    head: Id,
    place: &mut Place,
    store: &mut S,
    spawner: &mut P,
    clock: &mut C,
) -> Result<(), Halt<Stop>>
    ensures follows { S.told → Follows P.ran C.ticked spawner.old clock.old spawner.new clock.new (λ x. x)
        (look_does head) (spot_of (S.seen store.old) place.old) result (spot_of (S.seen store.new) place.new) }
    ensures cause { HasStepCause S.told stop_failed result (S.seen store.old) (S.seen store.new) (P.seen spawner.old) (P.seen spawner.new) }
    ensures keeps { Keeps place.old result place.new }
{
    if place.unseen {
        return clean(alloc, head, place, store, spawner, clock);
    }
    Ok(())
}

fn push_pairs(pairs: &mut Vec<(Id, Id)>, waiting: &[Id], head: Id) -> Result<(), AllocError>
    ensures { OnOk result (pairs.new.items ≡ pairs.old.items ++ paired waiting.now head) }
{
    for id in waiting {
        if id.bytes() != head.bytes() {
            pairs.push((*id, head))?;
        }
    }
    Ok(())
}

fn with_pairs(
    alloc: Global,
    pairs: IdPairs,
    waiting: &[Id],
    head: Id,
) -> Result<IdPairs, AllocError>
    ensures { IfOk result (λ more. more ≡ pairs ++ paired waiting.now head) }
{
    let mut pairs = pairs.into_vec();
    push_pairs(&mut pairs, waiting, head)?;
    Ok(IdPairs::from_vec(pairs))
}

/// The commits that wait are paired with HEAD.
fn close<S: Store, P: Spawner<S>, C: Clock>(
    alloc: Global,
    head: Id,
    place: &mut Place,
    store: &mut S,
    spawner: &mut P,
    clock: &mut C,
) -> Result<(), Halt<Stop>>
    ensures follows { S.told → Follows P.ran C.ticked spawner.old clock.old spawner.new clock.new (λ x. x)
        (closes head) (spot_of (S.seen store.old) place.old) result (spot_of (S.seen store.new) place.new) }
    ensures cause { HasStepCause S.told stop_failed result (S.seen store.old) (S.seen store.new) (P.seen spawner.old) (P.seen spawner.new) }
    ensures keeps { Keeps place.old result place.new }
{
    let waiting = replace(&mut place.waiting, Ids::from_vec(Vec::new(alloc)));
    let pairs = replace(&mut place.rewritten, IdPairs::from_vec(Vec::new(alloc)));
    place.rewritten = with_pairs(alloc, pairs, waiting.as_slice(), head)?;
    Ok(())
}

/// Reads HEAD before a line, and looks at index and files where a hook or an editor has ended since the last look. The commits that wait are paired
/// with HEAD.
#[tactic(auto, unfolding(reading::specs::Stages::before_line_does))]
pub fn before_line<S: Store, P: Spawner<S>, C: Clock>(
    alloc: Global,
    place: &mut Place,
    store: &mut S,
    spawner: &mut P,
    clock: &mut C,
) -> Result<(), Halt<Stop>>
    ensures follows { S.told → Follows P.ran C.ticked spawner.old clock.old spawner.new clock.new (λ x. x)
        before_line_does (spot_of (S.seen store.old) place.old) result (spot_of (S.seen store.new) place.new) }
    ensures cause { HasStepCause S.told stop_failed result (S.seen store.old) (S.seen store.new) (P.seen spawner.old) (P.seen spawner.new) }
    ensures keeps { Keeps place.old result place.new }
{
    let head = read_head(alloc, place, store, spawner, clock)?;
    look(alloc, head, place, store, spawner, clock)?;
    close(alloc, head, place, store, spawner, clock)
}

/// The same before the end, where nothing is looked at; answers HEAD's commit.
#[tactic(auto, unfolding(reading::specs::Stages::before_end_does))]
pub fn before_end<S: Store, P: Spawner<S>, C: Clock>(
    alloc: Global,
    place: &mut Place,
    store: &mut S,
    spawner: &mut P,
    clock: &mut C,
) -> Result<Id, Halt<Stop>>
    ensures follows { S.told → Follows P.ran C.ticked spawner.old clock.old spawner.new clock.new (λ id. id)
        before_end_does (spot_of (S.seen store.old) place.old) result (spot_of (S.seen store.new) place.new) }
    ensures cause { HasStepCause S.told stop_failed result (S.seen store.old) (S.seen store.new) (P.seen spawner.old) (P.seen spawner.new) }
    ensures keeps { Keeps place.old result place.new }
{
    let head = read_head(alloc, place, store, spawner, clock)?;
    close(alloc, head, place, store, spawner, clock)?;
    Ok(head)
}
