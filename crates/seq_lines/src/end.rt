//! The end of a list.

ghost use Rattle.std.specs.List.{flat_map};
ghost use Rattle.std.specs.Prelude.{◌≡◌, ◌∷◌, ◌++◌, [], codes, IfOk, OnOk};
ghost use Rattle.child_steps.specs.Children.{spot_of};
ghost use Rattle.line_steps.specs.Hooks.{hook_does};
ghost use Rattle.reading.specs.Ending.{refs_ended};
ghost use Rattle.reading.specs.Stages.{end_at as end_at_by, end_clears, end_does, left_as, paused_at, rewritten_does};
ghost use Rattle.reading.specs.State.{without_state};
ghost use Rattle.seq_lines.specs.Causes.{pause_failed};
ghost use Rattle.seq_lines.specs.Keeping.{KeepsPaused};
ghost use Rattle.seq_lines.specs.Refs.{HasBranch, NameRefs};
ghost use Rattle.seq_outside.specs.Doing.{makes, saying};
ghost use Rattle.seq_outside.specs.Follows.{Follows};
ghost use Rattle.seq_step.specs.Causes.{HasLineCause, stop_failed};
ghost use Rattle.seq_step.specs.Keeping.{Keeps};
ghost use Rattle.seq_step.specs.Settings.{MayCommit};
ghost use Rattle.state_text.specs.Texts.{pair_line};

use crate::before::before_end;
use crate::refs::end_all_refs;
use line_steps::{Pause, Place, Setting, Stop};
use seq_base::{Bytes, Id};
use seq_outside::{Clock, Halt, Spawner, Store};
use seq_state::clear_state;
use seq_step::run_hook;
use state_text::{Control, Verb};
use std::alloc::{AllocError, Global};

/// What the hook is told of a pair.
fn push_pair(alloc: Global, old: Id, new: Id, input: &mut Vec<u8>) -> Result<(), AllocError>
    ensures { OnOk result (input.new.items ≡ input.old.items ++ pair_line (old, new)) }
{
    input.extend_from_slice(&old.hex(alloc)?)?;
    input.push(b' ')?;
    input.extend_from_slice(&new.hex(alloc)?)?;
    input.push(b'\n')?;
    Ok(())
}

fn pairs_text(alloc: Global, pairs: &[(Id, Id)]) -> Result<Vec<u8>, AllocError>
    ensures { IfOk result (λ text. text.items ≡ flat_map pair_line pairs.now) }
{
    let mut text = Vec::new(alloc);
    for pair in pairs {
        push_pair(alloc, pair.0, pair.1, &mut text)?;
    }
    Ok(text)
}

fn hook_arguments(alloc: Global) -> Result<Vec<Bytes>, AllocError>
    ensures { IfOk result (λ arguments. arguments.items ≡ codes "rebase" ∷ []) }
{
    let mut arguments = Vec::new(alloc);
    arguments.push(Bytes::from_vec(b"rebase".to_vec(alloc)?))?;
    Ok(arguments)
}

/// The hook is told of each pair.
#[tactic(auto, using(seq_step::proofs::Causing::as_line))]
fn tell<S: Store, P: Spawner<S>, C: Clock>(
    alloc: Global,
    pairs: &[(Id, Id)],
    place: &mut Place,
    store: &mut S,
    spawner: &mut P,
    clock: &mut C,
) -> Result<(), Halt<Stop>>
    ensures follows { S.told → Follows P.ran C.ticked spawner.old clock.old spawner.new clock.new (λ x. x)
        (hook_does (codes "post-rewrite") (codes "rebase" ∷ []) (flat_map pair_line pairs.now))
        (spot_of (S.seen store.old) place.old) result (spot_of (S.seen store.new) place.new) }
    ensures cause { HasLineCause stop_failed result (S.seen store.old) (S.seen store.new) (P.seen spawner.old) (P.seen spawner.new) }
    ensures keeps { Keeps place.old result place.new }
{
    let input = pairs_text(alloc, pairs)?;
    let arguments = hook_arguments(alloc)?;
    run_hook(
        alloc,
        b"post-rewrite",
        &arguments,
        &input,
        place,
        store,
        spawner,
        clock,
    )
}

/// The hook is told of each pair, and not run without one.
fn run_post_rewrite<S: Store, P: Spawner<S>, C: Clock>(
    alloc: Global,
    pairs: &[(Id, Id)],
    place: &mut Place,
    store: &mut S,
    spawner: &mut P,
    clock: &mut C,
) -> Result<(), Halt<Stop>>
    ensures follows { S.told → Follows P.ran C.ticked spawner.old clock.old spawner.new clock.new (λ x. x)
        (rewritten_does pairs.now) (spot_of (S.seen store.old) place.old) result (spot_of (S.seen store.new) place.new) }
    ensures cause { HasLineCause stop_failed result (S.seen store.old) (S.seen store.new) (P.seen spawner.old) (P.seen spawner.new) }
    ensures keeps { Keeps place.old result place.new }
{
    if pairs.is_empty() {
        return Ok(());
    }
    tell(alloc, pairs, place, store, spawner, clock)
}

/// Nothing of the list's state is left.
fn clear<S: Store, P: Spawner<S>, C: Clock>(
    alloc: Global,
    place: &mut Place,
    store: &mut S,
    spawner: &mut P,
    clock: &mut C,
) -> Result<(), Halt<Stop>>
    ensures follows { S.told → Follows P.ran C.ticked spawner.old clock.old spawner.new clock.new (λ x. x)
        (left_as without_state) (spot_of (S.seen store.old) place.old) result (spot_of (S.seen store.new) place.new) }
    ensures cause { HasLineCause stop_failed result (S.seen store.old) (S.seen store.new) (P.seen spawner.old) (P.seen spawner.new) }
    ensures keeps { Keeps place.old result place.new }
{
    clear_state(alloc, Verb::Rebase, store)?;
    Ok(())
}

/// Nothing of the list's state is left, and the hook is run.
#[tactic(auto, unfolding(reading::specs::Stages::end_clears))]
fn clear_and_tell<S: Store, P: Spawner<S>, C: Clock>(
    alloc: Global,
    pairs: &[(Id, Id)],
    place: &mut Place,
    store: &mut S,
    spawner: &mut P,
    clock: &mut C,
) -> Result<(), Halt<Stop>>
    ensures follows { S.told → Follows P.ran C.ticked spawner.old clock.old spawner.new clock.new (λ x. x)
        (end_clears pairs.now) (spot_of (S.seen store.old) place.old) result (spot_of (S.seen store.new) place.new) }
    ensures cause { HasLineCause stop_failed result (S.seen store.old) (S.seen store.new) (P.seen spawner.old) (P.seen spawner.new) }
    ensures keeps { Keeps place.old result place.new }
{
    clear(alloc, place, store, spawner, clock)?;
    run_post_rewrite(alloc, pairs, place, store, spawner, clock)
}

/// The refs are compared and written.
fn end_refs_step<S: Store, P: Spawner<S>, C: Clock>(
    alloc: Global,
    setting: &Setting,
    control: &Control,
    head: Id,
    place: &mut Place,
    store: &mut S,
    spawner: &mut P,
    clock: &mut C,
) -> Result<(), Halt<Stop>>
    requires setting { MayCommit setting.now }
    requires branch { HasBranch control.now }
    requires updates { NameRefs place.old.updates }
    ensures follows { S.told → Follows P.ran C.ticked spawner.old clock.old spawner.new clock.new (λ x. x)
        (makes (refs_ended setting.now control.now head place.old.updates))
        (spot_of (S.seen store.old) place.old) result (spot_of (S.seen store.new) place.new) }
    ensures same { place.new ≡ place.old }
    ensures cause { HasLineCause stop_failed result (S.seen store.old) (S.seen store.new) (P.seen spawner.old) (P.seen spawner.new) }
    ensures keeps { Keeps place.old result place.new }
{
    end_all_refs(
        alloc,
        setting,
        control,
        head,
        place.updates.as_slice(),
        store,
    )
}

/// The refs are written first.
#[tactic(auto, unfolding(reading::specs::Stages::end_at))]
fn end_at<S: Store, P: Spawner<S>, C: Clock>(
    alloc: Global,
    setting: &Setting,
    control: &Control,
    head: Id,
    place: &mut Place,
    store: &mut S,
    spawner: &mut P,
    clock: &mut C,
) -> Result<(), Halt<Stop>>
    requires setting { MayCommit setting.now }
    requires branch { HasBranch control.now }
    requires updates { NameRefs place.old.updates }
    ensures follows { S.told → Follows P.ran C.ticked spawner.old clock.old spawner.new clock.new (λ x. x)
        (end_at_by setting.now control.now head place.old)
        (spot_of (S.seen store.old) place.old) result (spot_of (S.seen store.new) place.new) }
    ensures cause { HasLineCause stop_failed result (S.seen store.old) (S.seen store.new) (P.seen spawner.old) (P.seen spawner.new) }
    ensures keeps { Keeps place.old result place.new }
{
    end_refs_step(alloc, setting, control, head, place, store, spawner, clock)?;
    let pairs = Vec::from_slice(alloc, place.rewritten.as_slice())?;
    clear_and_tell(alloc, &pairs, place, store, spawner, clock)
}

#[tactic(auto, using(seq_step::proofs::Causing::as_line), unfolding(reading::specs::Stages::end_does))]
fn end_list<S: Store, P: Spawner<S>, C: Clock>(
    alloc: Global,
    setting: &Setting,
    control: &Control,
    place: &mut Place,
    store: &mut S,
    spawner: &mut P,
    clock: &mut C,
) -> Result<(), Halt<Stop>>
    requires setting { MayCommit setting.now }
    requires branch { HasBranch control.now }
    requires updates { NameRefs place.old.updates }
    ensures follows { S.told → Follows P.ran C.ticked spawner.old clock.old spawner.new clock.new (λ x. x)
        (end_does setting.now control.now)
        (spot_of (S.seen store.old) place.old) result (spot_of (S.seen store.new) place.new) }
    ensures cause { HasLineCause stop_failed result (S.seen store.old) (S.seen store.new) (P.seen spawner.old) (P.seen spawner.new) }
    ensures keeps { Keeps place.old result place.new }
{
    let head = before_end(alloc, place, store, spawner, clock)?;
    end_at(alloc, setting, control, head, place, store, spawner, clock)
}

/// The end of a list of which so many lines are done: the refs are compared, and all are written or none; nothing of its state is left; and the hook
/// `post-rewrite` is told of each pair.
pub fn end<S: Store, P: Spawner<S>, C: Clock>(
    alloc: Global,
    setting: &Setting,
    control: &Control,
    done: usize,
    place: &mut Place,
    store: &mut S,
    spawner: &mut P,
    clock: &mut C,
) -> Result<(), Halt<Pause>>
    requires setting { MayCommit setting.now }
    requires branch { HasBranch control.now }
    requires updates { NameRefs place.old.updates }
    ensures follows { S.told → Follows P.ran C.ticked spawner.old clock.old spawner.new clock.new (λ x. x)
        (saying (paused_at done) (end_does setting.now control.now))
        (spot_of (S.seen store.old) place.old) result (spot_of (S.seen store.new) place.new) }
    ensures cause { HasLineCause pause_failed result (S.seen store.old) (S.seen store.new) (P.seen spawner.old) (P.seen spawner.new) }
    ensures keeps { KeepsPaused place.old result place.new }
{
    match end_list(alloc, setting, control, place, store, spawner, clock) {
        Ok(()) => Ok(()),
        Err(Halt::Stops(stop)) => Err(Halt::Stops(Pause { stop, done })),
        Err(Halt::Fault) => Err(Halt::Fault),
        Err(Halt::Memory) => Err(Halt::Memory),
    }
}
