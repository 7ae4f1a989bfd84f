//! The lines of a list, one after another.

ghost use Rattle.std.specs.Prelude.{◌≡◌, ◌+◌, ◌<◌, ◌≤◌, ◌^◌, length};
ghost use Rattle.child_steps.specs.Children.{spot_of};
ghost use Rattle.line_steps.specs.Steps.{line_does};
ghost use Rattle.reading.specs.Stages.{before_line_does, end_does, line_goes, lines_do, paused_after, paused_at};
ghost use Rattle.seq_lines.specs.Causes.{pause_failed};
ghost use Rattle.seq_outside.specs.Doing.{saying};
ghost use Rattle.seq_outside.specs.Follows.{Follows};
ghost use Rattle.line_steps.specs.Making.{makers};
ghost use Rattle.seq_lines.specs.Keeping.{KeepsPaused};
ghost use Rattle.seq_lines.specs.Refs.{HasBranch, NameRefs};
ghost use Rattle.seq_step.specs.Causes.{HasLineCause};
ghost use Rattle.seq_step.specs.Settings.{MayCommit};

use crate::before::before_line;
use crate::end::end;
use line_steps::{Pause, Place, Setting};
use seq_outside::{Clock, Halt, Spawner, Store};
use seq_step::step;
use state_text::{Control, Options};
use std::alloc::Global;
use todo_text::Line;

/// What comes before a line, after so many others.
#[tactic(auto, using(seq_step::proofs::Causing::as_line))]
fn before_after<S: Store, P: Spawner<S>, C: Clock>(
    alloc: Global,
    done: usize,
    place: &mut Place,
    store: &mut S,
    spawner: &mut P,
    clock: &mut C,
) -> Result<(), Halt<Pause>>
    ensures follows { S.told → Follows P.ran C.ticked spawner.old clock.old spawner.new clock.new (λ x. x)
        (saying (paused_at done) before_line_does) (spot_of (S.seen store.old) place.old) result (spot_of (S.seen store.new) place.new) }
    ensures cause { HasLineCause pause_failed result (S.seen store.old) (S.seen store.new) (P.seen spawner.old) (P.seen spawner.new) }
    ensures keeps { KeepsPaused place.old result place.new }
{
    match before_line(alloc, place, store, spawner, clock) {
        Ok(()) => Ok(()),
        Err(Halt::Stops(stop)) => Err(Halt::Stops(Pause { stop, done })),
        Err(Halt::Fault) => Err(Halt::Fault),
        Err(Halt::Memory) => Err(Halt::Memory),
    }
}

/// What a line does, after so many others. It is done unless it is put back.
fn step_after<S: Store, P: Spawner<S>, C: Clock>(
    alloc: Global,
    setting: &Setting,
    options: &Options,
    line: &Line,
    done: usize,
    place: &mut Place,
    store: &mut S,
    spawner: &mut P,
    clock: &mut C,
) -> Result<(), Halt<Pause>>
    requires done { done + 1 < 2 ^ 64 }
    requires setting { MayCommit setting.now }
    ensures follows { S.told → Follows P.ran C.ticked spawner.old clock.old spawner.new clock.new (λ x. x)
        (saying (paused_after done) (line_does makers setting.now options.now line.now))
        (spot_of (S.seen store.old) place.old) result (spot_of (S.seen store.new) place.new) }
    ensures cause { HasLineCause pause_failed result (S.seen store.old) (S.seen store.new) (P.seen spawner.old) (P.seen spawner.new) }
    ensures keeps { KeepsPaused place.old result place.new }
{
    match step(alloc, setting, options, line, place, store, spawner, clock) {
        Ok(()) => Ok(()),
        Err(Halt::Stops(stop)) => {
            let done = if stop.put_back { done } else { done + 1 };
            Err(Halt::Stops(Pause { stop, done }))
        }
        Err(Halt::Fault) => Err(Halt::Fault),
        Err(Halt::Memory) => Err(Halt::Memory),
    }
}

/// A line, with what comes before it.
#[tactic(auto, unfolding(reading::specs::Stages::line_goes))]
fn do_line<S: Store, P: Spawner<S>, C: Clock>(
    alloc: Global,
    setting: &Setting,
    options: &Options,
    line: &Line,
    done: usize,
    place: &mut Place,
    store: &mut S,
    spawner: &mut P,
    clock: &mut C,
) -> Result<(), Halt<Pause>>
    requires done { done + 1 < 2 ^ 64 }
    requires setting { MayCommit setting.now }
    ensures follows { S.told → Follows P.ran C.ticked spawner.old clock.old spawner.new clock.new (λ x. x)
        (line_goes setting.now options.now line.now done)
        (spot_of (S.seen store.old) place.old) result (spot_of (S.seen store.new) place.new) }
    ensures cause { HasLineCause pause_failed result (S.seen store.old) (S.seen store.new) (P.seen spawner.old) (P.seen spawner.new) }
    ensures keeps { KeepsPaused place.old result place.new }
{
    before_after(alloc, done, place, store, spawner, clock)?;
    step_after(
        alloc, setting, options, line, done, place, store, spawner, clock,
    )
}

/// Works through the lines, to a stop or to the end of the list.
#[tactic(auto, unfolding(reading::specs::Stages::lines_do))]
pub fn run_lines<S: Store, P: Spawner<S>, C: Clock>(
    alloc: Global,
    setting: &Setting,
    control: &Control,
    lines: &[Line],
    place: &mut Place,
    store: &mut S,
    spawner: &mut P,
    clock: &mut C,
) -> Result<(), Halt<Pause>>
    requires setting { MayCommit setting.now }
    requires branch { HasBranch control.now }
    requires updates { NameRefs place.old.updates }
    ensures follows { S.told → Follows P.ran C.ticked spawner.old clock.old spawner.new clock.new (λ x. x)
        (lines_do setting.now control.now lines.now 0)
        (spot_of (S.seen store.old) place.old) result (spot_of (S.seen store.new) place.new) }
    ensures cause { HasLineCause pause_failed result (S.seen store.old) (S.seen store.new) (P.seen spawner.old) (P.seen spawner.new) }
    ensures keeps { KeepsPaused place.old result place.new }
{
    let mut left = lines;
    let mut done = 0;
    while let [line, after @ ..] = left {
        do_line(
            alloc,
            setting,
            &control.options,
            line,
            done,
            place,
            store,
            spawner,
            clock,
        )?;
        left = after;
        done += 1;
    }
    end(alloc, setting, control, done, place, store, spawner, clock)
}
