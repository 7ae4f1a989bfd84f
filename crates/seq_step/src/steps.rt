//! One line of a todo.

ghost use Rattle.std.specs.Prelude.{◌≡◌, Err};
ghost use Rattle.child_steps.specs.Children.{spot_of};
ghost use Rattle.line_steps.specs.Lines.{exec_does};
ghost use Rattle.line_steps.specs.Picks.{pick_does};
ghost use Rattle.line_steps.specs.Places.{stop_of as stop_of_kind};
ghost use Rattle.line_steps.specs.Steps.{commit_line_does, line_does};
ghost use Rattle.seq_outside.specs.Follows.{Follows};
ghost use Rattle.seq_step.specs.Causes.{HasLineCause, stop_failed};
ghost use Rattle.line_steps.specs.Making.{makers};
ghost use Rattle.seq_step.specs.Keeping.{Keeps};
ghost use Rattle.seq_step.specs.Settings.{MayCommit};

use crate::command::exec;
use crate::picking::pick;
use crate::stop::stop_of;
use line_steps::{Place, Setting, Stop};
use seq_base::Bytes;
use seq_model::StopKind;
use seq_outside::{Clock, Halt, Spawner, Store};
use state_text::Options;
use std::alloc::Global;
use todo_text::{Line, PickKind, TodoKind};

fn not_built() -> Result<(), Halt<Stop>>
    ensures { result ≡ Err (Halt.Stops (stop_of_kind (StopKind.TodoBad 0 TodoKind.NotBuilt))) }
{
    Err(Halt::Stops(stop_of(StopKind::TodoBad {
        line: 0,
        kind: TodoKind::NotBuilt,
    })))
}

/// Runs the command of a line.
fn exec_line<S: Store, P: Spawner<S>, C: Clock>(
    alloc: Global,
    again: bool,
    command: &Bytes,
    place: &mut Place,
    store: &mut S,
    spawner: &mut P,
    clock: &mut C,
) -> Result<(), Halt<Stop>>
    ensures follows { S.told → Follows P.ran C.ticked spawner.old clock.old spawner.new clock.new (λ x. x)
        (exec_does again command.now) (spot_of (S.seen store.old) place.old) result (spot_of (S.seen store.new) place.new) }
    ensures cause { HasLineCause stop_failed result (S.seen store.old) (S.seen store.new) (P.seen spawner.old) (P.seen spawner.new) }
    ensures keeps { Keeps place.old result place.new }
{
    exec(
        alloc,
        again,
        command.as_slice(),
        place,
        store,
        spawner,
        clock,
    )
}

/// Picks the commit that a line names.
fn pick_rev<S: Store, P: Spawner<S>, C: Clock>(
    alloc: Global,
    setting: &Setting,
    options: &Options,
    rev: &Bytes,
    place: &mut Place,
    store: &mut S,
    spawner: &mut P,
    clock: &mut C,
) -> Result<(), Halt<Stop>>
    requires setting { MayCommit setting.now }
    ensures follows { S.told → Follows P.ran C.ticked spawner.old clock.old spawner.new clock.new (λ x. x)
        (pick_does makers setting.now options.now rev.now) (spot_of (S.seen store.old) place.old) result (spot_of (S.seen store.new) place.new) }
    ensures cause { HasLineCause stop_failed result (S.seen store.old) (S.seen store.new) (P.seen spawner.old) (P.seen spawner.new) }
    ensures keeps { Keeps place.old result place.new }
{
    pick(
        alloc,
        setting,
        options,
        rev.as_slice(),
        place,
        store,
        spawner,
        clock,
    )
}

/// What a line does that names a commit.
fn commit_line<S: Store, P: Spawner<S>, C: Clock>(
    alloc: Global,
    setting: &Setting,
    options: &Options,
    kind: PickKind,
    rev: &Bytes,
    place: &mut Place,
    store: &mut S,
    spawner: &mut P,
    clock: &mut C,
) -> Result<(), Halt<Stop>>
    requires setting { MayCommit setting.now }
    ensures follows { S.told → Follows P.ran C.ticked spawner.old clock.old spawner.new clock.new (λ x. x)
        (commit_line_does makers setting.now options.now kind rev.now)
        (spot_of (S.seen store.old) place.old) result (spot_of (S.seen store.new) place.new) }
    ensures cause { HasLineCause stop_failed result (S.seen store.old) (S.seen store.new) (P.seen spawner.old) (P.seen spawner.new) }
    ensures keeps { Keeps place.old result place.new }
{
    match kind {
        PickKind::Pick => { pick_rev(alloc, setting, options, rev, place, store, spawner, clock) }
        PickKind::Drop => Ok(()),
        PickKind::Reword => not_built(),
        PickKind::Edit => not_built(),
        PickKind::Squash => not_built(),
        PickKind::Fixup => not_built(),
        PickKind::FixupKeep => not_built(),
        PickKind::FixupEdit => not_built(),
        PickKind::Revert => not_built(),
    }
}

/// Does what a line of a todo says (git-rebase(1), "INTERACTIVE MODE"). It stops the list as the line does; a line of a kind that is not built
/// stops it with TodoBad.
#[tactic(auto, unfolding(line_steps::specs::Steps::line_does, line_steps::specs::Lines::break_does))]
pub fn step<S: Store, P: Spawner<S>, C: Clock>(
    alloc: Global,
    setting: &Setting,
    options: &Options,
    line: &Line,
    place: &mut Place,
    store: &mut S,
    spawner: &mut P,
    clock: &mut C,
) -> Result<(), Halt<Stop>>
    requires setting { MayCommit setting.now }
    ensures follows { S.told → Follows P.ran C.ticked spawner.old clock.old spawner.new clock.new (λ x. x)
        (line_does makers setting.now options.now line.now)
        (spot_of (S.seen store.old) place.old) result (spot_of (S.seen store.new) place.new) }
    ensures cause { HasLineCause stop_failed result (S.seen store.old) (S.seen store.new) (P.seen spawner.old) (P.seen spawner.new) }
    ensures keeps { Keeps place.old result place.new }
{
    match line {
        Line::Pick { kind, rev, .. } => commit_line(
            alloc, setting, options, *kind, rev, place, store, spawner, clock,
        ),
        Line::Exec { command } => exec_line(
            alloc,
            options.reschedule,
            command,
            place,
            store,
            spawner,
            clock,
        ),
        Line::Break => Err(Halt::Stops(stop_of(StopKind::Break))),
        Line::Noop => Ok(()),
        Line::Label { .. } => not_built(),
        Line::Reset { .. } => not_built(),
        Line::Merge { .. } => not_built(),
        Line::UpdateRef { .. } => not_built(),
    }
}
