//! The line `exec`.

ghost use Rattle.std.specs.Prelude.{◌≡◌, IfOk, true};
ghost use Rattle.child_jobs.specs.Jobs.{exec_of};
ghost use Rattle.child_steps.specs.Causes.{HasStepCause};
ghost use Rattle.child_steps.specs.Children.{spot_of};
ghost use Rattle.line_steps.specs.Heads.{clean_at};
ghost use Rattle.line_steps.specs.Hooks.{job_does};
ghost use Rattle.line_steps.specs.Lines.{exec_does, exec_failed as exec_failed_by, exec_left as exec_left_by, exec_looks, exec_takes};
ghost use Rattle.seq_model.specs.Refusing.{told_by};
ghost use Rattle.seq_outside.specs.Causes.{Rose};
ghost use Rattle.seq_outside.specs.Follows.{Follows};
ghost use Rattle.seq_outside.specs.Halts.{Gives, for_reason, halt_cause};
ghost use Rattle.seq_outside.specs.Seen.{Reads};
ghost use Rattle.seq_step.specs.Causes.{RunsNone, stop_failed};
ghost use Rattle.seq_step.specs.Keeping.{Keeps};

use crate::clean::stop_unclean;
use crate::head::head_or_blocked;
use crate::job::run_job;
use crate::stop::{blocked, stop_of};
use child_jobs::exec_job;
use child_steps::{ChildEnd, is_good};
use line_steps::{Place, Stop, Unclean};
use seq_base::Id;
use seq_model::StopKind;
use seq_outside::{Clock, Halt, Spawner, Store};
use std::alloc::Global;

fn exec_failed(again: bool, child: ChildEnd) -> Stop
    ensures { result ≡ exec_failed_by again child }
{
    Stop {
        kind: StopKind::ExecFailed { exit: child.exit },
        put_back: child.failed || again,
        pending: None,
        commit: None,
        failed: child.failed,
    }
}

fn exec_left(unclean: Unclean) -> Stop
    ensures { result ≡ exec_left_by unclean }
{
    match unclean {
        Unclean::IsUnread(why) => blocked(why),
        Unclean::IsChanged(path) => stop_of(StopKind::ExecDirty { path }),
    }
}

fn left_halt(halt: Halt<Unclean>) -> Halt<Stop>
    ensures { result ≡ told_by exec_left_by halt }
{
    match halt {
        Halt::Stops(unclean) => Halt::Stops(exec_left(unclean)),
        Halt::Fault => Halt::Fault,
        Halt::Memory => Halt::Memory,
    }
}

/// Stops where the command left index, tracked files and HEAD's commit unlike each other.
fn stop_left<S: Store>(alloc: Global, head: Id, store: &mut S) -> Result<(), Halt<Stop>>
    ensures gives { S.told → Gives (λ x. x) result (for_reason exec_left_by (clean_at (S.seen store.old).content head)) }
    ensures none { RunsNone result }
    ensures reads { Reads S.told halt_cause result (S.seen store.old) (S.seen store.new) }
{
    match stop_unclean(alloc, head, store) {
        Ok(()) => Ok(()),
        Err(halt) => Err(left_halt(halt)),
    }
}

#[tactic(auto, unfolding(line_steps::specs::Lines::exec_takes))]
fn take_head<S: Store, P: Spawner<S>, C: Clock>(
    alloc: Global,
    head: Id,
    place: &mut Place,
    store: &mut S,
    spawner: &mut P,
    clock: &mut C,
) -> Result<(), Halt<Stop>>
    ensures follows { S.told → Follows P.ran C.ticked spawner.old clock.old spawner.new clock.new (λ x. x)
        (exec_takes head) (spot_of (S.seen store.old) place.old) result (spot_of (S.seen store.new) place.new) }
    ensures cause { HasStepCause S.told stop_failed result (S.seen store.old) (S.seen store.new) (P.seen spawner.old) (P.seen spawner.new) }
    ensures keeps { Keeps place.old result place.new }
{
    stop_left(alloc, head, store)?;
    place.head = head;
    Ok(())
}

/// Looks at what the command left, and takes HEAD as it is.
#[tactic(auto, unfolding(line_steps::specs::Lines::exec_looks))]
fn look<S: Store, P: Spawner<S>, C: Clock>(
    alloc: Global,
    place: &mut Place,
    store: &mut S,
    spawner: &mut P,
    clock: &mut C,
) -> Result<(), Halt<Stop>>
    ensures follows { S.told → Follows P.ran C.ticked spawner.old clock.old spawner.new clock.new (λ x. x)
        exec_looks (spot_of (S.seen store.old) place.old) result (spot_of (S.seen store.new) place.new) }
    ensures cause { HasStepCause S.told stop_failed result (S.seen store.old) (S.seen store.new) (P.seen spawner.old) (P.seen spawner.new) }
    ensures keeps { Keeps place.old result place.new }
{
    let head = head_or_blocked(alloc, store)?;
    take_head(alloc, head, place, store, spawner, clock)
}

/// Runs the command.
fn run_command<S: Store, P: Spawner<S>, C: Clock>(
    alloc: Global,
    command: &[u8],
    place: &mut Place,
    store: &mut S,
    spawner: &mut P,
    clock: &mut C,
) -> Result<ChildEnd, Halt<Stop>>
    ensures follows { S.told → Follows P.ran C.ticked spawner.old clock.old spawner.new clock.new (λ end. end)
        (job_does (exec_of command.now)) (spot_of (S.seen store.old) place.old) result (spot_of (S.seen store.new) place.new) }
    ensures cause { HasStepCause S.told stop_failed result (S.seen store.old) (S.seen store.new) (P.seen spawner.old) (P.seen spawner.new) }
    ensures failed { IfOk result (λ end. end.failed ≡ true → Rose (P.seen spawner.old).faults (P.seen spawner.new).faults) }
    ensures keeps { Keeps place.old result place.new }
{
    let job = exec_job(alloc, command)?;
    run_job(alloc, &job, place, store, spawner, clock)
}

/// Runs a command (git-rebase(1), "--exec"). Where its exit is not 0 the list stops, and the line is put back where `again` says so or the
/// command could not be run. With exit 0 it stops where index, tracked files and HEAD's commit are not the same then; HEAD is taken as it is.
#[tactic(auto, unfolding(line_steps::specs::Lines::exec_does))]
pub fn exec<S: Store, P: Spawner<S>, C: Clock>(
    alloc: Global,
    again: bool,
    command: &[u8],
    place: &mut Place,
    store: &mut S,
    spawner: &mut P,
    clock: &mut C,
) -> Result<(), Halt<Stop>>
    ensures follows { S.told → Follows P.ran C.ticked spawner.old clock.old spawner.new clock.new (λ x. x)
        (exec_does again command.now) (spot_of (S.seen store.old) place.old) result (spot_of (S.seen store.new) place.new) }
    ensures cause { HasStepCause S.told stop_failed result (S.seen store.old) (S.seen store.new) (P.seen spawner.old) (P.seen spawner.new) }
    ensures keeps { Keeps place.old result place.new }
{
    let child = run_command(alloc, command, place, store, spawner, clock)?;
    if !is_good(child.exit) {
        return Err(Halt::Stops(exec_failed(again, child)));
    }
    look(alloc, place, store, spawner, clock)
}
