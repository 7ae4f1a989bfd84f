//! Children of a line, and hooks.

ghost use Rattle.std.specs.Prelude.{◌≡◌, IfOk, true};
ghost use Rattle.child_jobs.specs.Jobs.{hook_of};
ghost use Rattle.child_steps.specs.Causes.{HasStepCause, NeverStops};
ghost use Rattle.child_steps.specs.Children.{hook_path as hook_path_of, spot_of};
ghost use Rattle.line_steps.specs.Hooks.{has_hook as has_hook_in, hook_does, hook_ends, job_does};
ghost use Rattle.seq_base.specs.StorePaths.{IsStorePath};
ghost use Rattle.seq_outside.specs.Causes.{Rose};
ghost use Rattle.seq_outside.specs.Follows.{Follows};
ghost use Rattle.seq_outside.specs.Halts.{Gives, halt_cause};
ghost use Rattle.seq_outside.specs.Seen.{Reads};
ghost use Rattle.seq_step.specs.Causes.{RunsNone, stop_failed};
ghost use Rattle.seq_step.specs.Keeping.{Keeps};

use child_jobs::hook_job;
use child_steps::ChildEnd;
use line_steps::{Place, Stop};
use seq_base::Bytes;
use seq_outside::{ChildError, Clock, Exit, Halt, Job, Spawner, Store};
use std::alloc::{AllocError, Global};

/// Runs a child, whatever it ends with. One that could not be run counts as killed.
#[tactic(auto, unfolding(line_steps::specs::Hooks::job_does), using(seq_outside::proofs::Seeing::sees_child))]
pub fn run_job<S: Store, P: Spawner<S>, C: Clock>(
    alloc: Global,
    job: &Job,
    place: &mut Place,
    store: &mut S,
    spawner: &mut P,
    clock: &mut C,
) -> Result<ChildEnd, Halt<Stop>>
    ensures follows { S.told → Follows P.ran C.ticked spawner.old clock.old spawner.new clock.new (λ end. end)
        (job_does job.now) (spot_of (S.seen store.old) place.old) result (spot_of (S.seen store.new) place.new) }
    ensures cause { HasStepCause S.told stop_failed result (S.seen store.old) (S.seen store.new) (P.seen spawner.old) (P.seen spawner.new) }
    ensures failed { IfOk result (λ end. end.failed ≡ true → Rose (P.seen spawner.old).faults (P.seen spawner.new).faults) }
    ensures never_stops { NeverStops result }
    ensures keeps { Keeps place.old result place.new }
{
    match spawner.run(alloc, store, job) {
        Ok(exit) => Ok(ChildEnd {
            exit,
            failed: false,
        }),
        Err(ChildError::Failed) => Ok(ChildEnd {
            exit: Exit::Killed,
            failed: true,
        }),
        Err(ChildError::Store) => Err(Halt::Fault),
        Err(ChildError::Memory) => Err(Halt::Memory),
    }
}

fn hook_path(alloc: Global, name: &[u8]) -> Result<Vec<u8>, AllocError>
    ensures { IfOk result (λ path. path.items ≡ hook_path_of name.now) }
{
    let mut path = b".git/hooks/".to_vec(alloc)?;
    path.extend_from_slice(name)?;
    Ok(path)
}

/// Whether a hook is there.
#[tactic(auto, unfolding(line_steps::specs::Hooks::has_hook))]
fn has_hook<S: Store>(alloc: Global, name: &[u8], store: &mut S) -> Result<bool, Halt<Stop>>
    requires { IsStorePath (hook_path_of name.now) }
    ensures gives { S.told → Gives (λ there. there) result (has_hook_in name.now (S.seen store.old).content) }
    ensures none { RunsNone result }
    ensures reads { Reads S.told halt_cause result (S.seen store.old) (S.seen store.new) }
{
    let path = hook_path(alloc, name)?;
    match store.get(alloc, &path)? {
        Some(_) => Ok(true),
        None => Ok(false),
    }
}

/// Runs a hook, and notes that one has ended.
#[tactic(auto, unfolding(line_steps::specs::Hooks::hook_ends))]
fn end_hook<S: Store, P: Spawner<S>, C: Clock>(
    alloc: Global,
    job: &Job,
    place: &mut Place,
    store: &mut S,
    spawner: &mut P,
    clock: &mut C,
) -> Result<(), Halt<Stop>>
    ensures follows { S.told → Follows P.ran C.ticked spawner.old clock.old spawner.new clock.new (λ x. x)
        (hook_ends job.now) (spot_of (S.seen store.old) place.old) result (spot_of (S.seen store.new) place.new) }
    ensures cause { HasStepCause S.told stop_failed result (S.seen store.old) (S.seen store.new) (P.seen spawner.old) (P.seen spawner.new) }
    ensures keeps { Keeps place.old result place.new }
{
    let _end = run_job(alloc, job, place, store, spawner, clock)?;
    place.unseen = true;
    Ok(())
}

/// Runs a hook that is there.
fn start_hook<S: Store, P: Spawner<S>, C: Clock>(
    alloc: Global,
    name: &[u8],
    arguments: &[Bytes],
    input: &[u8],
    place: &mut Place,
    store: &mut S,
    spawner: &mut P,
    clock: &mut C,
) -> Result<(), Halt<Stop>>
    ensures follows { S.told → Follows P.ran C.ticked spawner.old clock.old spawner.new clock.new (λ x. x)
        (hook_ends (hook_of name.now arguments.now input.now)) (spot_of (S.seen store.old) place.old) result (spot_of (S.seen store.new) place.new) }
    ensures cause { HasStepCause S.told stop_failed result (S.seen store.old) (S.seen store.new) (P.seen spawner.old) (P.seen spawner.new) }
    ensures keeps { Keeps place.old result place.new }
{
    let job = hook_job(alloc, name, arguments, input)?;
    end_hook(alloc, &job, place, store, spawner, clock)
}

/// Runs a hook where it is there, whatever its exit (githooks(5)).
#[tactic(auto, unfolding(line_steps::specs::Hooks::hook_does))]
pub fn run_hook<S: Store, P: Spawner<S>, C: Clock>(
    alloc: Global,
    name: &[u8],
    arguments: &[Bytes],
    input: &[u8],
    place: &mut Place,
    store: &mut S,
    spawner: &mut P,
    clock: &mut C,
) -> Result<(), Halt<Stop>>
    requires { IsStorePath (hook_path_of name.now) }
    ensures follows { S.told → Follows P.ran C.ticked spawner.old clock.old spawner.new clock.new (λ x. x)
        (hook_does name.now arguments.now input.now) (spot_of (S.seen store.old) place.old) result (spot_of (S.seen store.new) place.new) }
    ensures cause { HasStepCause S.told stop_failed result (S.seen store.old) (S.seen store.new) (P.seen spawner.old) (P.seen spawner.new) }
    ensures keeps { Keeps place.old result place.new }
{
    if has_hook(alloc, name, store)? {
        return start_hook(alloc, name, arguments, input, place, store, spawner, clock);
    }
    Ok(())
}
