//! A child, and how it ended.

ghost use Rattle.std.specs.Prelude.{◌≡◌, IfOk, true};
ghost use Rattle.child_steps.specs.Causes.{HasStepCause, NeverStops, has_failed};
ghost use Rattle.child_steps.specs.Children.{asked, child_does, is_good as is_good_exit, spot_of};
ghost use Rattle.seq_outside.specs.Causes.{Rose};
ghost use Rattle.seq_outside.specs.Follows.{Follows};

use seq_outside::{ChildError, Clock, Exit, Halt, Job, Spawner, Store};
use std::alloc::Global;

/// How a child ended. One that could not be run counts as killed.
#[derive(Clone, Copy, Debug, PartialEq, Eq, Drop)]
pub struct ChildEnd {
    pub exit: Exit,
    /// It could not be run.
    pub failed: bool,
}

/// Whether a child ended with status 0.
pub fn is_good(exit: Exit) -> bool
    ensures { result ≡ is_good_exit exit }
{
    match exit {
        Exit::Code(n) => n == 0,
        Exit::Killed => false,
    }
}

/// Runs a child, whatever it ends with.
#[tactic(auto, unfolding(crate::specs::Children::child_does), using(seq_outside::proofs::Seeing::sees_child))]
pub fn run_child<S: Store, P: Spawner<S>, C: Clock>(
    alloc: Global,
    job: &Job,
    ran: &mut bool,
    store: &mut S,
    spawner: &mut P,
    clock: &mut C,
) -> Result<ChildEnd, Halt<ChildEnd>>
    ensures follows { S.told → Follows P.ran C.ticked spawner.old clock.old spawner.new clock.new (λ end. end)
        (child_does job.now) (spot_of (S.seen store.old) ran.old) result (spot_of (S.seen store.new) ran.new) }
    ensures cause { HasStepCause S.told has_failed result (S.seen store.old) (S.seen store.new) (P.seen spawner.old) (P.seen spawner.new) }
    ensures failed { IfOk result (λ end. end.failed ≡ true → Rose (P.seen spawner.old).faults (P.seen spawner.new).faults) }
    ensures never_stops { NeverStops result }
{
    match spawner.run(alloc, store, job) {
        Ok(exit) => {
            *ran = true;
            Ok(ChildEnd {
                exit,
                failed: false,
            })
        }
        Err(ChildError::Failed) => {
            *ran = true;
            Ok(ChildEnd {
                exit: Exit::Killed,
                failed: true,
            })
        }
        Err(ChildError::Store) => Err(Halt::Fault),
        Err(ChildError::Memory) => Err(Halt::Memory),
    }
}

/// Runs a child that has to end with 0; where it does not, how it ended is the reason to stop.
#[tactic(auto, unfolding(crate::specs::Children::asked))]
pub fn ask_child<S: Store, P: Spawner<S>, C: Clock>(
    alloc: Global,
    job: &Job,
    ran: &mut bool,
    store: &mut S,
    spawner: &mut P,
    clock: &mut C,
) -> Result<(), Halt<ChildEnd>>
    ensures follows { S.told → Follows P.ran C.ticked spawner.old clock.old spawner.new clock.new (λ x. x)
        (asked job.now) (spot_of (S.seen store.old) ran.old) result (spot_of (S.seen store.new) ran.new) }
    ensures cause { HasStepCause S.told has_failed result (S.seen store.old) (S.seen store.new) (P.seen spawner.old) (P.seen spawner.new) }
{
    let child = run_child(alloc, job, ran, store, spawner, clock)?;
    if !is_good(child.exit) {
        return Err(Halt::Stops(child));
    }
    Ok(())
}
