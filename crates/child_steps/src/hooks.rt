//! Hooks.

ghost use Rattle.std.specs.Prelude.{◌≡◌, [], IfOk};
ghost use Rattle.child_jobs.specs.Jobs.{hook_of};
ghost use Rattle.child_steps.specs.Causes.{HasStepCause, NeverStops, has_failed};
ghost use Rattle.child_steps.specs.Children.{asked, has_hook as has_hook_in, hook_asked, hook_path as hook_path_of, spot_of};
ghost use Rattle.seq_base.specs.StorePaths.{IsStorePath};
ghost use Rattle.seq_outside.specs.Follows.{Follows};
ghost use Rattle.seq_outside.specs.Halts.{Gives, halt_cause};
ghost use Rattle.seq_outside.specs.Seen.{Reads};

use crate::child::{ChildEnd, ask_child};
use child_jobs::hook_job;
use seq_base::Bytes;
use seq_outside::{Clock, Halt, Spawner, Store};
use std::alloc::{AllocError, Global};

fn hook_path(alloc: Global, name: &[u8]) -> Result<Vec<u8>, AllocError>
    ensures { IfOk result (λ path. path.items ≡ hook_path_of name.now) }
{
    let mut path = b".git/hooks/".to_vec(alloc)?;
    path.extend_from_slice(name)?;
    Ok(path)
}

/// Whether a hook is there.
#[tactic(auto, unfolding(crate::specs::Children::has_hook))]
pub fn has_hook<S: Store>(alloc: Global, name: &[u8], store: &mut S) -> Result<bool, Halt<ChildEnd>>
    requires { IsStorePath (hook_path_of name.now) }
    ensures gives { S.told → Gives (λ there. there) result (has_hook_in name.now (S.seen store.old).content) }
    ensures never_stops { NeverStops result }
    ensures reads { Reads S.told halt_cause result (S.seen store.old) (S.seen store.new) }
{
    let path = hook_path(alloc, name)?;
    match store.get(alloc, &path)? {
        Some(_) => Ok(true),
        None => Ok(false),
    }
}

/// Runs a hook that has to end with 0.
fn run_hook<S: Store, P: Spawner<S>, C: Clock>(
    alloc: Global,
    name: &[u8],
    arguments: &[Bytes],
    ran: &mut bool,
    store: &mut S,
    spawner: &mut P,
    clock: &mut C,
) -> Result<(), Halt<ChildEnd>>
    ensures follows { S.told → Follows P.ran C.ticked spawner.old clock.old spawner.new clock.new (λ x. x)
        (asked (hook_of name.now arguments.now [])) (spot_of (S.seen store.old) ran.old) result (spot_of (S.seen store.new) ran.new) }
    ensures cause { HasStepCause S.told has_failed result (S.seen store.old) (S.seen store.new) (P.seen spawner.old) (P.seen spawner.new) }
{
    let job = hook_job(alloc, name, arguments, b"")?;
    ask_child(alloc, &job, ran, store, spawner, clock)
}

/// Runs a hook that has to end with 0, where it is there (githooks(5)); where it does not, how it ended is the reason to stop.
#[tactic(auto, unfolding(crate::specs::Children::hook_asked))]
pub fn ask_hook<S: Store, P: Spawner<S>, C: Clock>(
    alloc: Global,
    name: &[u8],
    arguments: &[Bytes],
    ran: &mut bool,
    store: &mut S,
    spawner: &mut P,
    clock: &mut C,
) -> Result<(), Halt<ChildEnd>>
    requires { IsStorePath (hook_path_of name.now) }
    ensures follows { S.told → Follows P.ran C.ticked spawner.old clock.old spawner.new clock.new (λ x. x)
        (hook_asked name.now arguments.now) (spot_of (S.seen store.old) ran.old) result (spot_of (S.seen store.new) ran.new) }
    ensures cause { HasStepCause S.told has_failed result (S.seen store.old) (S.seen store.new) (P.seen spawner.old) (P.seen spawner.new) }
{
    if has_hook(alloc, name, store)? {
        run_hook(alloc, name, arguments, ran, store, spawner, clock)?;
        return Ok(());
    }
    Ok(())
}
