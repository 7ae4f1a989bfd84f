//! A commit that is still to be made.

ghost use Rattle.std.specs.Prelude.{◌≡◌, IfOk};
ghost use Rattle.child_steps.specs.Causes.{HasStepCause};
ghost use Rattle.child_steps.specs.Children.{spot_of};
ghost use Rattle.commit_maker.specs.Causes.{stop_failed as make_failed};
ghost use Rattle.commit_maker.specs.Commits.{IsAuthor};
ghost use Rattle.ident_text.specs.ReadIdents.{whole_ident_from};
ghost use Rattle.line_steps.specs.Picks.{at_unmade as at_unmade_of, pending_of as pending_of_pick, stop_with as stop_with_pending};
ghost use Rattle.ref_text.specs.ReadHeads.{ok_of};
ghost use Rattle.state_text.specs.Controls.{IsPending};
ghost use Rattle.seq_outside.specs.Doing.{stops};
ghost use Rattle.seq_outside.specs.Follows.{Follows};
ghost use Rattle.seq_step.specs.Causes.{stop_failed};
ghost use Rattle.seq_step.specs.Finding.{IsPicked, picked_is};
ghost use Rattle.seq_step.specs.Keeping.{CanBeKept, Keeps};

use crate::finding::Picked;
use crate::stop::lacked_at;
use commit_maker::MakeStop;
use ident_text::{Ident, IdentFault, parse_ident};
use line_steps::{Place, Stop};
use seq_base::Bytes;
use seq_model::StopKind;
use seq_outside::{Clock, Halt, Spawner, Store};
use state_text::{Form, Pending};
use std::alloc::{AllocError, Global};

/// Who wrote a commit, as its text reads.
#[tactic(auto, using(crate::proofs::Authors::author_is, crate::proofs::Authors::no_author))]
pub fn author_of(alloc: Global, text: &[u8]) -> Result<Option<Ident>, AllocError>
    ensures author { IfOk result (λ author. author ≡ ok_of (whole_ident_from text.now)) }
    ensures value { IfOk result IsAuthor }
{
    match parse_ident(alloc, text) {
        Ok(ident) => Ok(Some(ident)),
        Err(IdentFault::Bad { .. }) => Ok(None),
        Err(IdentFault::Memory) => Err(AllocError),
    }
}

pub fn copy_of_any(text: &Option<Bytes>) -> Result<Option<Bytes>, AllocError>
    ensures { IfOk result (λ copy. copy ≡ text.now) }
{
    match text {
        Some(text) => Ok(Some(text.clone()?)),
        None => Ok(None),
    }
}

/// The commit, as it is still to be made.
fn pending_of(alloc: Global, edit: bool, pick: &Picked) -> Result<Pending, AllocError>
    requires pick { IsPicked pick.now }
    ensures value { IfOk result IsPending }
    ensures pending { IfOk result (λ pending. pending ≡ pending_of_pick edit (picked_is pick.now)) }
{
    let author = author_of(alloc, pick.commit.author.as_slice())?;
    Ok(Pending {
        form: Form::New,
        edit,
        author,
        encoding: copy_of_any(&pick.commit.encoding)?,
        message: pick.commit.message.clone()?,
    })
}

/// The line is done, and its commit pending.
pub fn stop_with(
    alloc: Global,
    kind: StopKind,
    edit: bool,
    pick: &Picked,
) -> Result<Stop, AllocError>
    requires pick { IsPicked pick.now }
    ensures stop { IfOk result (λ stop. stop ≡ stop_with_pending kind edit (picked_is pick.now)) }
    ensures kept { IfOk result CanBeKept }
{
    Ok(Stop {
        kind,
        put_back: false,
        pending: Some(pending_of(alloc, edit, pick)?),
        commit: Some(pick.id),
        failed: false,
    })
}

/// The list stops with the commit pending.
#[tactic(auto, using(crate::proofs::Halting::stopped_so))]
pub fn stop_pending<S: Store, P: Spawner<S>, C: Clock>(
    alloc: Global,
    kind: StopKind,
    edit: bool,
    pick: &Picked,
    place: &mut Place,
    store: &mut S,
    spawner: &mut P,
    clock: &mut C,
) -> Result<(), Halt<Stop>>
    requires pick { IsPicked pick.now }
    ensures follows { S.told → Follows P.ran C.ticked spawner.old clock.old spawner.new clock.new (λ x. x)
        (stops (stop_with_pending kind edit (picked_is pick.now)))
        (spot_of (S.seen store.old) place.old) result (spot_of (S.seen store.new) place.new) }
    ensures cause { HasStepCause S.told stop_failed result (S.seen store.old) (S.seen store.new) (P.seen spawner.old) (P.seen spawner.new) }
    ensures keeps { Keeps place.old result place.new }
{
    let stop = stop_with(alloc, kind, edit, pick)?;
    Err(Halt::Stops(stop))
}

/// The same, where a child may have failed to be run.
fn stop_failed_with(
    alloc: Global,
    kind: StopKind,
    failed: bool,
    edit: bool,
    pick: &Picked,
) -> Result<Stop, AllocError>
    requires pick { IsPicked pick.now }
    ensures kept { IfOk result CanBeKept }
    ensures stop { IfOk result (λ stop. stop ≡ record (stop_with_pending kind edit (picked_is pick.now)) { failed = failed }) }
{
    Ok(Stop {
        kind,
        put_back: false,
        pending: Some(pending_of(alloc, edit, pick)?),
        commit: Some(pick.id),
        failed,
    })
}

/// How the line stops where its commit was not made.
pub fn at_unmade(
    alloc: Global,
    edit: bool,
    pick: &Picked,
    why: MakeStop,
) -> Result<Stop, AllocError>
    requires pick { IsPicked pick.now }
    ensures kept { IfOk result CanBeKept }
    ensures stop { IfOk result (λ stop. stop ≡ at_unmade_of edit (picked_is pick.now) why) }
    ensures failed { IfOk result (λ stop. stop.failed ≡ make_failed why) }
{
    match why {
        MakeStop::HookRefused { name, exit, failed } => {
            let kind = StopKind::HookRefused { name, exit };
            stop_failed_with(alloc, kind, failed, edit, pick)
        }
        MakeStop::EditorFailed { exit, failed } => {
            let kind = StopKind::EditorFailed { exit };
            stop_failed_with(alloc, kind, failed, edit, pick)
        }
        MakeStop::EmptyMessage => stop_with(alloc, StopKind::EmptyMessage, edit, pick),
        MakeStop::Lacks(lack) => Ok(lacked_at(pick.id, lack)),
    }
}
