//! HEAD is moved.

ghost use Rattle.std.specs.Prelude.{◌≡◌, Err, IfOk, codes};
ghost use Rattle.child_steps.specs.Causes.{HasStepCause};
ghost use Rattle.child_steps.specs.Children.{spot_of};
ghost use Rattle.line_steps.specs.Finding.{still_at};
ghost use Rattle.line_steps.specs.Places.{blocked_at as blocked_at_of, writes};
ghost use Rattle.line_steps.specs.Writing.{head_moved as head_moved_to, head_written as head_written_to};
ghost use Rattle.line_steps.specs.Writing.{line_of, reason_of_ref as reason_of_ref_fault};
ghost use Rattle.line_steps.specs.Writing.{turn_ident as turn_ident_of, turn_who};
ghost use Rattle.ref_text.specs.Logs.{IsLogValue, IsMessage};
ghost use Rattle.seq_model.specs.Making.{value_of as value_of_id};
ghost use Rattle.seq_outside.specs.Follows.{Follows};
ghost use Rattle.seq_outside.specs.Halts.{Gives, halt_cause};
ghost use Rattle.seq_outside.specs.Seen.{Reads, Writes};
ghost use Rattle.seq_outside.specs.Turns.{Turns};
ghost use Rattle.seq_step.specs.Causes.{RunsNone, stop_failed};
ghost use Rattle.ident_text.specs.Idents.{IsIdent, IsIdentText};
ghost use Rattle.seq_step.specs.Keeping.{Keeps};
ghost use Rattle.seq_step.specs.Settings.{MayCommit};

use crate::head::head_found;
use crate::stop::blocked_at;
use ident_text::{Ident, ident_text};
use line_steps::{Place, Setting, Stop};
use ref_store::{RefFault, set_head};
use ref_text::{Head, LogLine};
use seq_base::{Bytes, Id};
use seq_model::Reason;
use seq_outside::{Clock, Halt, Spawner, Store};
use std::alloc::{AllocError, Global};

#[tactic(auto, using(commit_maker::proofs::Committing::zone_fits))]
fn ident_at(alloc: Global, setting: &Setting) -> Result<Vec<u8>, AllocError>
    requires { MayCommit setting.now }
    ensures { IfOk result (λ text. IsIdent (turn_who setting.now) text.items) }
{
    let ident = Ident {
        name: setting.committer.name.clone()?,
        email: setting.committer.email.clone()?,
        secs: setting.secs,
        zone: setting.env.zone,
    };
    let text = ident_text(alloc, &ident)?;
    Ok(text)
}

/// Who commits, at the moment with which the turn began.
pub fn turn_ident(alloc: Global, setting: &Setting) -> Result<Vec<u8>, AllocError>
    requires { MayCommit setting.now }
    ensures text { IfOk result (λ text. text.items ≡ turn_ident_of setting.now) }
    ensures who { IfOk result (λ text. IsIdentText text.items) }
{
    let text = ident_at(alloc, setting)?;
    Ok(text)
}

/// No value where the id is of zeros alone.
pub fn value_of(id: Id) -> Option<Id>
    ensures { result ≡ value_of_id id }
{
    if id.bytes() == [0u8; 20].as_slice() {
        None
    } else {
        Some(id)
    }
}

/// What a pick leaves in HEAD's log.
fn line_for(
    alloc: Global,
    subject: &[u8],
    head: Id,
    id: Id,
    ident: &[u8],
) -> Result<LogLine, AllocError>
    ensures { IfOk result (λ line. line ≡ line_of (codes "pick") subject.now head id ident.now) }
{
    let mut message = b"rebase (pick): ".to_vec(alloc)?;
    message.extend_from_slice(subject)?;
    Ok(LogLine {
        old: value_of(head),
        new: id,
        ident: Bytes::from_vec(ident.to_vec(alloc)?),
        message: Bytes::from_vec(message),
    })
}

/// The same, of an ident and a subject that may stand in a log.
pub fn pick_line(
    alloc: Global,
    subject: &[u8],
    head: Id,
    id: Id,
    ident: &[u8],
) -> Result<LogLine, AllocError>
    requires who { IsIdentText ident.now }
    requires subject { IsMessage subject.now }
    ensures line { IfOk result (λ line. line ≡ line_of (codes "pick") subject.now head id ident.now) }
    ensures value { IfOk result IsLogValue }
{
    let line = line_for(alloc, subject, head, id, ident)?;
    Ok(line)
}

/// Stops where HEAD is no longer at a commit.
#[tactic(auto, unfolding(line_steps::specs::Finding::still_at))]
fn stop_moved<S: Store>(alloc: Global, head: Id, store: &mut S) -> Result<(), Halt<Reason>>
    ensures gives { S.told → Gives (λ x. x) result (still_at head (S.seen store.old).content) }
    ensures reads { Reads S.told halt_cause result (S.seen store.old) (S.seen store.new) }
{
    let found = head_found(alloc, store)?;
    if found.bytes() == head.bytes() {
        return Ok(());
    }
    Err(Halt::Stops(Reason::HeadMoved { found: Some(found) }))
}

pub fn reason_of_ref(alloc: Global, fault: RefFault) -> Result<Reason, AllocError>
    ensures { IfOk result (λ why. why ≡ reason_of_ref_fault fault) }
{
    match fault {
        RefFault::BadHead => Ok(Reason::BadHead),
        RefFault::BadRef { name } => Ok(Reason::BadName { word: name }),
        RefFault::BadPacked { .. } => Ok(Reason::BadName {
            word: Bytes::from_vec(b"packed-refs".to_vec(alloc)?),
        }),
        RefFault::BadLog { .. } => Ok(Reason::BadHead),
        RefFault::Moved { found } => Ok(Reason::HeadMoved { found }),
        RefFault::Blocked { name } => Ok(Reason::BadName { word: name }),
    }
}

/// Writes HEAD detached, and the line into its log.
#[tactic(auto, unfolding(line_steps::specs::Writing::head_written))]
pub fn write_head<S: Store>(
    alloc: Global,
    id: Id,
    line: &LogLine,
    store: &mut S,
) -> Result<(), Halt<Reason>>
    requires { IsLogValue line.now }
    ensures turns { S.told → Turns (λ x. x) result (head_written_to id line.now (S.seen store.old).content) (S.seen store.new).content }
    ensures writes { Writes S.told halt_cause result (S.seen store.old) (S.seen store.new) }
{
    match set_head(alloc, store, &Head::Detached(id), line) {
        Ok(()) => Ok(()),
        Err(Halt::Stops(fault)) => Err(Halt::Stops(reason_of_ref(alloc, fault)?)),
        Err(Halt::Fault) => Err(Halt::Fault),
        Err(Halt::Memory) => Err(Halt::Memory),
    }
}

/// HEAD, which has to be still at the one commit, is written detached at the other.
#[tactic(auto, unfolding(line_steps::specs::Writing::head_moved))]
pub fn head_moved<S: Store>(
    alloc: Global,
    head: Id,
    id: Id,
    line: &LogLine,
    store: &mut S,
) -> Result<(), Halt<Reason>>
    requires { IsLogValue line.now }
    ensures turns { S.told → Turns (λ x. x) result (head_moved_to head id line.now (S.seen store.old).content) (S.seen store.new).content }
    ensures writes { Writes S.told halt_cause result (S.seen store.old) (S.seen store.new) }
{
    stop_moved(alloc, head, store)?;
    write_head(alloc, id, line, store)
}

/// HEAD goes from the one commit to the other, as a step of the line of a commit.
pub fn move_head<S: Store, P: Spawner<S>, C: Clock>(
    alloc: Global,
    pick: Id,
    head: Id,
    id: Id,
    line: &LogLine,
    place: &mut Place,
    store: &mut S,
    spawner: &mut P,
    clock: &mut C,
) -> Result<(), Halt<Stop>>
    requires { IsLogValue line.now }
    ensures follows { S.told → Follows P.ran C.ticked spawner.old clock.old spawner.new clock.new (λ x. x)
        (writes (blocked_at_of pick) (head_moved_to head id line.now))
        (spot_of (S.seen store.old) place.old) result (spot_of (S.seen store.new) place.new) }
    ensures none { RunsNone result }
    ensures cause { HasStepCause S.told stop_failed result (S.seen store.old) (S.seen store.new) (P.seen spawner.old) (P.seen spawner.new) }
    ensures keeps { Keeps place.old result place.new }
{
    match head_moved(alloc, head, id, line, store) {
        Ok(()) => Ok(()),
        Err(Halt::Stops(why)) => Err(Halt::Stops(blocked_at(pick, why))),
        Err(Halt::Fault) => Err(Halt::Fault),
        Err(Halt::Memory) => Err(Halt::Memory),
    }
}
