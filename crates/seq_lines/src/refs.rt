//! The refs of the end are written, and HEAD is attached again.

ghost use Rattle.std.specs.Prelude.{◌≡◌, ◌++◌, [], codes, option_and_then, IfOk, Some};
ghost use Rattle.hex.specs.Hex.{encode_lower};
ghost use Rattle.ident_text.specs.Idents.{IsIdentText};
ghost use Rattle.reading.specs.Ending.{all_ended, detached_from, end_written, head_attached, head_detached, is_attached as is_attached_to, line_for as line_for_of};
ghost use Rattle.reading.specs.Ending.{ref_stop as ref_stop_of, ref_written, refs_ended as refs_ended_by, refs_written, returning_line as returning_line_of};
ghost use Rattle.ref_store.specs.Changes.{head_set};
ghost use Rattle.ref_store.specs.Values.{head_at};
ghost use Rattle.ref_text.specs.Heads.{IsHeadValue};
ghost use Rattle.ref_text.specs.Logs.{IsLogValue, IsMessage};
ghost use Rattle.seq_base.specs.RefNames.{IsRefName};
ghost use Rattle.seq_lines.specs.Refs.{AreEndRefs, HasBranch, IsEndRef, NameRefs};
ghost use Rattle.seq_model.specs.Making.{value_of as value_of_id};
ghost use Rattle.seq_outside.specs.Halts.{Gives, for_reason, halt_cause};
ghost use Rattle.seq_outside.specs.Seen.{Reads, Writes};
ghost use Rattle.seq_outside.specs.Turns.{Turns, saying};
ghost use Rattle.seq_step.specs.Causes.{RunsNone};
ghost use Rattle.seq_step.specs.Settings.{MayCommit};
ghost use Rattle.state_text.specs.Controls.{IfThere};

use crate::compare::{want_all_writable, want_none_moved};
use crate::end_refs::end_refs;
use line_steps::{Setting, Stop};
use reading::EndRef;
use ref_store::{RefFault, head, note_value, put_head, set_head};
use ref_text::{Head, LogLine};
use seq_base::{Bytes, Id};
use seq_model::StopKind;
use seq_outside::{Halt, Store};
use seq_step::{reason_of_ref, stop_of, turn_ident, value_of};
use state_text::{Control, RefUpdate};
use std::alloc::{AllocError, Global};

fn ref_stop(alloc: Global, fault: RefFault) -> Result<Stop, AllocError>
    ensures is { IfOk result (λ stop. stop ≡ ref_stop_of fault) }
{
    let why = reason_of_ref(alloc, fault)?;
    Ok(stop_of(StopKind::Blocked(why)))
}

/// An id of zeros alone stands for no value.
pub fn value_of_any(id: Option<Id>) -> Option<Id>
    ensures { result ≡ option_and_then value_of_id id }
{
    match id {
        Some(id) => value_of(id),
        None => None,
    }
}

/// A line of a log, by who commits at the moment with which the turn began.
#[tactic(auto, using(crate::proofs::Messages::any_line_is_value))]
pub fn line_for(
    alloc: Global,
    setting: &Setting,
    old: Option<Id>,
    new: Id,
    message: Bytes,
) -> Result<LogLine, AllocError>
    requires setting { MayCommit setting.now }
    requires message { IsMessage message }
    ensures is { IfOk result (λ line. line ≡ line_for_of setting.now old new message) }
    ensures value { IfOk result IsLogValue }
{
    let ident = turn_ident(alloc, setting)?;
    Ok(LogLine {
        old: value_of_any(old),
        new,
        ident: Bytes::from_vec(ident),
        message,
    })
}

/// A ref has the value, and its log the line.
fn write_value<S: Store>(
    alloc: Global,
    setting: &Setting,
    r: &EndRef,
    new: Id,
    store: &mut S,
) -> Result<(), Halt<Stop>>
    requires setting { MayCommit setting.now }
    requires r { IsEndRef r.now }
    ensures turns { S.told → Turns (λ x. x) result (ref_written setting.now r.now (Some new) (S.seen store.old).content) (S.seen store.new).content }
    ensures none { RunsNone result }
    ensures writes { Writes S.told halt_cause result (S.seen store.old) (S.seen store.new) }
{
    let line = line_for(alloc, setting, r.expected, new, r.message.clone()?)?;
    match note_value(alloc, store, r.name.as_slice(), new, Some(&line)) {
        Ok(()) => Ok(()),
        Err(Halt::Stops(fault)) => Err(Halt::Stops(ref_stop(alloc, fault)?)),
        Err(Halt::Fault) => Err(Halt::Fault),
        Err(Halt::Memory) => Err(Halt::Memory),
    }
}

/// A ref that gets a value has it.
fn write_ref<S: Store>(
    alloc: Global,
    setting: &Setting,
    r: &EndRef,
    store: &mut S,
) -> Result<(), Halt<Stop>>
    requires setting { MayCommit setting.now }
    requires r { IsEndRef r.now }
    ensures turns { S.told → Turns (λ x. x) result (ref_written setting.now r.now r.now.new (S.seen store.old).content) (S.seen store.new).content }
    ensures none { RunsNone result }
    ensures writes { Writes S.told halt_cause result (S.seen store.old) (S.seen store.new) }
{
    match r.new {
        Some(new) => write_value(alloc, setting, r, new, store),
        None => Ok(()),
    }
}

/// Each ref that gets a value has it.
#[tactic(auto, unfolding(reading::specs::Ending::refs_written))]
fn write_refs<S: Store>(
    alloc: Global,
    setting: &Setting,
    refs: &[EndRef],
    store: &mut S,
) -> Result<(), Halt<Stop>>
    requires setting { MayCommit setting.now }
    requires refs { AreEndRefs refs.now }
    ensures turns { S.told → Turns (λ x. x) result (refs_written setting.now refs.now (S.seen store.old).content) (S.seen store.new).content }
    ensures none { RunsNone result }
    ensures writes { Writes S.told halt_cause result (S.seen store.old) (S.seen store.new) }
{
    let mut rest = refs;
    while let [r, after @ ..] = rest {
        write_ref(alloc, setting, r, store)?;
        rest = after;
    }
    Ok(())
}

// ---- HEAD

fn head_is<S: Store>(alloc: Global, store: &mut S) -> Result<Head, Halt<Stop>>
    ensures gives { S.told → Gives (λ head. head) result (for_reason ref_stop_of (head_at (S.seen store.old).content)) }
    ensures none { RunsNone result }
    ensures reads { Reads S.told halt_cause result (S.seen store.old) (S.seen store.new) }
{
    match head(alloc, store) {
        Ok(head) => Ok(head),
        Err(Halt::Stops(fault)) => Err(Halt::Stops(ref_stop(alloc, fault)?)),
        Err(Halt::Fault) => Err(Halt::Fault),
        Err(Halt::Memory) => Err(Halt::Memory),
    }
}

fn is_attached(head: &Head) -> bool
    ensures { result ≡ is_attached_to head.now }
{
    match head {
        Head::Branch(_) => true,
        Head::Detached(_) => false,
    }
}

fn put_detached<S: Store>(alloc: Global, id: Id, store: &mut S) -> Result<(), Halt<Stop>>
    ensures turns { S.told → Turns (λ x. x) result (detached_from id (Head.Branch []) (S.seen store.old).content) (S.seen store.new).content }
    ensures none { RunsNone result }
    ensures writes { Writes S.told halt_cause result (S.seen store.old) (S.seen store.new) }
{
    match put_head(alloc, store, &Head::Detached(id)) {
        Ok(()) => Ok(()),
        Err(Halt::Stops(fault)) => Err(Halt::Stops(ref_stop(alloc, fault)?)),
        Err(Halt::Fault) => Err(Halt::Fault),
        Err(Halt::Memory) => Err(Halt::Memory),
    }
}

fn detach_from<S: Store>(alloc: Global, id: Id, on: &Head, store: &mut S) -> Result<(), Halt<Stop>>
    ensures turns { S.told → Turns (λ x. x) result (detached_from id on.now (S.seen store.old).content) (S.seen store.new).content }
    ensures none { RunsNone result }
    ensures writes { Writes S.told halt_cause result (S.seen store.old) (S.seen store.new) }
{
    if is_attached(on) {
        return put_detached(alloc, id, store);
    }
    Ok(())
}

/// HEAD is detached at the result.
#[tactic(auto, unfolding(reading::specs::Ending::head_detached))]
fn detach_head<S: Store>(alloc: Global, id: Id, store: &mut S) -> Result<(), Halt<Stop>>
    ensures turns { S.told → Turns (λ x. x) result (head_detached id (S.seen store.old).content) (S.seen store.new).content }
    ensures none { RunsNone result }
    ensures writes { Writes S.told halt_cause result (S.seen store.old) (S.seen store.new) }
{
    let on = head_is(alloc, store)?;
    detach_from(alloc, id, &on, store)
}

#[tactic(auto, using(crate::proofs::Messages::returning_is_message))]
fn returning_message(alloc: Global, name: &[u8]) -> Result<Bytes, AllocError>
    requires { IsRefName name.now }
    ensures text { IfOk result (λ m. m ≡ codes "rebase (finish): returning to " ++ name.now) }
    ensures message { IfOk result IsMessage }
{
    let mut message = b"rebase (finish): returning to ".to_vec(alloc)?;
    message.extend_from_slice(name)?;
    Ok(Bytes::from_vec(message))
}

fn returning_line(
    alloc: Global,
    setting: &Setting,
    head: Id,
    name: &Bytes,
) -> Result<LogLine, AllocError>
    requires setting { MayCommit setting.now }
    requires name { IsRefName name.now }
    ensures is { IfOk result (λ line. line ≡ returning_line_of setting.now head name.now) }
    ensures value { IfOk result IsLogValue }
{
    let message = returning_message(alloc, name.as_slice())?;
    line_for(alloc, setting, Some(head), head, message)
}

fn branch(name: &Bytes) -> Result<Head, AllocError>
    requires { IsRefName name.now }
    ensures is { IfOk result (λ on. on ≡ Head.Branch name.now) }
    ensures value { IfOk result IsHeadValue }
{
    Ok(Head::Branch(name.clone()?))
}

/// HEAD is set, and its log has the line.
fn put_on<S: Store>(
    alloc: Global,
    on: &Head,
    line: &LogLine,
    store: &mut S,
) -> Result<(), Halt<Stop>>
    requires on { IsHeadValue on.now }
    requires line { IsLogValue line.now }
    ensures turns { S.told → Turns (λ x. x) result (saying ref_stop_of (head_set on.now line.now) (S.seen store.old).content)
        (S.seen store.new).content }
    ensures none { RunsNone result }
    ensures writes { Writes S.told halt_cause result (S.seen store.old) (S.seen store.new) }
{
    match set_head(alloc, store, on, line) {
        Ok(()) => Ok(()),
        Err(Halt::Stops(fault)) => Err(Halt::Stops(ref_stop(alloc, fault)?)),
        Err(Halt::Fault) => Err(Halt::Fault),
        Err(Halt::Memory) => Err(Halt::Memory),
    }
}

/// HEAD is attached again.
fn attach_to<S: Store>(
    alloc: Global,
    setting: &Setting,
    head: Id,
    name: &Bytes,
    store: &mut S,
) -> Result<(), Halt<Stop>>
    requires setting { MayCommit setting.now }
    requires name { IsRefName name.now }
    ensures turns { S.told → Turns (λ x. x) result (head_attached setting.now head (Some name.now) (S.seen store.old).content)
        (S.seen store.new).content }
    ensures none { RunsNone result }
    ensures writes { Writes S.told halt_cause result (S.seen store.old) (S.seen store.new) }
{
    let line = returning_line(alloc, setting, head, name)?;
    let on = branch(name)?;
    put_on(alloc, &on, &line, store)
}

fn attach_head<S: Store>(
    alloc: Global,
    setting: &Setting,
    head: Id,
    name: &Option<Bytes>,
    store: &mut S,
) -> Result<(), Halt<Stop>>
    requires setting { MayCommit setting.now }
    requires name { IfThere IsRefName name.now }
    ensures turns { S.told → Turns (λ x. x) result (head_attached setting.now head name.now (S.seen store.old).content)
        (S.seen store.new).content }
    ensures none { RunsNone result }
    ensures writes { Writes S.told halt_cause result (S.seen store.old) (S.seen store.new) }
{
    match name {
        Some(name) => attach_to(alloc, setting, head, name, store),
        None => detach_head(alloc, head, store),
    }
}

// ---- all of it

#[tactic(auto, unfolding(reading::specs::Ending::end_written))]
fn write_end<S: Store>(
    alloc: Global,
    setting: &Setting,
    control: &Control,
    head: Id,
    refs: &[EndRef],
    store: &mut S,
) -> Result<(), Halt<Stop>>
    requires setting { MayCommit setting.now }
    requires branch { HasBranch control.now }
    requires refs { AreEndRefs refs.now }
    ensures turns { S.told → Turns (λ x. x) result (end_written setting.now control.now head refs.now (S.seen store.old).content)
        (S.seen store.new).content }
    ensures none { RunsNone result }
    ensures writes { Writes S.told halt_cause result (S.seen store.old) (S.seen store.new) }
{
    write_refs(alloc, setting, refs, store)?;
    attach_head(alloc, setting, head, &control.head_name, store)
}

#[tactic(auto, unfolding(reading::specs::Ending::all_ended))]
fn end_each<S: Store>(
    alloc: Global,
    setting: &Setting,
    control: &Control,
    head: Id,
    refs: &[EndRef],
    store: &mut S,
) -> Result<(), Halt<Stop>>
    requires setting { MayCommit setting.now }
    requires branch { HasBranch control.now }
    requires refs { AreEndRefs refs.now }
    ensures turns { S.told → Turns (λ x. x) result (all_ended setting.now control.now head refs.now (S.seen store.old).content)
        (S.seen store.new).content }
    ensures none { RunsNone result }
    ensures writes { Writes S.told halt_cause result (S.seen store.old) (S.seen store.new) }
{
    want_none_moved(alloc, refs, store)?;
    want_all_writable(alloc, refs, store)?;
    write_end(alloc, setting, control, head, refs, store)
}

/// The refs of a list that has used every line: all are compared before any is written.
pub fn end_all_refs<S: Store>(
    alloc: Global,
    setting: &Setting,
    control: &Control,
    head: Id,
    updates: &[RefUpdate],
    store: &mut S,
) -> Result<(), Halt<Stop>>
    requires setting { MayCommit setting.now }
    requires branch { HasBranch control.now }
    requires updates { NameRefs updates.now }
    ensures turns { S.told → Turns (λ x. x) result (refs_ended_by setting.now control.now head updates.now (S.seen store.old).content)
        (S.seen store.new).content }
    ensures none { RunsNone result }
    ensures writes { Writes S.told halt_cause result (S.seen store.old) (S.seen store.new) }
{
    let refs = end_refs(alloc, control, head, updates)?;
    end_each(alloc, setting, control, head, &refs, store)
}
