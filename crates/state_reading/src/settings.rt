//! The file `control`.

ghost use Rattle.std.specs.Prelude.{◌≡◌, IfOk, codes};
ghost use Rattle.object_text.specs.Commits.{is_header_value as is_header_value_by};
ghost use Rattle.state_reading.specs.Lines.{behind as behind_key};
ghost use Rattle.state_reading.specs.Recalls.{Recalls};
ghost use Rattle.state_reading.specs.Settings.{IsSettings, amend_at as amend_at_by, behind_line as behind_line_by, empty_at as empty_at_by, encoding_at as encoding_at_by, encoding_for as encoding_for_by, ff_at as ff_at_by, first_line as first_line_by, head_at as head_at_by, is_edited as is_edited_by, is_followed as is_followed_by, late_stop_at as late_stop_at_by, merge_at as merge_at_by, pending_at as pending_at_by, reschedule_at as reschedule_at_by, settings_at as settings_at_by, settings_text, stop_at as stop_at_by, value_if, verb_at as verb_at_by};
ghost use Rattle.state_reading.specs.Values.{without_feed as without_feed_by};

use crate::keys::{behind_of, id_or_zeros, owned, without_feed};
use grammar::ReadError;
use ident_text::id_of;
use seq_base::{Bytes, Id};
use state_text::{Empty, Form, StopWord, Verb};
use std::alloc::{AllocError, Global};

/// What `control` says.
#[derive(Debug, Drop)]
pub struct Settings {
    pub verb: Verb,
    pub empty: Empty,
    pub ff: bool,
    pub reschedule: bool,
    pub stop: StopWord,
    /// The commit that HEAD had when the list stopped.
    pub head: Id,
    /// How a pending commit is made, and whether the editor is to see its message.
    pub pending: Option<(Form, bool)>,
    pub encoding: Option<Bytes>,
}

fn first_line(alloc: Global, bytes: &[u8]) -> Result<Vec<u8>, AllocError>
    ensures { IfOk result (λ line. line.items ≡ first_line_by bytes.now) }
{
    let mut line = Vec::new(alloc);
    let mut rest = bytes;
    while let [b, after @ ..] = rest {
        if *b == b'\n' {
            return Ok(line);
        }
        line.push(*b)?;
        rest = after;
    }
    Ok(line)
}

pub fn behind_line(bytes: &[u8]) -> &[u8]
    ensures { result.now ≡ behind_line_by bytes.now }
{
    let mut rest = bytes;
    while let [b, after @ ..] = rest {
        if *b == b'\n' {
            return after;
        }
        rest = after;
    }
    &[]
}

fn verb_at(alloc: Global, bytes: &[u8]) -> Result<Verb, AllocError>
    ensures { IfOk result (λ verb. verb ≡ verb_at_by (first_line_by bytes.now)) }
{
    let line = first_line(alloc, bytes)?;
    if line.as_slice() == b"verb rebase".as_slice() {
        Ok(Verb::Rebase)
    } else if line.as_slice() == b"verb revert".as_slice() {
        Ok(Verb::Revert)
    } else {
        Ok(Verb::CherryPick)
    }
}

fn empty_at(alloc: Global, bytes: &[u8]) -> Result<Empty, AllocError>
    ensures { IfOk result (λ empty. empty ≡ empty_at_by (first_line_by bytes.now)) }
{
    let line = first_line(alloc, bytes)?;
    if line.as_slice() == b"empty drop".as_slice() {
        Ok(Empty::Drop)
    } else if line.as_slice() == b"empty keep".as_slice() {
        Ok(Empty::Keep)
    } else {
        Ok(Empty::Stop)
    }
}

fn ff_at(alloc: Global, bytes: &[u8]) -> Result<bool, AllocError>
    ensures { IfOk result (λ ff. ff ≡ ff_at_by (first_line_by bytes.now)) }
{
    let line = first_line(alloc, bytes)?;
    Ok(line.as_slice() == b"ff yes".as_slice())
}

fn reschedule_at(alloc: Global, bytes: &[u8]) -> Result<bool, AllocError>
    ensures { IfOk result (λ reschedule. reschedule ≡ reschedule_at_by (first_line_by bytes.now)) }
{
    let line = first_line(alloc, bytes)?;
    Ok(line.as_slice() == b"reschedule yes".as_slice())
}

fn late_stop_at(line: &[u8]) -> StopWord
    ensures { result ≡ late_stop_at_by line.now }
{
    if line == b"stop hook-refused".as_slice() {
        StopWord::HookRefused
    } else if line == b"stop editor-failed".as_slice() {
        StopWord::EditorFailed
    } else if line == b"stop empty-message".as_slice() {
        StopWord::EmptyMessage
    } else if line == b"stop driver-broken".as_slice() {
        StopWord::DriverBroken
    } else if line == b"stop blocked".as_slice() {
        StopWord::Blocked
    } else if line == b"stop todo-bad".as_slice() {
        StopWord::TodoBad
    } else {
        StopWord::RefMoved
    }
}

fn stop_of(line: &[u8]) -> StopWord
    ensures { result ≡ stop_at_by line.now }
{
    if line == b"stop conflict".as_slice() {
        StopWord::Conflict
    } else if line == b"stop edit".as_slice() {
        StopWord::Edit
    } else if line == b"stop break".as_slice() {
        StopWord::Break
    } else if line == b"stop exec-failed".as_slice() {
        StopWord::ExecFailed
    } else if line == b"stop exec-dirty".as_slice() {
        StopWord::ExecDirty
    } else if line == b"stop empty".as_slice() {
        StopWord::Empty
    } else {
        late_stop_at(line)
    }
}

fn stop_at(alloc: Global, bytes: &[u8]) -> Result<StopWord, AllocError>
    ensures { IfOk result (λ stop. stop ≡ stop_at_by (first_line_by bytes.now)) }
{
    let line = first_line(alloc, bytes)?;
    Ok(stop_of(line.as_slice()))
}

fn head_of(line: &[u8]) -> Result<Id, AllocError>
    ensures { IfOk result (λ id. id ≡ head_at_by line.now) }
{
    match behind_of(b"head ", line)? {
        Some(rest) => id_or_zeros(rest),
        None => id_or_zeros(&[]),
    }
}

fn head_at(alloc: Global, bytes: &[u8]) -> Result<Id, AllocError>
    ensures { IfOk result (λ id. id ≡ head_at_by (first_line_by bytes.now)) }
{
    let line = first_line(alloc, bytes)?;
    head_of(line.as_slice())
}

fn is_edited(rest: &[u8]) -> bool
    ensures { result ≡ is_edited_by rest.now }
{
    rest == b" edit".as_slice()
}

fn merge_at(line: &[u8]) -> Result<Option<(Form, bool)>, AllocError>
    ensures { IfOk result (λ told. told ≡ merge_at_by (behind_key (codes "pending merge ") line.now)) }
{
    match behind_of(b"pending merge ", line)? {
        Some(rest) => match id_of(rest) {
            Ok((other, rest)) => Ok(Some((Form::Merge(other), is_edited(rest)))),
            Err(ReadError::Memory) => Err(AllocError),
            Err(ReadError::Stopped { .. }) => Ok(None),
        },
        None => Ok(None),
    }
}

fn amend_at(line: &[u8]) -> Result<Option<(Form, bool)>, AllocError>
    ensures { IfOk result (λ told. told ≡ amend_at_by (behind_key (codes "pending amend") line.now) line.now) }
{
    match behind_of(b"pending amend", line)? {
        Some(rest) => Ok(Some((Form::Amend, is_edited(rest)))),
        None => merge_at(line),
    }
}

fn pending_of(line: &[u8]) -> Result<Option<(Form, bool)>, AllocError>
    ensures { IfOk result (λ told. told ≡ pending_at_by line.now) }
{
    match behind_of(b"pending new", line)? {
        Some(rest) => Ok(Some((Form::New, is_edited(rest)))),
        None => amend_at(line),
    }
}

fn pending_at(alloc: Global, bytes: &[u8]) -> Result<Option<(Form, bool)>, AllocError>
    ensures { IfOk result (λ told. told ≡ pending_at_by (first_line_by bytes.now)) }
{
    let line = first_line(alloc, bytes)?;
    pending_of(line.as_slice())
}

/// Whether the byte may stand before the others: a line feed is followed by a space.
fn is_followed(b: u8, after: &[u8]) -> bool
    ensures { result ≡ is_followed_by b after.now }
{
    match after {
        [c, ..] => b != b'\n' || *c == b' ',
        [] => b != b'\n',
    }
}

/// Whether each line feed in it is followed by a space.
#[tactic(auto, using(crate::proofs::SettingLaws::value_goes_on, crate::proofs::SettingLaws::value_ends))]
fn is_header_value(value: &[u8]) -> bool
    ensures { result ≡ is_header_value_by value.now }
{
    let mut rest = value;
    while let [b, after @ ..] = rest {
        if !is_followed(*b, after) {
            return false;
        }
        rest = after;
    }
    true
}

fn value_behind(alloc: Global, rest: &[u8]) -> Result<Option<Bytes>, AllocError>
    ensures { IfOk result (λ value. value ≡ value_if (without_feed_by rest.now)) }
{
    let value = without_feed(rest);
    if is_header_value(value) {
        Ok(Some(owned(alloc, value)?))
    } else {
        Ok(None)
    }
}

fn encoding_at(alloc: Global, bytes: &[u8]) -> Result<Option<Bytes>, AllocError>
    ensures { IfOk result (λ encoding. encoding ≡ encoding_at_by bytes.now) }
{
    match behind_of(b"encoding ", bytes)? {
        Some(rest) => value_behind(alloc, rest),
        None => Ok(None),
    }
}

fn encoding_for(
    alloc: Global,
    told: &Option<(Form, bool)>,
    bytes: &[u8],
) -> Result<Option<Bytes>, AllocError>
    ensures { IfOk result (λ encoding. encoding ≡ encoding_for_by told.now (encoding_at_by bytes.now)) }
{
    match told {
        Some(_) => encoding_at(alloc, bytes),
        None => Ok(None),
    }
}

fn settings_at(alloc: Global, bytes: &[u8]) -> Result<Settings, AllocError>
    ensures { IfOk result (λ settings. settings ≡ settings_at_by bytes.now) }
{
    let verb_line = behind_line(bytes);
    let empty_line = behind_line(verb_line);
    let ff_line = behind_line(empty_line);
    let reschedule_line = behind_line(ff_line);
    let stop_line = behind_line(reschedule_line);
    let head_line = behind_line(stop_line);
    let pending_line = behind_line(head_line);
    let pending = pending_at(alloc, pending_line)?;
    let encoding = encoding_for(alloc, &pending, behind_line(pending_line))?;
    Ok(Settings {
        verb: verb_at(alloc, verb_line)?,
        empty: empty_at(alloc, empty_line)?,
        ff: ff_at(alloc, ff_line)?,
        reschedule: reschedule_at(alloc, reschedule_line)?,
        stop: stop_at(alloc, stop_line)?,
        head: head_at(alloc, head_line)?,
        pending,
        encoding,
    })
}

/// What `control` says.
#[tactic(auto, using(crate::proofs::SettingLaws::settings_recalled))]
pub fn read_settings(alloc: Global, bytes: &[u8]) -> Result<Settings, AllocError>
    ensures { IfOk result (λ settings. Recalls IsSettings settings_text bytes.now settings) }
{
    settings_at(alloc, bytes)
}
