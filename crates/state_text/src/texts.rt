//! What each file of a stopped list holds is written.

ghost use Rattle.std.specs.Prelude.{◌≡◌, ◌++◌, IfOk, OnOk};
ghost use Rattle.std.specs.Option.{option_map};
ghost use Rattle.ident_text.specs.AuthorScripts.{script_text};
ghost use Rattle.ident_text.specs.Idents.{IsIdentValue};
ghost use Rattle.object_text.specs.Commits.{encoding_text};
ghost use Rattle.state_text.specs.Controls.{IfThere, IsLeft};
ghost use Rattle.state_text.specs.Texts.{author_of as author, control_text as text_of_control, edit_word as word_of_edit, encoding_of as encoding, form_word, head_name_text, id_line, kept as kept_file, left_count as count_of_left, left_text as text_of_left, mainline_option, message_of as message, opts_text as text_of_opts, pending_text, pending_word, set_option, settings_text, stop_text};
ghost use Rattle.state_text.specs.Words.{empty_word as word_of_empty, stop_word as word_of_stop, verb_word as word_of_verb, yes_or_no as word_of_bool};

use crate::control::{Control, Form, Left, Pending};
use crate::lines::{put_hex, put_id, put_line, put_pair, todo_of};
use crate::options::{Empty, Options};
use crate::stop_word::StopWord;
use crate::verb::Verb;
use ident_text::{Ident, author_script};
use itoa::Buffer;
use seq_base::{Bytes, Id};
use std::alloc::{AllocError, Global};

pub fn verb_word(verb: Verb) -> &'static [u8]
    ensures { result.now ≡ word_of_verb verb }
{
    match verb {
        Verb::Rebase => b"rebase",
        Verb::CherryPick => b"cherry-pick",
        Verb::Revert => b"revert",
    }
}

pub fn empty_word(empty: Empty) -> &'static [u8]
    ensures { result.now ≡ word_of_empty empty }
{
    match empty {
        Empty::Drop => b"drop",
        Empty::Keep => b"keep",
        Empty::Stop => b"stop",
    }
}

fn yes_or_no(answer: bool) -> &'static [u8]
    ensures { result.now ≡ word_of_bool answer }
{
    if answer { b"yes" } else { b"no" }
}

pub fn stop_word(stop: StopWord) -> &'static [u8]
    ensures { result.now ≡ word_of_stop stop }
{
    match stop {
        StopWord::Conflict => b"conflict",
        StopWord::Edit => b"edit",
        StopWord::Break => b"break",
        StopWord::ExecFailed => b"exec-failed",
        StopWord::ExecDirty => b"exec-dirty",
        StopWord::Empty => b"empty",
        StopWord::HookRefused => b"hook-refused",
        StopWord::EditorFailed => b"editor-failed",
        StopWord::EmptyMessage => b"empty-message",
        StopWord::DriverBroken => b"driver-broken",
        StopWord::Blocked => b"blocked",
        StopWord::TodoBad => b"todo-bad",
        StopWord::RefMoved => b"ref-moved",
    }
}

/// A file without a byte is none.
pub fn kept(text: Vec<u8>) -> Option<Bytes>
    ensures { result ≡ kept_file text.items }
{
    if text.is_empty() {
        None
    } else {
        Some(Bytes::from_vec(text))
    }
}

pub fn id_text(alloc: Global, id: &Id) -> Result<Bytes, AllocError>
    ensures { IfOk result (λ text. text ≡ id_line id.now) }
{
    let mut out = Vec::new(alloc);
    put_id(alloc, &mut out, id)?;
    Ok(Bytes::from_vec(out))
}

pub fn optional_id(alloc: Global, id: &Option<Id>) -> Result<Option<Bytes>, AllocError>
    ensures { IfOk result (λ text. text ≡ option_map id_line id.now) }
{
    match id {
        Some(id) => Ok(Some(id_text(alloc, id)?)),
        None => Ok(None),
    }
}

pub fn head_name(alloc: Global, name: &Option<Bytes>) -> Result<Bytes, AllocError>
    ensures { IfOk result (λ text. text ≡ head_name_text name.now) }
{
    let mut out = Vec::new(alloc);
    match name {
        Some(name) => put_line(&mut out, name.as_slice())?,
        None => put_line(&mut out, b"detached HEAD")?,
    }
    Ok(Bytes::from_vec(out))
}

pub fn left_text(alloc: Global, left: &Left) -> Result<Option<Bytes>, AllocError>
    requires { IsLeft left.now }
    ensures { IfOk result (λ text. text ≡ kept_file (text_of_left left.now)) }
{
    match left {
        Left::Lines(lines) => Ok(kept(todo_of(alloc, lines.as_slice())?)),
        Left::Raw(bytes) => Ok(kept(Vec::from_slice(alloc, bytes.as_slice())?)),
    }
}

pub fn left_count(left: &Left) -> usize
    ensures { result ≡ count_of_left left.now }
{
    match left {
        Left::Lines(lines) => lines.as_slice().len(),
        Left::Raw(_) => 0,
    }
}

pub fn message_text(alloc: Global, pending: &Option<Pending>) -> Result<Option<Bytes>, AllocError>
    ensures { IfOk result (λ text. text ≡ kept_file (message pending.now)) }
{
    match pending {
        Some(pending) => Ok(kept(Vec::from_slice(alloc, pending.message.as_slice())?)),
        None => Ok(None),
    }
}

fn script_of(alloc: Global, author: &Option<Ident>) -> Result<Option<Bytes>, AllocError>
    requires { IfThere IsIdentValue author.now }
    ensures { IfOk result (λ text. text ≡ option_map script_text author.now) }
{
    match author {
        Some(ident) => Ok(Some(Bytes::from_vec(author_script(alloc, ident)?))),
        None => Ok(None),
    }
}

pub fn script_text_of(alloc: Global, pending: &Option<Pending>) -> Result<Option<Bytes>, AllocError>
    requires { IfThere IsIdentValue (author pending.now) }
    ensures { IfOk result (λ text. text ≡ option_map script_text (author pending.now)) }
{
    match pending {
        Some(pending) => script_of(alloc, &pending.author),
        None => Ok(None),
    }
}

fn put_mainline(out: &mut Vec<u8>, mainline: Option<u32>) -> Result<(), AllocError>
    ensures { OnOk result (out.new.items ≡ out.old.items ++ mainline_option mainline) }
{
    match mainline {
        Some(number) => {
            let mut buffer = Buffer::new();
            out.push(b'\t')?;
            put_pair(out, b"mainline = ", buffer.format(number).as_bytes())
        }
        None => Ok(()),
    }
}

fn put_option(out: &mut Vec<u8>, set: bool, key: &[u8]) -> Result<(), AllocError>
    ensures { OnOk result (out.new.items ≡ out.old.items ++ set_option set key.now) }
{
    if !set {
        return Ok(());
    }
    out.push(b'\t')?;
    put_pair(out, key, b" = true")
}

pub fn opts_text(alloc: Global, options: &Options) -> Result<Bytes, AllocError>
    ensures { IfOk result (λ text. text ≡ text_of_opts options.now) }
{
    let mut out = Vec::new(alloc);
    put_line(&mut out, b"[options]")?;
    put_mainline(&mut out, options.mainline)?;
    put_option(&mut out, options.edit, b"edit")?;
    put_option(&mut out, options.record_origin, b"record-origin")?;
    put_option(&mut out, options.allow_empty, b"allow-empty")?;
    Ok(Bytes::from_vec(out))
}

fn put_form(alloc: Global, out: &mut Vec<u8>, form: &Form) -> Result<(), AllocError>
    ensures { OnOk result (out.new.items ≡ out.old.items ++ form_word form.now) }
{
    match form {
        Form::New => out.extend_from_slice(b"new"),
        Form::Amend => out.extend_from_slice(b"amend"),
        Form::Merge(other) => {
            out.extend_from_slice(b"merge ")?;
            put_hex(alloc, out, other)
        }
    }
}

fn edit_word(edit: bool) -> &'static [u8]
    ensures { result.now ≡ word_of_edit edit }
{
    if edit { b" edit" } else { b" plain" }
}

fn put_pending(
    alloc: Global,
    out: &mut Vec<u8>,
    pending: &Option<Pending>,
) -> Result<(), AllocError>
    ensures { OnOk result (out.new.items ≡ out.old.items ++ pending_word pending.now) }
{
    match pending {
        Some(pending) => {
            put_form(alloc, out, &pending.form)?;
            out.extend_from_slice(edit_word(pending.edit))
        }
        None => out.extend_from_slice(b"none"),
    }
}

fn put_encoding_of(out: &mut Vec<u8>, encoding: &Option<Bytes>) -> Result<(), AllocError>
    ensures { OnOk result (out.new.items ≡ out.old.items ++ encoding_text encoding.now) }
{
    match encoding {
        Some(value) => put_pair(out, b"encoding ", value.as_slice()),
        None => Ok(()),
    }
}

fn put_encoding(out: &mut Vec<u8>, pending: &Option<Pending>) -> Result<(), AllocError>
    ensures { OnOk result (out.new.items ≡ out.old.items ++ encoding_text (encoding pending.now)) }
{
    match pending {
        Some(pending) => put_encoding_of(out, &pending.encoding),
        None => Ok(()),
    }
}

fn put_settings(out: &mut Vec<u8>, control: &Control) -> Result<(), AllocError>
    ensures { OnOk result (out.new.items ≡ out.old.items ++ settings_text control.now) }
{
    put_line(out, b"gitseq 1")?;
    put_pair(out, b"verb ", verb_word(control.verb))?;
    put_pair(out, b"empty ", empty_word(control.options.empty))?;
    put_pair(out, b"ff ", yes_or_no(control.options.ff))?;
    put_pair(out, b"reschedule ", yes_or_no(control.options.reschedule))
}

fn put_stop(alloc: Global, out: &mut Vec<u8>, control: &Control) -> Result<(), AllocError>
    ensures { OnOk result (out.new.items ≡ out.old.items ++ stop_text control.now) }
{
    put_pair(out, b"stop ", stop_word(control.stop))?;
    out.extend_from_slice(b"head ")?;
    put_id(alloc, out, &control.stopped_head)
}

fn put_pending_line(
    alloc: Global,
    out: &mut Vec<u8>,
    pending: &Option<Pending>,
) -> Result<(), AllocError>
    ensures { OnOk result (out.new.items ≡ out.old.items ++ pending_text pending.now) }
{
    out.extend_from_slice(b"pending ")?;
    put_pending(alloc, out, pending)?;
    out.push(b'\n')?;
    put_encoding(out, pending)
}

pub fn control_text(alloc: Global, control: &Control) -> Result<Bytes, AllocError>
    ensures { IfOk result (λ text. text ≡ text_of_control control.now) }
{
    let mut out = Vec::new(alloc);
    put_settings(&mut out, control)?;
    put_stop(alloc, &mut out, control)?;
    put_pending_line(alloc, &mut out, &control.pending)?;
    Ok(Bytes::from_vec(out))
}
