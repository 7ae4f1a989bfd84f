//! Stopped lists, in answers: their parts in the order in which a case gives them, but each line of a todo and an author part by part.

use crate::words;
use cases::{Answer, put_line};
use ident_text::Ident;
use seq_base::Bytes;
use state_text::{Control, Form, Left, Options, Pending};
use std::alloc::AllocError;
use todo_text::Line;

fn put_options(out: &mut Answer, options: &Options) -> Result<(), AllocError> {
    out.word(words::empty_word(options.empty))?;
    out.yes_or_no(options.ff)?;
    out.yes_or_no(options.reschedule)?;
    match options.mainline {
        Some(parent) => out.number(u64::from(parent))?,
        None => out.word(b"none")?,
    }
    out.yes_or_no(options.edit)?;
    out.yes_or_no(options.record_origin)?;
    out.yes_or_no(options.allow_empty)
}

fn put_lines(out: &mut Answer, lines: &[Line]) -> Result<(), AllocError> {
    out.counted(b"lines", lines.len() as u64)?;
    for line in lines {
        put_line(out, line)?;
    }
    Ok(())
}

fn put_left(out: &mut Answer, left: &Left) -> Result<(), AllocError> {
    match left {
        Left::Lines(lines) => put_lines(out, lines.as_slice()),
        Left::Raw(bytes) => out.named(b"raw", bytes.as_slice()),
    }
}

fn put_or_none(out: &mut Answer, bytes: &Option<Bytes>) -> Result<(), AllocError> {
    match bytes {
        Some(bytes) => out.bytes(bytes.as_slice()),
        None => out.word(b"none"),
    }
}

/// Labels, updates, rewritten commits, those that wait, and the chain.
fn put_lists(out: &mut Answer, control: &Control) -> Result<(), AllocError> {
    out.counted(b"labels", control.labels.as_slice().len() as u64)?;
    for name in control.labels.as_slice() {
        out.bytes(name.as_slice())?;
    }
    out.counted(b"updates", control.updates.as_slice().len() as u64)?;
    for update in control.updates.as_slice() {
        out.bytes(update.name.as_slice())?;
        out.id_or_none(update.expected)?;
        out.id_or_none(update.new)?;
    }
    out.counted(b"rewritten", control.rewritten.as_slice().len() as u64)?;
    for (old, new) in control.rewritten.as_slice() {
        out.id(*old)?;
        out.id(*new)?;
    }
    out.counted(b"waiting", control.waiting.as_slice().len() as u64)?;
    for id in control.waiting.as_slice() {
        out.id(*id)?;
    }
    out.counted(b"chain", control.chain.as_slice().len() as u64)?;
    for (kind, id) in control.chain.as_slice() {
        out.word(words::chain_word(*kind))?;
        out.id(*id)?;
    }
    Ok(())
}

/// A name, an address, when it was and the zone; or `none`.
fn put_author(out: &mut Answer, author: &Option<Ident>) -> Result<(), AllocError> {
    match author {
        Some(author) => {
            out.bytes(author.name.as_slice())?;
            out.bytes(author.email.as_slice())?;
            out.signed(author.secs)?;
            out.word(author.zone.as_slice())
        }
        None => out.word(b"none"),
    }
}

fn put_form(out: &mut Answer, form: Form) -> Result<(), AllocError> {
    match form {
        Form::New => out.word(b"new"),
        Form::Amend => out.word(b"amend"),
        Form::Merge(other) => {
            out.word(b"merge")?;
            out.id(other)
        }
    }
}

fn put_pending(out: &mut Answer, pending: &Option<Pending>) -> Result<(), AllocError> {
    match pending {
        Some(pending) => {
            put_form(out, pending.form)?;
            out.yes_or_no(pending.edit)?;
            put_author(out, &pending.author)?;
            put_or_none(out, &pending.encoding)?;
            out.bytes(pending.message.as_slice())
        }
        None => out.word(b"none"),
    }
}

pub fn put_control(out: &mut Answer, control: &Control) -> Result<(), AllocError> {
    out.word(words::verb_word(control.verb))?;
    put_options(out, &control.options)?;
    put_or_none(out, &control.head_name)?;
    out.id(control.orig)?;
    out.id(control.onto)?;
    put_lines(out, control.done.as_slice())?;
    put_left(out, &control.left)?;
    out.bytes(control.backup.as_slice())?;
    put_lists(out, control)?;
    out.word(words::stop_word(control.stop))?;
    out.id(control.stopped_head)?;
    out.id_or_none(control.stopped_commit)?;
    put_pending(out, &control.pending)
}
