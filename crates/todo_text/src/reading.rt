//! A line is read.

ghost use Rattle.std.specs.Prelude.{◌≡◌};
ghost use Rattle.todo_text.specs.Gives.{Gives, WordGives};
ghost use Rattle.todo_text.specs.ReadLine.{rev_line, fixup_line, exec_line, lone_line, lone_word, label_line, update_line, reset_line, arguments_line, line_of};

use crate::command::{Command, command_of};
use crate::fault::LineFault;
use crate::line::{Line, PickKind};
use crate::merges::merge_line;
use crate::names::{is_label, is_updatable};
use crate::notes::note_of;
use crate::todo_kind::TodoKind;
use crate::words::{bytes_of, first_word, from_word, lacks_word};
use std::alloc::Global;

#[tactic(auto, unfolding(crate::specs::ReadLine::rev_line))]
fn rev_line(alloc: Global, kind: PickKind, text: &[u8]) -> Result<Line, LineFault>
    ensures { Gives result (rev_line kind text.now) }
{
    let (rev, behind) = first_word(text);
    if rev.is_empty() {
        return Err(LineFault::Bad(TodoKind::Missing));
    }
    Ok(Line::Pick {
        kind,
        rev: bytes_of(alloc, rev)?,
        note: bytes_of(alloc, note_of(behind))?,
    })
}

#[tactic(auto, unfolding(crate::specs::ReadLine::fixup_line))]
fn fixup_line(alloc: Global, text: &[u8]) -> Result<Line, LineFault>
    ensures { Gives result (fixup_line text.now) }
{
    let (word, behind) = first_word(text);
    if word == b"-C".as_slice() {
        return rev_line(alloc, PickKind::FixupKeep, behind);
    }
    if word == b"-c".as_slice() {
        return rev_line(alloc, PickKind::FixupEdit, behind);
    }
    rev_line(alloc, PickKind::Fixup, text)
}

#[tactic(auto, unfolding(crate::specs::ReadLine::exec_line))]
fn exec_line(alloc: Global, text: &[u8]) -> Result<Line, LineFault>
    ensures { Gives result (exec_line text.now) }
{
    if lacks_word(text) {
        return Err(LineFault::Bad(TodoKind::Missing));
    }
    Ok(Line::Exec {
        command: bytes_of(alloc, from_word(text))?,
    })
}

#[tactic(auto, unfolding(crate::specs::ReadLine::lone_line))]
fn lone_line(line: Line, text: &[u8]) -> Result<Line, LineFault>
    ensures { Gives result (lone_line line text.now) }
{
    if !lacks_word(text) {
        return Err(LineFault::Bad(TodoKind::Extra));
    }
    Ok(line)
}

/// The one word of a text.
#[tactic(auto, unfolding(crate::specs::ReadLine::lone_word))]
fn lone_word(text: &[u8]) -> Result<&[u8], LineFault>
    ensures { WordGives result (lone_word text.now) }
{
    let (word, behind) = first_word(text);
    if word.is_empty() {
        return Err(LineFault::Bad(TodoKind::Missing));
    }
    if !lacks_word(behind) {
        return Err(LineFault::Bad(TodoKind::Extra));
    }
    Ok(word)
}

#[tactic(auto, unfolding(crate::specs::ReadLine::label_line))]
fn label_line(alloc: Global, text: &[u8]) -> Result<Line, LineFault>
    ensures { Gives result (label_line text.now) }
{
    let name = lone_word(text)?;
    if !is_label(alloc, name)? {
        return Err(LineFault::Bad(TodoKind::Label));
    }
    Ok(Line::Label {
        name: bytes_of(alloc, name)?,
    })
}

#[tactic(auto, unfolding(crate::specs::ReadLine::update_line))]
fn update_line(alloc: Global, text: &[u8]) -> Result<Line, LineFault>
    ensures { Gives result (update_line text.now) }
{
    let name = lone_word(text)?;
    if !is_updatable(name) {
        return Err(LineFault::Bad(TodoKind::RefName));
    }
    Ok(Line::UpdateRef {
        name: bytes_of(alloc, name)?,
    })
}

#[tactic(auto, unfolding(crate::specs::ReadLine::reset_line))]
fn reset_line(alloc: Global, text: &[u8]) -> Result<Line, LineFault>
    ensures { Gives result (reset_line text.now) }
{
    let (name, behind) = first_word(text);
    if name.is_empty() {
        return Err(LineFault::Bad(TodoKind::Missing));
    }
    Ok(Line::Reset {
        name: bytes_of(alloc, name)?,
        note: bytes_of(alloc, note_of(behind))?,
    })
}

#[tactic(auto, unfolding(crate::specs::ReadLine::arguments_line))]
fn arguments_line(alloc: Global, command: Command, text: &[u8]) -> Result<Line, LineFault>
    ensures { Gives result (arguments_line command text.now) }
{
    match command {
        Command::Pick(kind) => rev_line(alloc, kind, text),
        Command::Fixup => fixup_line(alloc, text),
        Command::Exec => exec_line(alloc, text),
        Command::Break => lone_line(Line::Break, text),
        Command::Noop => lone_line(Line::Noop, text),
        Command::Label => label_line(alloc, text),
        Command::Reset => reset_line(alloc, text),
        Command::Merge => merge_line(alloc, text),
        Command::UpdateRef => update_line(alloc, text),
    }
}

/// The line that a text spells, else what is wrong with it.
#[tactic(auto, unfolding(crate::specs::ReadLine::line_of))]
pub fn line_of(alloc: Global, text: &[u8]) -> Result<Line, LineFault>
    ensures { Gives result (line_of text.now) }
{
    let (word, behind) = first_word(text);
    match command_of(word) {
        None => Err(LineFault::Bad(TodoKind::Command)),
        Some(command) => arguments_line(alloc, command, behind),
    }
}
