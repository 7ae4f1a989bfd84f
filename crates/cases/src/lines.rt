//! Lines of a todo, told part by part.

use crate::answer::Answer;
use std::alloc::AllocError;
use todo_text::{Line, MergeHow, PickKind};

fn pick_word(kind: PickKind) -> &'static [u8] {
    match kind {
        PickKind::Pick => b"pick",
        PickKind::Reword => b"reword",
        PickKind::Edit => b"edit",
        PickKind::Squash => b"squash",
        PickKind::Fixup => b"fixup",
        PickKind::FixupKeep => b"fixup-keep",
        PickKind::FixupEdit => b"fixup-edit",
        PickKind::Drop => b"drop",
        PickKind::Revert => b"revert",
    }
}

fn put_how(out: &mut Answer, how: &MergeHow) -> Result<(), AllocError> {
    match how {
        MergeHow::Plain => out.word(b"plain"),
        MergeHow::Keep { rev } => out.named(b"keep", rev.as_slice()),
        MergeHow::Reword { rev } => out.named(b"reword", rev.as_slice()),
    }
}

/// The parts of a line, its command first.
pub fn put_line(out: &mut Answer, line: &Line) -> Result<(), AllocError> {
    match line {
        Line::Pick { kind, rev, note } => {
            out.named(pick_word(*kind), rev.as_slice())?;
            out.bytes(note.as_slice())
        }
        Line::Exec { command } => out.named(b"exec", command.as_slice()),
        Line::Break => out.word(b"break"),
        Line::Noop => out.word(b"noop"),
        Line::Label { name } => out.named(b"label", name.as_slice()),
        Line::Reset { name, note } => {
            out.named(b"reset", name.as_slice())?;
            out.bytes(note.as_slice())
        }
        Line::Merge { how, head, note } => {
            out.word(b"merge")?;
            put_how(out, how)?;
            out.bytes(head.as_slice())?;
            out.bytes(note.as_slice())
        }
        Line::UpdateRef { name } => out.named(b"update-ref", name.as_slice()),
    }
}
