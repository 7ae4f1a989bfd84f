//! A line is written.

ghost use Rattle.std.specs.Prelude.{◌≡◌, ◌++◌, ◌∷◌, [], true, IfOk, OnOk};
ghost use Rattle.todo_text.specs.Spells.{IsSpelled, pick_word, pick_option, merge_option, command_word, arguments, spaced, note_text, text_of, ending, ends_in_return, line_end, canonical};
ghost use Rattle.todo_text.specs.Todos.{SpellsTodo};

use crate::line::{Line, MergeHow, PickKind};
use std::alloc::{AllocError, Global};

/// Writes a word behind a space.
fn push_word(text: &mut Vec<u8>, word: &[u8]) -> Result<(), AllocError>
    ensures { OnOk result (text.new.items ≡ text.old.items ++ 32 ∷ word.now) }
{
    text.push(b' ')?;
    text.extend_from_slice(word)
}

/// Writes a note that is not empty behind its mark.
fn push_note(text: &mut Vec<u8>, note: &[u8]) -> Result<(), AllocError>
    ensures { OnOk result (text.new.items ≡ text.old.items ++ note_text note.now) }
{
    if note.is_empty() {
        return Ok(());
    }
    text.extend_from_slice(b" # ")?;
    text.extend_from_slice(note)
}

fn pick_word(kind: PickKind) -> &'static [u8]
    ensures { result.now ≡ pick_word kind }
{
    match kind {
        PickKind::Pick => b"pick",
        PickKind::Reword => b"reword",
        PickKind::Edit => b"edit",
        PickKind::Squash => b"squash",
        PickKind::Fixup | PickKind::FixupKeep | PickKind::FixupEdit => b"fixup",
        PickKind::Drop => b"drop",
        PickKind::Revert => b"revert",
    }
}

fn push_pick_option(text: &mut Vec<u8>, kind: PickKind) -> Result<(), AllocError>
    ensures { OnOk result (text.new.items ≡ text.old.items ++ spaced (pick_option kind)) }
{
    match kind {
        PickKind::FixupKeep => push_word(text, b"-C"),
        PickKind::FixupEdit => push_word(text, b"-c"),
        _ => Ok(()),
    }
}

fn push_merge_option(text: &mut Vec<u8>, how: &MergeHow) -> Result<(), AllocError>
    ensures { OnOk result (text.new.items ≡ text.old.items ++ spaced (merge_option how.now)) }
{
    match how {
        MergeHow::Plain => Ok(()),
        MergeHow::Keep { rev } => {
            push_word(text, b"-C")?;
            push_word(text, rev.as_slice())
        }
        MergeHow::Reword { rev } => {
            push_word(text, b"-c")?;
            push_word(text, rev.as_slice())
        }
    }
}

fn command_word(line: &Line) -> &'static [u8]
    ensures { result.now ≡ command_word line.now }
{
    match line {
        Line::Pick { kind, .. } => pick_word(*kind),
        Line::Exec { .. } => b"exec",
        Line::Break => b"break",
        Line::Noop => b"noop",
        Line::Label { .. } => b"label",
        Line::Reset { .. } => b"reset",
        Line::Merge { .. } => b"merge",
        Line::UpdateRef { .. } => b"update-ref",
    }
}

/// Writes what stands behind the command.
fn push_arguments(text: &mut Vec<u8>, line: &Line) -> Result<(), AllocError>
    ensures { OnOk result (text.new.items ≡ text.old.items ++ (spaced (arguments line.now) ++ ending line.now)) }
{
    match line {
        Line::Pick { kind, rev, note } => {
            push_pick_option(text, *kind)?;
            push_word(text, rev.as_slice())?;
            push_note(text, note.as_slice())
        }
        Line::Exec { command } => push_word(text, command.as_slice()),
        Line::Break | Line::Noop => Ok(()),
        Line::Label { name } | Line::UpdateRef { name } => push_word(text, name.as_slice()),
        Line::Reset { name, note } => {
            push_word(text, name.as_slice())?;
            push_note(text, note.as_slice())
        }
        Line::Merge { how, head, note } => {
            push_merge_option(text, how)?;
            push_word(text, head.as_slice())?;
            push_note(text, note.as_slice())
        }
    }
}

fn ends_in_return(text: &[u8]) -> bool
    ensures { result ≡ ends_in_return text.now }
{
    matches!(text, [.., b'\r'])
}

/// Writes the end of a line.
fn push_line_end(text: &mut Vec<u8>) -> Result<(), AllocError>
    ensures { OnOk result (text.new.items ≡ text.old.items ++ line_end text.old.items) }
{
    if ends_in_return(text.as_slice()) {
        return text.extend_from_slice(b"\r\n");
    }
    text.extend_from_slice(b"\n")
}

/// The one text of a line that is written: the whole word of its command, a space before each word, ` # ` before a note that is not
/// empty, and LF (git-rebase(1), "INTERACTIVE MODE"). A CR at the end of the text has one more before the LF, where one is dropped when
/// the line is read.
#[tactic(auto, unfolding(crate::specs::Spells::canonical, crate::specs::Spells::text_of))]
pub fn line_text(alloc: Global, line: &Line) -> Result<Vec<u8>, AllocError>
    requires { IsSpelled line.now }
    ensures canonical { IfOk result (λ text. text.items ≡ canonical line.now) }
    ensures spells { IfOk result (λ text. SpellsTodo true text.items (line.now ∷ [])) }
{
    let mut text = Vec::from_slice(alloc, command_word(line))?;
    push_arguments(&mut text, line)?;
    push_line_end(&mut text)?;
    Ok(text)
}
