//! Lines that merge.

ghost use Rattle.std.specs.Prelude.{◌≡◌};
ghost use Rattle.todo_text.specs.Gives.{Gives, WordGives};
ghost use Rattle.todo_text.specs.Words.{lacks_head};
ghost use Rattle.todo_text.specs.ReadLine.{merge_note, head_line, keep_line, reword_line, merge_line};

use crate::fault::LineFault;
use crate::line::{Line, MergeHow};
use crate::todo_kind::TodoKind;
use crate::words::{bytes_of, first_word, is_hash, trimmed};
use std::alloc::Global;

/// A note follows `#`.
#[tactic(auto, unfolding(crate::specs::ReadLine::merge_note))]
fn merge_note(text: &[u8]) -> Result<&[u8], LineFault>
    ensures { WordGives result (merge_note text.now) }
{
    let (word, behind) = first_word(text);
    if word.is_empty() {
        return Ok(word);
    }
    if is_hash(word) {
        return Ok(trimmed(behind));
    }
    Err(LineFault::Bad(TodoKind::Octopus))
}

fn lacks_head(text: &[u8]) -> bool
    ensures { result ≡ lacks_head text.now }
{
    let (word, _) = first_word(text);
    word.is_empty() || is_hash(word)
}

#[tactic(auto, unfolding(crate::specs::ReadLine::head_line))]
fn head_line(alloc: Global, how: MergeHow, text: &[u8]) -> Result<Line, LineFault>
    ensures { Gives result (head_line how text.now) }
{
    if lacks_head(text) {
        return Err(LineFault::Bad(TodoKind::Missing));
    }
    let (head, behind) = first_word(text);
    let note = merge_note(behind)?;
    Ok(Line::Merge {
        how,
        head: bytes_of(alloc, head)?,
        note: bytes_of(alloc, note)?,
    })
}

#[tactic(auto, unfolding(crate::specs::ReadLine::keep_line))]
fn keep_line(alloc: Global, text: &[u8]) -> Result<Line, LineFault>
    ensures { Gives result (keep_line text.now) }
{
    let (word, behind) = first_word(text);
    if word.is_empty() {
        return Err(LineFault::Bad(TodoKind::Missing));
    }
    let rev = bytes_of(alloc, word)?;
    head_line(alloc, MergeHow::Keep { rev }, behind)
}

#[tactic(auto, unfolding(crate::specs::ReadLine::reword_line))]
fn reword_line(alloc: Global, text: &[u8]) -> Result<Line, LineFault>
    ensures { Gives result (reword_line text.now) }
{
    let (word, behind) = first_word(text);
    if word.is_empty() {
        return Err(LineFault::Bad(TodoKind::Missing));
    }
    let rev = bytes_of(alloc, word)?;
    head_line(alloc, MergeHow::Reword { rev }, behind)
}

#[tactic(auto, unfolding(crate::specs::ReadLine::merge_line))]
pub fn merge_line(alloc: Global, text: &[u8]) -> Result<Line, LineFault>
    ensures { Gives result (merge_line text.now) }
{
    let (word, behind) = first_word(text);
    if word == b"-C".as_slice() {
        return keep_line(alloc, behind);
    }
    if word == b"-c".as_slice() {
        return reword_line(alloc, behind);
    }
    head_line(alloc, MergeHow::Plain, text)
}
