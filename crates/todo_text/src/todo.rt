//! A todo is read.

ghost use Rattle.std.specs.Prelude.{◌≡◌, ◌||◌, ◌<◌, ◌∷◌, length, All, IfOk};
ghost use Rattle.std.specs.Result.{result_map_both};
ghost use Rattle.std.specs.Str.Lines.{lines, strip_carriage_return};
ghost use Rattle.todo_text.specs.Spells.{IsSpelled};
ghost use Rattle.todo_text.specs.Todos.{is_comment, counts, may_stand, is_drop, squashes, IsTodoReading};
ghost use Rattle.todo_text.specs.Kinds.{is_squash};
ghost use Rattle.todo_text.specs.ReadTodo.{line_in, LineGives, todo_of, TodoGives};

use crate::fault::{LineFault, TodoFault};
use crate::line::{Line, PickKind};
use crate::reading::line_of;
use crate::todo_kind::TodoKind;
use crate::words::from_word;
use memchr::memchr;
use std::alloc::Global;

fn without_return(line: &[u8]) -> &[u8]
    ensures { result.now ≡ strip_carriage_return line.now }
{
    match line {
        [front @ .., last] => { if *last == b'\r' { front } else { line } }
        [] => line,
    }
}

/// The first line of a text that is not empty, without its line end, and what stands behind it.
pub fn first_line(text: &[u8]) -> (&[u8], &[u8])
    requires { 0 < length text.now }
    ensures first { lines text.now ≡ result.0.now ∷ lines result.1.now }
    ensures shorter { length result.1.now < length text.now }
{
    match memchr(b'\n', text) {
        Some(end) => (without_return(&text[..end]), &text[end + 1..]),
        None => (text, &[]),
    }
}

/// Whether a line of a todo is empty, or a comment (git-rebase(1), "INTERACTIVE MODE").
pub fn is_comment(text: &[u8]) -> bool
    ensures { result ≡ is_comment text.now }
{
    match from_word(text) {
        [] => true,
        [first, ..] => *first == b'#',
    }
}

fn is_squash(kind: PickKind) -> bool
    ensures { result ≡ is_squash kind }
{
    matches!(
        kind,
        PickKind::Squash | PickKind::Fixup | PickKind::FixupKeep | PickKind::FixupEdit
    )
}

fn squashes(line: &Line) -> bool
    ensures { result ≡ squashes line.now }
{
    match line {
        Line::Pick { kind, .. } => is_squash(*kind),
        _ => false,
    }
}

fn is_drop(kind: PickKind) -> bool
    ensures { result ≡ is_drop kind }
{
    matches!(kind, PickKind::Drop)
}

/// Whether a later squash has the line for an earlier one.
fn counts(line: &Line) -> bool
    ensures { result ≡ counts line.now }
{
    match line {
        Line::Pick { kind, .. } => !is_drop(*kind),
        Line::Noop => false,
        _ => true,
    }
}

/// Whether there is an earlier line behind this one, where there is one before it or not.
fn is_earlier(earlier: bool, line: &Line) -> bool
    ensures { result ≡ (earlier || counts line.now) }
{
    earlier || counts(line)
}

fn may_stand(earlier: bool, line: &Line) -> bool
    ensures { result ≡ may_stand earlier line.now }
{
    earlier || !squashes(line)
}

#[tactic(auto, unfolding(crate::specs::ReadTodo::line_in))]
fn line_in(alloc: Global, earlier: bool, number: u64, text: &[u8]) -> Result<Line, TodoFault>
    ensures { LineGives number result (line_in earlier text.now) }
{
    match line_of(alloc, text) {
        Ok(line) => {
            if !may_stand(earlier, &line) {
                return Err(TodoFault::Bad {
                    line: number,
                    kind: TodoKind::NoEarlier,
                });
            }
            Ok(line)
        }
        Err(LineFault::Bad(kind)) => Err(TodoFault::Bad { line: number, kind }),
        Err(LineFault::Memory) => Err(TodoFault::Memory),
    }
}

fn read_lines(alloc: Global, bytes: &[u8], earlier: bool) -> Result<Vec<Line>, TodoFault>
    ensures { TodoGives (result_map_both (λ v. v.items) (λ e. e) result) (todo_of earlier 1 (lines bytes.now)) }
{
    let mut read = Vec::new(alloc);
    let mut has_earlier = earlier;
    let mut number: u64 = 0;
    let mut rest = bytes;
    while !rest.is_empty() {
        let (text, behind) = first_line(rest);
        number += 1;
        if !is_comment(text) {
            let line = match line_in(alloc, has_earlier, number, text) {
                Ok(line) => line,
                Err(fault) => return Err(fault),
            };
            has_earlier = is_earlier(has_earlier, &line);
            read.push(line)?;
        }
        rest = behind;
    }
    Ok(read)
}

/// The lines of a todo (git-rebase(1), "INTERACTIVE MODE" and "REBASING MERGES"), else its first bad line. Blanks in front of a line
/// and a CR before LF are dropped; empty lines and lines that begin with `#` are comments. Words are separated by spaces and tabs, and
/// a command is its word or its letter. A note may begin with `# `, which is dropped with the blanks around.
///
/// A bad line is counted from 1 with comments, and has the first kind of this list that applies: no command; an argument is missing;
/// `break` or `noop` has an argument, or `label` or `update-ref` more than one; the name of a label is `#` or makes no ref below
/// `refs/rewritten/`; the name to update is no ref below `refs/` or is a label's; two heads stand before `#`; `squash` or `fixup`
/// stands where `earlier` is false and each line before it, if any, is `noop` or `drop`.
pub fn parse_todo(alloc: Global, bytes: &[u8], earlier: bool) -> Result<Vec<Line>, TodoFault>
    ensures reads { IsTodoReading earlier bytes.now (result_map_both (λ v. v.items) (λ e. e) result) }
    // It follows, and is what `line_text` asks for.
    ensures spelled { IfOk result (λ v. All IsSpelled v.items) }
{
    read_lines(alloc, bytes, earlier)
}
