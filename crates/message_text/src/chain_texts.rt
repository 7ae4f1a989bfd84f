//! The text that a squash chain is edited in.

ghost use Rattle.std.specs.Prelude.{◌≡◌, ◌++◌, ◌∷◌, [], ◌==◌, if◌then◌else◌, map, decimal, IfOk, OnOk};
ghost use Rattle.message_text.specs.Chain.{IsChain, place_of, commented, with_first_commented, header, count_line, section, shown_lines, chain_text};
ghost use Rattle.message_text.specs.Lines.{lines, text_of};

use crate::chain::{ChainItem, is_squash};
use crate::lines::{body_of, lines_of, push_line, push_line_of};
use crate::places::{is_kept, is_marked};
use itoa::Buffer;
use std::alloc::{AllocError, Global};

fn push_number(
    text: &mut Vec<u8>,
    front: &[u8],
    number: usize,
    end: &[u8],
) -> Result<(), AllocError>
    ensures { OnOk result (text.new.items ≡ text.old.items ++ ((front.now ++ decimal number ++ end.now) ++ 10 ∷ [])) }
{
    let mut buffer = Buffer::new();
    push_line_of(text, front, buffer.format(number).as_bytes(), end)
}

#[tactic(auto, unfolding(crate::specs::Chain::count_line))]
fn push_count(text: &mut Vec<u8>, count: usize) -> Result<(), AllocError>
    ensures { OnOk result (text.new.items ≡ text.old.items ++ (count_line count ++ 10 ∷ [])) }
{
    push_number(text, b"# This is a combination of ", count, b" commits.")
}

#[tactic(auto, unfolding(crate::specs::Chain::header))]
fn push_header(text: &mut Vec<u8>, number: usize, is_kept: bool) -> Result<(), AllocError>
    ensures { OnOk result (text.new.items ≡ text.old.items ++ (header number is_kept ++ 10 ∷ [])) }
{
    if number == 1 {
        if is_kept {
            push_line(text, b"# This is the 1st commit message:")
        } else {
            push_line(text, b"# The 1st commit message will be skipped:")
        }
    } else if is_kept {
        push_number(text, b"# This is the commit message #", number, b":")
    } else {
        push_number(
            text,
            b"# The commit message #",
            number,
            b" will be skipped:",
        )
    }
}

/// Writes a line as a comment.
fn push_comment(text: &mut Vec<u8>, line: &[u8]) -> Result<(), AllocError>
    ensures { OnOk result (text.new.items ≡ text.old.items ++ (commented line.now ++ 10 ∷ [])) }
{
    if line.is_empty() {
        push_line(text, b"#")
    } else {
        text.extend_from_slice(b"# ")?;
        push_line(text, line)
    }
}

fn push_comments(text: &mut Vec<u8>, message: &[u8]) -> Result<(), AllocError>
    ensures { OnOk result (text.new.items ≡ text.old.items ++ text_of (map commented (lines message.now))) }
{
    for line in lines_of(message) {
        push_comment(text, line)?;
    }
    Ok(())
}

/// Writes a message with its first paragraph as comments.
#[tactic(auto, using(crate::proofs::MarkLemmas::mark_steps))]
fn push_marked(text: &mut Vec<u8>, message: &[u8]) -> Result<(), AllocError>
    ensures { OnOk result (text.new.items ≡ text.old.items ++ text_of (with_first_commented (lines message.now))) }
{
    let mut has_begun = false;
    let mut has_ended = false;
    for line in lines_of(message) {
        if line.is_empty() {
            has_ended = has_begun;
            push_line(text, line)?;
        } else if has_ended {
            push_line(text, line)?;
        } else {
            has_begun = true;
            push_comment(text, line)?;
        }
    }
    Ok(())
}

#[tactic(auto, unfolding(crate::specs::Chain::shown_lines), using(crate::proofs::MarkLemmas::plain_steps))]
fn push_shown(
    alloc: Global,
    text: &mut Vec<u8>,
    is_squashed: bool,
    is_kept: bool,
    item: &ChainItem,
) -> Result<(), AllocError>
    ensures { OnOk result (text.new.items ≡ text.old.items ++ text_of (shown_lines (place_of is_squashed is_kept item.now))) }
{
    let message = body_of(item.message.as_slice());
    if !is_kept {
        return push_comments(text, message);
    }
    if is_marked(alloc, is_squashed, item)? {
        push_marked(text, message)
    } else {
        push_line(text, message)
    }
}

/// Writes the empty line before a section that is not the first.
fn push_gap(text: &mut Vec<u8>, number: usize) -> Result<(), AllocError>
    ensures { OnOk result (text.new.items ≡ text.old.items ++ (if number == 1 then [] else 10 ∷ [])) }
{
    if number != 1 {
        text.push(b'\n')?;
    }
    Ok(())
}

fn push_section(
    alloc: Global,
    text: &mut Vec<u8>,
    number: usize,
    is_squashed: bool,
    is_kept: bool,
    item: &ChainItem,
) -> Result<(), AllocError>
    ensures { OnOk result (text.new.items ≡ text.old.items ++ text_of (section number (place_of is_squashed is_kept item.now))) }
{
    push_header(text, number, is_kept)?;
    push_line(text, b"")?;
    push_shown(alloc, text, is_squashed, is_kept, item)
}

/// The text that a squash chain is edited in (git-rebase(1)): its count, and behind a header for each item the message without the line
/// feeds at its end. Where a message is not kept, its lines are comments, and where it is, those of a first paragraph that only says
/// what the commit is for. Kept are, from the first squash on, all messages but those of fixups, and of those before it the last.
#[tactic(auto, using(crate::proofs::ChainLemmas::chain_steps))]
pub fn chain_text(alloc: Global, items: &[ChainItem]) -> Result<Vec<u8>, AllocError>
    requires { IsChain items.now }
    ensures { IfOk result (λ text. text.items ≡ chain_text items.now) }
{
    let mut text = Vec::new(alloc);
    push_count(&mut text, items.len())?;
    let mut number = 0;
    let mut is_squashed = false;
    let mut rest = items;
    while let [item, after @ ..] = rest {
        number += 1;
        is_squashed = is_squashed || is_squash(item.kind);
        let is_kept = is_kept(is_squashed, item, after);
        push_gap(&mut text, number)?;
        push_section(alloc, &mut text, number, is_squashed, is_kept, item)?;
        rest = after;
    }
    Ok(text)
}
