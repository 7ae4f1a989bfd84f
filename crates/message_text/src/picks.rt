//! The messages of picks with -x and of reverts.

ghost use Rattle.std.specs.Prelude.{◌≡◌, ◌≤◌, ◌++◌, length, not, IfOk, OnOk};
ghost use Rattle.std.specs.List.{position};
ghost use Rattle.message_text.specs.Picked.{is_name_byte, name_len, is_trailer, is_trailer_line, has_trailers, picked_text, reverted_lines, revert_text};
ghost use Rattle.message_text.specs.Lines.{text_of};

use crate::lines::{body_of, lines_of, push_line, push_line_of};
use seq_base::Id;
use std::alloc::{AllocError, Global};

fn is_name_byte(byte: u8) -> bool
    ensures { result ≡ is_name_byte byte }
{
    byte.is_ascii_alphanumeric() || byte == b'-'
}

fn name_end(line: &[u8]) -> Option<usize>
    ensures { result ≡ position (λ b. not (is_name_byte b)) line.now }
{
    line.iter().position(|byte| !is_name_byte(*byte))
}

#[tactic(auto, using(crate::proofs::TrailerLemmas::name_steps))]
fn name_len(line: &[u8]) -> usize
    ensures len { result ≡ name_len line.now }
    ensures within { result ≤ length line.now }
{
    match name_end(line) {
        Some(end) => end,
        None => line.len(),
    }
}

/// A name of letters, digits and `-`, then `: ` and some text.
fn is_trailer(line: &[u8]) -> bool
    ensures { result ≡ is_trailer line.now }
{
    let name = name_len(line);
    name > 0 && line[name..].starts_with(b": ") && line.len() > name + 2
}

fn is_trailer_line(line: &[u8]) -> bool
    ensures { result ≡ is_trailer_line line.now }
{
    is_trailer(line) || line.starts_with(b"(cherry picked from commit ")
}

/// Whether the last paragraph is not the first, and consists of trailers and of lines that tell of a pick.
#[tactic(auto, using(crate::proofs::TrailerLemmas::trailer_steps))]
fn has_trailers(text: &[u8]) -> bool
    ensures { result ≡ has_trailers text.now }
{
    let mut has_first = false;
    let mut is_inside = false;
    let mut ends_in_trailers = false;
    for line in lines_of(text) {
        if line.is_empty() {
            is_inside = false;
        } else {
            let so_far = if is_inside {
                ends_in_trailers
            } else {
                has_first
            };
            ends_in_trailers = so_far && is_trailer_line(line);
            has_first = true;
            is_inside = true;
        }
    }
    ends_in_trailers
}

/// The message of a commit that was picked with `-x` (git-cherry-pick(1)): line feeds at the end are off, and a line says from which
/// commit it came, behind an empty line unless the last paragraph is not the first and consists of trailers (a name of letters,
/// digits and `-`, then `: ` and text) and of such lines.
#[tactic(auto, using(crate::proofs::PickLemmas::pick_steps))]
pub fn picked_text(alloc: Global, text: &[u8], id: Id) -> Result<Vec<u8>, AllocError>
    ensures { IfOk result (λ picked. picked.items ≡ picked_text text.now id) }
{
    let hex = id.hex(alloc)?;
    let body = body_of(text);
    let mut picked = Vec::new(alloc);
    push_line(&mut picked, body)?;
    if has_trailers(body) {
        push_line_of(&mut picked, b"(cherry picked from commit ", &hex, b")")?;
        Ok(picked)
    } else {
        push_line(&mut picked, b"")?;
        push_line_of(&mut picked, b"(cherry picked from commit ", &hex, b")")?;
        Ok(picked)
    }
}

/// Says which commit was reverted, and against which parent.
fn push_reverted(
    alloc: Global,
    message: &mut Vec<u8>,
    id: Id,
    parent: Option<Id>,
) -> Result<(), AllocError>
    ensures { OnOk result (message.new.items ≡ message.old.items ++ text_of (reverted_lines id parent)) }
{
    let hex = id.hex(alloc)?;
    match parent {
        None => {
            push_line_of(message, b"This reverts commit ", &hex, b".")?;
            Ok(())
        }
        Some(parent) => {
            push_line_of(message, b"This reverts commit ", &hex, b", reversing")?;
            let against = parent.hex(alloc)?;
            push_line_of(message, b"changes made to ", &against, b".")?;
            Ok(())
        }
    }
}

/// The message of a commit that reverts one of that subject (git-revert(1)). With `-m` it names the parent that the changes were
/// taken against.
#[tactic(auto, unfolding(crate::specs::Picked::revert_text))]
pub fn revert_text(
    alloc: Global,
    subject: &[u8],
    id: Id,
    parent: Option<Id>,
) -> Result<Vec<u8>, AllocError>
    ensures { IfOk result (λ message. message.items ≡ revert_text subject.now id parent) }
{
    let mut message = Vec::new(alloc);
    push_line_of(&mut message, b"Revert \"", subject, b"\"")?;
    push_line(&mut message, b"")?;
    push_reverted(alloc, &mut message, id, parent)?;
    Ok(message)
}
