//! The message of a squash chain that no one edits.

ghost use Rattle.std.specs.Prelude.{◌≡◌, ◌++◌, ◌∷◌, [], true, IfOk};
ghost use Rattle.std.specs.List.{join_with_byte};
ghost use Rattle.message_text.specs.Chain.{IsChain, place_of, without_first, kept_message, kept_text};
ghost use Rattle.message_text.specs.Lines.{lines};

use crate::chain::{ChainItem, is_first, is_squash};
use crate::lines::{body_of, lines_of, push_line};
use crate::places::{is_kept, is_marked};
use std::alloc::{AllocError, Global};

/// A message without its first paragraph and the empty lines behind that.
#[tactic(auto, using(crate::proofs::KeptLemmas::kept_steps))]
fn without_first_paragraph(alloc: Global, message: &[u8]) -> Result<Vec<u8>, AllocError>
    ensures { IfOk result (λ text. text.items ≡ join_with_byte 10 (without_first (lines message.now)) ++ 10 ∷ []) }
{
    let mut text = Vec::new(alloc);
    let mut has_begun = false;
    let mut is_over = false;
    let mut is_writing = false;
    for line in lines_of(message) {
        if is_writing {
            push_line(&mut text, line)?;
        } else if line.is_empty() {
            if has_begun {
                is_over = true;
            } else {
                push_line(&mut text, line)?;
            }
        } else if is_over {
            is_writing = true;
            push_line(&mut text, line)?;
        } else {
            has_begun = true;
        }
    }
    if text.is_empty() {
        return Vec::from_slice(alloc, b"\n");
    }
    Ok(text)
}

#[tactic(auto, unfolding(crate::specs::Chain::kept_message), using(crate::proofs::KeptLemmas::joined_steps))]
fn kept_message(alloc: Global, is_squashed: bool, item: &ChainItem) -> Result<Vec<u8>, AllocError>
    ensures { IfOk result (λ text. text.items ≡ kept_message (place_of is_squashed true item.now)) }
{
    let message = item.message.as_slice();
    if is_first(item.kind) {
        return Vec::from_slice(alloc, message);
    }
    if is_marked(alloc, is_squashed, item)? {
        return without_first_paragraph(alloc, body_of(message));
    }
    let mut text = Vec::from_slice(alloc, body_of(message))?;
    text.push(b'\n')?;
    Ok(text)
}

/// The message of a squash chain that no one edits (git-rebase(1)): of the last message that is kept, that of the chain's first commit
/// as it is, and of another the text without the line feeds at its end, without a first paragraph that only says what the commit is
/// for and the empty lines behind that, and with one line feed.
#[tactic(auto, unfolding(crate::specs::Chain::kept_text))]
pub fn kept_text(alloc: Global, items: &[ChainItem]) -> Result<Vec<u8>, AllocError>
    requires { IsChain items.now }
    ensures { IfOk result (λ text. text.items ≡ kept_text items.now) }
{
    let mut text = Vec::new(alloc);
    let mut is_squashed = false;
    let mut rest = items;
    while let [item, after @ ..] = rest {
        is_squashed = is_squashed || is_squash(item.kind);
        if is_kept(is_squashed, item, after) {
            text = kept_message(alloc, is_squashed, item)?;
        }
        rest = after;
    }
    Ok(text)
}
