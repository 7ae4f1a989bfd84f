//! The line of a commit.

ghost use Rattle.std.specs.Prelude.{◌≡◌, IfOk, not};
ghost use Rattle.message_text.specs.Lines.{from, without_end};
ghost use Rattle.todo_text.specs.Spells.{HasNoFeed, IsSpelled};
ghost use Rattle.todo_plan.specs.Commits.{is_edge, note_of, pick_of};

use bstr::ByteSlice;
use merge_base::Node;
use seq_base::{Bytes, is_blank};
use std::alloc::{AllocError, Global};
use todo_text::{Line, PickKind};

fn is_edge(byte: u8) -> bool
    ensures { result ≡ is_edge byte }
{
    is_blank(byte) || byte == b'\r'
}

fn from_text(text: &[u8]) -> &[u8]
    ensures { result.now ≡ from (λ b. not (is_edge b)) text.now }
{
    let mut rest = text;
    while let [first, after @ ..] = rest {
        if !is_edge(*first) {
            return rest;
        }
        rest = after;
    }
    rest
}

#[tactic(auto, using(crate::proofs::Edges::edge_steps))]
fn without_end(text: &[u8]) -> &[u8]
    ensures { result.now ≡ without_end is_edge text.now }
{
    match text.rfind_not_byteset(b" \t\r") {
        Some(last) => &text[..last + 1],
        None => &text[..0],
    }
}

/// A subject as the note of a line: without blanks and CR bytes at its ends.
pub fn note_of(alloc: Global, subject: &[u8]) -> Result<Bytes, AllocError>
    ensures { IfOk result (λ note. note ≡ note_of subject.now) }
{
    let text = without_end(from_text(subject));
    Ok(Bytes::from_vec(Vec::from_slice(alloc, text)?))
}

/// The line that picks a commit.
#[tactic(auto, using(crate::proofs::Spelled::pick_spells))]
pub fn pick_of(alloc: Global, node: &Node) -> Result<Line, AllocError>
    ensures line { IfOk result (λ line. line ≡ pick_of node.now) }
    ensures spelled { HasNoFeed node.now.subject → IfOk result (λ line. IsSpelled line) }
{
    Ok(Line::Pick {
        kind: PickKind::Pick,
        rev: Bytes::from_vec(node.id.hex(alloc)?),
        note: note_of(alloc, node.subject.as_slice())?,
    })
}
