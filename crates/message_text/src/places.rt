//! Which messages of a chain are kept, and which begin with a marked paragraph.

ghost use Rattle.std.specs.Prelude.{◌≡◌, true, IfOk};
ghost use Rattle.std.specs.List.{list_all};
ghost use Rattle.message_text.specs.Chain.{is_kept_before, is_marked, is_marked_subject, place_of};
ghost use Rattle.message_text.specs.Kinds.{is_squash, is_fixup};
ghost use Rattle.message_text.specs.Lines.{up_to};

use crate::chain::{ChainItem, is_first, is_fixup, is_squash};
use crate::subjects::subject;
use std::alloc::{AllocError, Global};

/// Whether up to the next squash only fixups follow.
fn is_last_of_its_kind(items: &[ChainItem]) -> bool
    ensures { result ≡ list_all (λ later. is_fixup later.kind) (up_to (λ later. is_squash later.kind) items.now) }
{
    let mut rest = items;
    while let [item, after @ ..] = rest {
        if is_squash(item.kind) {
            return true;
        }
        if !is_fixup(item.kind) {
            return false;
        }
        rest = after;
    }
    true
}

/// Whether the message of an item is kept, of which and of those before one is a squash, or not.
#[tactic(auto, unfolding(crate::specs::Chain::is_kept_before))]
pub fn is_kept(is_squashed: bool, item: &ChainItem, after: &[ChainItem]) -> bool
    ensures { result ≡ is_kept_before is_squashed item.now after.now }
{
    !is_fixup(item.kind) && (is_squashed || is_last_of_its_kind(after))
}

#[tactic(auto, unfolding(crate::specs::Chain::is_marked_subject))]
fn is_marked_subject(is_squashed: bool, line: &[u8]) -> bool
    ensures { result ≡ is_marked_subject is_squashed line.now }
{
    line.starts_with(b"amend! ")
        || is_squashed && (line.starts_with(b"squash! ") || line.starts_with(b"fixup! "))
}

/// Whether the message of an item begins with a paragraph that says what the commit is for.
#[tactic(auto, unfolding(crate::specs::Chain::is_marked))]
pub fn is_marked(alloc: Global, is_squashed: bool, item: &ChainItem) -> Result<bool, AllocError>
    ensures { IfOk result (λ marked. marked ≡ is_marked (place_of is_squashed true item.now)) }
{
    if is_first(item.kind) || is_fixup(item.kind) {
        return Ok(false);
    }
    let line = subject(alloc, item.message.as_slice())?;
    Ok(is_marked_subject(is_squashed, &line))
}
