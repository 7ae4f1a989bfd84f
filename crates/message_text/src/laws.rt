//! What holds of the texts of messages. Each of these functions does nothing: its clause is the law.

ghost use Rattle.std.specs.Prelude.{◌≡◌, true, false, All, ◌∷◌};
ghost use Rattle.message_text.specs.Chain.{is_marked, places, chain_text, kept_text};
ghost use Rattle.message_text.specs.Cleaned.{cleaned, IsClean, StandsIn};
ghost use Rattle.message_text.specs.Kinds.{is_first, is_fixup};

use crate::chain::ChainItem;

/// Cleaning twice is cleaning once.
#[tactic(auto, using(crate::proofs::LawSteps::law_steps))]
pub fn cleaning_twice(text: &[u8])
    ensures { cleaned (cleaned text.now) ≡ cleaned text.now }
{}

/// A cleaned text is empty or ends in one line feed, no line begins with `#` or ends in blanks, and no two empty lines follow each
/// other.
#[tactic(auto, using(crate::proofs::LawSteps::law_steps))]
pub fn cleaned_text_is_clean(text: &[u8])
    ensures { IsClean (cleaned text.now) }
{}

/// A chain of fixups alone keeps its first message as it is.
#[tactic(auto, using(crate::proofs::LawSteps::law_steps))]
pub fn fixups_keep_the_first_message(first: &ChainItem, fixups: &[ChainItem])
    ensures { is_first first.now.kind ≡ true → All (λ later. is_fixup later.kind ≡ true) fixups.now
        → kept_text (first.now ∷ fixups.now) ≡ first.now.message }
{}

/// A message that a chain keeps and that has no marked paragraph stands, cleaned, in the cleaned text of the chain.
#[tactic(auto, using(crate::proofs::LawSteps::law_steps))]
pub fn kept_messages_stand_in_the_text(items: &[ChainItem])
    ensures { All (λ place. place.is_kept ≡ true → is_marked place ≡ false
        → StandsIn (cleaned place.item.message) (cleaned (chain_text items.now))) (places items.now) }
{}
