//! The texts of messages: cleaned, as subjects, of squash chains, of picks and of reverts.
#![tactic(auto)]

mod chain;
mod chain_texts;
mod cleaning;
mod kept_texts;
mod laws;
mod lines;
mod picks;
mod places;
mod subjects;

pub use chain::{ChainItem, ChainKind};
pub use chain_texts::chain_text;
pub use cleaning::clean;
pub use kept_texts::kept_text;
pub use laws::{
    cleaned_text_is_clean, cleaning_twice, fixups_keep_the_first_message,
    kept_messages_stand_in_the_text,
};
pub use picks::{picked_text, revert_text};
pub use subjects::subject;
