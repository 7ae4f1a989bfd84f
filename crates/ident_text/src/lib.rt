//! What several of Git's texts have in them: who made a commit and when, and ids in hex digits; and the author's script.
#![tactic(auto)]

mod fault;
mod ident;
mod ids;
mod parts;
mod quotes;
mod script;

pub use fault::IdentFault;
pub use ident::{Ident, ident_text, parse_ident};
pub use ids::{id_digits_of, id_of, id_of_digits};
pub use parts::{IdentParts, ident_of, ident_text_of, is_ident_byte};
pub use script::{author_script, parse_author_script};
