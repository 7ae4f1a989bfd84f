//! Which attribute a path has: patterns of gitattributes(5), and the rule files that use them.
#![tactic(auto)]

mod attribute;
mod cut;
mod letter;
mod macros;
mod matching;
mod merging;
mod name;
mod piece;
mod reach;
mod rules;

pub use attribute::MergeAttr;
pub use matching::matches;
pub use merging::merge_attr;
pub use rules::{Line, Rules, parse_rules};
