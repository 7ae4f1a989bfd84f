//! The history of commits, read from a store, and the range of commits between tips.
#![tactic(auto)]

mod loads;
mod ranges;

pub use loads::load;
pub use ranges::range;
