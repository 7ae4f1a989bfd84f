//! The lines of a list, one after another, to a stop or to the end of the list with its refs. Each part follows its definition, over any store.
#![tactic(auto)]

mod before;
mod compare;
mod end;
mod end_refs;
mod lines;
mod refs;

pub use before::{between, between_halt};
pub use compare::value_or_none;
pub use lines::run_lines;
pub use refs::line_for;
