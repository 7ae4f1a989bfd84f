//! The files of a stopped list in a store: what they are found to be (git-rebase(1), git-cherry-pick(1), git-revert(1)).
#![tactic(auto)]

mod fault;
mod found;
mod judge;
mod judged;
mod laws;
mod left;
mod pending;
mod read;
mod rebase;
mod sequence;

pub use fault::StateFault;
pub use found::Found;
pub use laws::{edits_leave_what_is_read, files_are_read_back, stop_leaves_what_is_read};
pub use read::read_state;
