//! The todo that a rebase begins with: which commits it has, in which order, and the lines around them.
#![tactic(auto)]

mod execs;
mod fault;
mod groups;
mod linear;
mod lines;
mod merges;
mod rows;
mod segments;
mod squashes;
mod update_refs;

pub use execs::add_exec;
pub use fault::PlanFault;
pub use linear::plan_linear;
pub use merges::plan_merges;
pub use squashes::autosquash;
pub use update_refs::add_update_refs;
