//! Children as steps: one that has to end with 0, and hooks, which are run where they are there.
#![tactic(auto)]

mod child;
mod hooks;

pub use child::{ChildEnd, ask_child, is_good, run_child};
pub use hooks::{ask_hook, has_hook};
