//! What a clean pick leaves, in Git's words. Each law is the contract of a function that does nothing.
#![tactic(auto)]

mod laws;

pub use laws::pick_leaves;
