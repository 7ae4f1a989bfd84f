//! One clean pick, over any store: what it finds, what it makes before its commit, and the commit.
#![tactic(auto)]

mod clean;
mod committing;
mod making;
mod merging;
mod parent;
mod picking;
mod unbuilt;

pub use clean::clean_map;
pub use committing::Prepared;
pub use picking::{finish, prepare};
