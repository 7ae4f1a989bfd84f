//! A tree is its map of paths.
#![tactic(auto)]

mod chain;
mod fault;
pub mod laws;
mod named;
mod read;
mod rows;
mod tree;
mod write;

pub use fault::TreeFault;
pub use named::{read_commit_map, read_tree_map, write_trees};
pub use read::read_map;
pub use write::write_map;
