//! Graphs of commits: ancestors and merge bases, and in `specs/` the range between tips.
#![tactic(auto)]

mod graph;
mod ids;
mod search;

pub use graph::{Graph, GraphFault, Node};
pub use ids::Ids;
pub use search::{ancestors, bases, is_ancestor};
