//! Tests of what no case of `store_vectors` says: stores, children, a clock and a sink in memory, drafts, and a tree of many files.
#![tactic(auto)]

#[cfg(test)]
mod clock_tests;
#[cfg(test)]
mod draft_tests;
#[cfg(test)]
mod memory_tests;
#[cfg(test)]
mod object_tests;
#[cfg(test)]
mod sink_tests;
#[cfg(test)]
mod spawner_tests;
#[cfg(test)]
mod tree_tests;
