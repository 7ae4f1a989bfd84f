//! Tests of merges over a store and children in memory.
#![tactic(auto)]

#[cfg(test)]
mod merge_tests;
