//! Tests of commits that are made over a store and children in memory.
#![tactic(auto)]

#[cfg(test)]
mod commit_tests;
#[cfg(test)]
mod fixture;
#[cfg(test)]
mod stop_tests;
