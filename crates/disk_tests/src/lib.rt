//! Tests of the outside of a real machine: files, children, the clock, standard output and what a program is started with.
#![tactic(auto)]

#[cfg(test)]
mod clock_tests;
#[cfg(test)]
mod disk_store_tests;
#[cfg(test)]
mod sink_tests;
#[cfg(test)]
mod spawner_tests;
#[cfg(test)]
mod start_tests;
