//! The text that is printed of an outcome.
#![tactic(auto)]

mod fields;
mod names;
mod refusals;
mod reports;
mod stops;

pub use reports::report;
