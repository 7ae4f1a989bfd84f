//! The configuration of a repository as text: its settings in their order, and the last value of a key.
#![tactic(auto)]

mod bytes;
mod config;
mod fault;
mod parse;
mod place;
mod reader;
mod returns;

pub use config::{Config, Setting};
pub use fault::LineFault;
pub use parse::parse_config;
