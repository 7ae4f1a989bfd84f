//! The words of the command line: what they ask for, or what is wrong with them.
#![tactic(auto)]

mod command;
mod fault;
mod matches;
mod plain;
mod read;
mod reading;
mod row;
mod told;
mod value;
mod verb;

pub use fault::BadWords;
pub use reading::read_words;
pub use seq_model::{
    Action, Command, Empty, Options, PlumbWords, StartWords, UsageFault, Values, Verb,
};
