//! One invocation of the program: its words in, its report and exit status out.
#![tactic(auto)]

mod built;
mod invocation;
mod judging;

pub use invocation::{invoke, run};
pub use report_text::report;
pub use seq_model::Outcome;
