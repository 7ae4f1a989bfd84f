//! Words that name commits, as text: a base, maybe an entry of its reflog, and steps to parents.
#![tactic(auto)]

mod rev;

pub use rev::{Rev, RevTextFault, Step, parse_rev};
