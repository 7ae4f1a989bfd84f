//! Refs as text: HEAD, the packed refs and reflogs; and in `specs/` what the refs of a world are.
#![tactic(auto)]

mod fault;
mod head;
pub mod laws;
mod log;
mod packed;
mod read_log;
mod read_packed;

pub use fault::{HeadFault, LineFault};
pub use head::{Head, head_text, parse_head, parse_loose};
pub use log::{LogLine, log_text};
pub use packed::packed_text;
pub use read_log::parse_log;
pub use read_packed::parse_packed;
