//! The files of a stopped list are read: each is recalled as what it was written of (git-rebase(1)).
#![tactic(auto)]

mod found;
mod keys;
mod lines;
mod opts;
mod settings;
mod values;

pub use found::bytes_at;
pub use lines::{read_chain, read_labels, read_rewritten, read_updates, read_waiting};
pub use opts::{SetOptions, read_opts};
pub use settings::{Settings, read_settings};
pub use values::{read_author, read_head_name, read_id, read_lines, read_optional_id};
