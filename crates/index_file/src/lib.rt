//! The index file, version 2, both ways.
#![tactic(auto)]

mod entry;
mod fault;
mod fields;
mod order;
mod read;
mod write;

pub use entry::IndexEntry;
pub use fault::IndexFault;
pub use read::parse_index;
pub use write::index_text;
