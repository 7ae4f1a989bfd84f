//! Objects in a store, each in a file of its own by its id.
#![tactic(auto)]

mod fault;
mod named;
mod place;
mod prefix;
mod read;
mod write;

pub use fault::ObjectFault;
pub use named::{read_commit, read_object, spelled_commit, write_object};
pub use place::CONTENT_LIMIT;
pub use prefix::{is_prefix, with_prefix};
pub use read::get;
pub use write::put;
