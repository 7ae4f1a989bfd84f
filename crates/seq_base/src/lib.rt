//! What every other crate speaks of: bytes, modes, ids, paths and maps from paths, and in `specs/` what a store holds.
#![tactic(auto)]

mod blank;
mod bytes;
mod id;
pub mod laws;
mod map;
mod mode;
mod path;
mod ref_front;
mod ref_name;
mod store_path;

pub use blank::is_blank;
pub use bytes::Bytes;
pub use id::{Id, IdFault};
pub use map::{Entry, InsertFault, PathMap};
pub use mode::Mode;
pub use path::{Path, PathFault, comes_before};
pub use ref_front::RefFront;
pub use ref_name::{RefNameFault, check_ref_name, is_ref_name};
pub use store_path::{is_store_path, is_text, lies_below};
