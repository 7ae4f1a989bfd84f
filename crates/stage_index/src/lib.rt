//! The stages of an index, its map, and what differs from it.
#![tactic(auto)]

mod conflict;
mod fault;
mod lookup;
mod map;
mod mapping;
mod setting;
mod staged;
mod unmerged_paths;

pub use conflict::ConflictFile;
pub use fault::StageFault;
pub use lookup::{tracked, tracked_from};
pub use map::from_map;
pub use mapping::to_map;
pub use setting::{push_stage, set_stages};
pub use staged::staged_path;
pub use unmerged_paths::unmerged;
