//! The files of a worktree: what is changed, and how they follow the index.
#![tactic(auto)]

mod barred;
mod blob;
mod changed;
mod conflict;
mod conflict_files;
mod conflict_writes;
mod make;
mod obstacle;
mod reset;
mod rewritten;
mod room;
mod switching;
mod writes;

pub use blob::{blob_id_of, read_blob};
pub use changed::first_change;
pub use conflict::{stop_barred, write_conflict, write_conflict_clear};
pub use make::make_writes;
pub use reset::{check_rows, reset_hard};
pub use stage_index::ConflictFile;
pub use switching::{obstructed_path, switch, switch_clear};
pub use writes::clear_writes;
