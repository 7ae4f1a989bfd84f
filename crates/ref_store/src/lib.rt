//! Refs in a store, each in a file of its own or packed, with their logs.
#![tactic(auto)]

mod branch;
mod change;
mod fault;
mod file;
mod folder;
mod laws;
mod place;
mod read;
mod removal;

pub use branch::{move_branch, move_head};
pub use change::{has_in_way, note_value, put_head, set_head, update};
pub use fault::RefFault;
pub use folder::list;
pub use laws::{
    delete_keeps_other_values, head_is_moved, set_ref_keeps_other_values, update_is_exact,
    value_is_told,
};
pub use place::ref_file;
pub use read::{head, log, packed_refs, resolve};
pub use removal::delete;
