//! What each line of a todo does, over any store, as its definition says.
#![tactic(auto)]

mod back;
mod clean;
mod command;
mod committing;
mod conflict;
mod finding;
mod forwarding;
mod head;
mod job;
mod merging;
mod moving;
mod pending;
mod picking;
mod steps;
mod stop;
mod switching;

pub use clean::stop_unclean;
pub use command::exec;
pub use committing::make_beside;
pub use finding::{
    Found, Picked, Picking, Sides, find_found, find_picked, find_sides, found_in, may_have,
};
pub use forwarding::{forward, with_id};
pub use head::{INDEX_LIMIT, head_found, index_found, map_found};
pub use job::run_hook;
pub use moving::{head_moved, reason_of_ref, turn_ident, value_of, write_head};
pub use pending::copy_of_any;
pub use steps::step;
pub use stop::{reason_of, stop_of};
pub use switching::{is_same, put_tree, stop_unfit, switch_over};
