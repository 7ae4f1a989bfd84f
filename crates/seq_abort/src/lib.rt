//! A rebase that is given up. Each part follows its definition, over any store.
#![tactic(auto)]

mod abort;
mod given_up;

pub use abort::abort_list;
pub use given_up::{give_up, quit_list};
