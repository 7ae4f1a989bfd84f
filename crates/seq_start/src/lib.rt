//! Whether a rebase begins, and what its start writes. Each part follows its definition, over any store.
#![tactic(auto)]

mod begin;
mod checked;
mod looking;
mod opening;
mod start;

pub use begin::{Beginning, begin_checked};
pub use checked::check_start;
pub use opening::{Opened, open, read_setting, setting_of};
pub use start::{start_index, start_map, start_onto, start_state};
