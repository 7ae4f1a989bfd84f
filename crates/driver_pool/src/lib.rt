//! Merge drivers: the command of a job, and the jobs of a merge, run over a store.
#![tactic(auto)]

mod commands;
mod end;
mod files;
mod job;
mod laws;
mod pool;

pub use commands::command;
pub use end::{DriverEnd, PoolFault};
pub use job::DriverJob;
pub use laws::a_quoted_path_is_one_word;
pub use pool::run_drivers;
