//! The outside of a real machine: the files below the folder that the program runs in, children, the clock, standard output, and what
//! the program was started with.
#![tactic(auto)]

mod disk;
mod disk_store;
mod folders;
mod place;
mod shell_spawner;
mod start;
mod stdout_sink;
mod wall_clock;

pub use disk_store::DiskStore;
pub use shell_spawner::ShellSpawner;
pub use start::{environment, words};
pub use stdout_sink::StdoutSink;
pub use wall_clock::WallClock;
