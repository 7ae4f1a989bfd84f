//! The commands that work on files, the index and objects alone: `init`, `add`, `rm` and `cat`, over any store, and one call for an
//! invocation of them.
#![tactic(auto)]

mod adding;
mod begin;
mod commands;
mod indexing;
mod named;
mod printing;
mod removing;
mod repository;

pub use adding::add;
pub use commands::plumb;
pub use printing::print_object;
pub use removing::remove;
pub use repository::init;
