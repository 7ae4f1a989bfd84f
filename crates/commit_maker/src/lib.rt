//! A commit, made as Git makes it: its message is shown to hooks and to an editor, cleaned and judged, and then it is put.
#![tactic(auto)]

mod bytes;
mod commits;
mod committers;
mod making;
mod messages;
mod showing;
mod stop;

pub use commits::make;
pub use committers::has_identity;
pub use making::{Made, Making, Source};
pub use stop::MakeStop;
