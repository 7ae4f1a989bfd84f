//! What the program meets outside, as traits with a written meaning: a store of files, children, a clock, and a sink for
//! what it prints.
#![tactic(auto)]

mod changes;
mod child;
mod clock;
mod draft_store;
mod drafted;
mod env;
mod halt;
mod lack;
mod limit;
mod listing;
mod put;
mod sink;
mod store;
mod way;
mod write;

pub use changes::Changes;
pub use child::{ChildError, Exit, Job, Spawner, Words};
pub use clock::Clock;
pub use draft_store::{DraftSpawner, DraftStore};
pub use env::{Env, Variables, is_zone};
pub use halt::Halt;
pub use lack::Lack;
pub use limit::LimitWhat;
pub use put::put_file;
pub use sink::{Sink, SinkError};
pub use store::{Store, StoreError};
pub use way::is_blocked;
pub use write::Write;
