//! Where a list pauses.

use crate::stop::Stop;

/// Where a list pauses.
#[derive(Drop)]
pub struct Pause {
    pub stop: Stop,
    /// How many of its lines are done.
    pub done: usize,
}
