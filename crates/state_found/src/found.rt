//! What the files of a stopped list are found to be.

use state_text::{Control, Verb};

/// What the files of a stopped list are found to be.
#[derive(Debug, Drop)]
pub enum Found {
    /// No list has stopped.
    Nothing,
    /// A list has stopped, and goes on from here.
    Paused(Control),
    /// The list was interrupted while it ran.
    Interrupted(Verb),
}
