//! How a line stops.

use seq_base::Id;
use seq_model::StopKind;
use state_text::Pending;

/// How a line stops a list.
#[derive(Drop)]
pub struct Stop {
    pub kind: StopKind,
    /// The line is put back in front of those that are left.
    pub put_back: bool,
    /// A commit that is still to be made.
    pub pending: Option<Pending>,
    /// The commit of the line.
    pub commit: Option<Id>,
    /// A child that could not be run made the stop.
    pub failed: bool,
}
