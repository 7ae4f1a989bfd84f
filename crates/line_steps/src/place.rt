//! The place of a list.

use seq_base::Id;
use state_text::{Chain, IdPairs, Ids, Labels, RefUpdates};

/// The part of what is kept of a list that a line may change.
#[derive(Drop)]
pub struct Place {
    /// The commit that HEAD was last written as or read as.
    pub head: Id,
    /// Commits that wait to be paired with what became of them.
    pub waiting: Ids,
    /// The pairs: a commit, and what became of it.
    pub rewritten: IdPairs,
    /// The squash chain that is open.
    pub chain: Chain,
    pub labels: Labels,
    /// The refs that the end updates.
    pub updates: RefUpdates,
    /// Whether a hook or an editor has ended since index and files were last looked at.
    pub unseen: bool,
}
