//! What an abort finds.

use content_merge::IndexEntries;
use seq_base::Id;

/// What an abort finds before it changes anything. What cannot be read is none.
#[derive(Drop)]
pub struct Before {
    /// What the branch is at that goes back.
    pub value: Option<Id>,
    /// What HEAD is at.
    pub head: Option<Id>,
    /// The paths that the index tracks.
    pub index: IndexEntries,
    /// Those of the map of HEAD's commit.
    pub tracked: IndexEntries,
}
