//! What a turn goes on with.

use content_merge::IndexEntries;
use line_steps::Setting;
use seq_base::Id;
use state_text::Lines;

/// What a turn goes on with: what it is given, the lines that are left, and HEAD's commit and the index as they are found.
#[derive(Drop)]
pub struct Going {
    pub setting: Setting,
    pub left: Lines,
    pub head: Id,
    pub index: IndexEntries,
}
