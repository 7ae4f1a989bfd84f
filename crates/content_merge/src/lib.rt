//! The merge of a line over a store: which driver merges the contents of a path and by which rule files, what it is handed, and what the
//! merge comes to.
#![tactic(auto)]

mod drivers;
mod fates;
mod jobs;
mod laws;
mod lists;
mod merged;
mod merging;
mod rule_files;

pub use drivers::{driver_template, path_driver};
pub use laws::{a_merge_without_conflicts_is_the_merged_map, no_merged_path_lies_below_another};
pub use lists::{ConflictFiles, IndexEntries, Texts};
pub use merged::Merged;
pub use merging::merge;
