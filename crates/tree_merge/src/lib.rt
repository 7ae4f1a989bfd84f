//! Three-way merges: of one path's entries by Git's rules, and of three maps from paths, with what clashes.
#![tactic(auto)]

mod clash;
mod cursor;
mod laws;
mod merged;
mod plans;
mod rules;
mod walk;

pub use laws::{
    an_unchanged_side_yields, results_without_clash_are_apart, sameness_is_equality,
    sides_can_be_exchanged,
};
pub use merged::{conflict, merged_map};
pub use plans::{MergePlan, Planned, PlannedPaths, plan, whole_plan};
pub use rules::{Choice, three_way};
