//! What a todo means, over many invocations: the words in which its lines are defined, one uninterrupted reading of it, and the laws by which a
//! program that stops, keeps its state in files and starts again is shown to do just that. Each law is the contract of a function that does
//! nothing.
#![tactic(auto)]

mod again;
mod before;
mod checked;
mod end_ref;
mod going;
mod laws;
mod not_begun;
mod planned;
mod rows;

pub use again::Again;
pub use before::Before;
pub use checked::Checked;
pub use end_ref::EndRef;
pub use going::Going;
pub use laws::{
    edits_leave_it_there, files_are_not_looked_at, files_are_the_controls, files_tell,
    lines_look_at_no_file, list_is_meant, parts_compose, reading_goes_on, stop_is_kept,
    turn_is_meant, turn_is_read, turn_leaves_it_there,
};
pub use not_begun::NotBegun;
pub use planned::Planned;
pub use rows::{small_files, small_lines, small_list, small_turns};
