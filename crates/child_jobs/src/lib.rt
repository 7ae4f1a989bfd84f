//! The children that Git's manuals name, as jobs: command lines, editors and hooks; and which editor is run.
#![tactic(auto)]

mod editors;
mod jobs;

pub use editors::{editor, variable};
pub use jobs::{editor_job, exec_job, hook_job};
