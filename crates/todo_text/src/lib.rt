//! The todo of a rebase: its lines are read and written (git-rebase(1), "INTERACTIVE MODE" and "REBASING MERGES").
#![tactic(auto)]

mod command;
mod fault;
mod laws;
mod line;
mod merges;
mod names;
mod notes;
mod reading;
mod todo;
mod todo_kind;
mod words;
mod writing;

pub use fault::TodoFault;
pub use laws::{lines_differ_in_every_text, todo_reads_back};
pub use line::{Line, MergeHow, PickKind};
pub use todo::{first_line, is_comment, parse_todo};
pub use todo_kind::TodoKind;
pub use writing::line_text;
