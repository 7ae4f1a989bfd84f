//! What a stopped rebase, cherry-pick or revert keeps in `.git`, so that the next process goes on with it: one value, and the files
//! that tell it, both ways (git-rebase(1); gitrevisions(7), REBASE_HEAD and its like).
#![tactic(auto)]

mod control;
mod files;
mod laws;
mod lines;
mod lists;
mod options;
mod place;
mod state_file;
mod stop;
mod stop_word;
mod texts;
mod verb;

pub use control::{Control, Form, Left, Pending, RefUpdate};
pub use files::{file_text, files_of, state_files};
pub use laws::{end_leaves_no_file, stop_leaves_its_files};
pub use lists::{Chain, IdPairs, Ids, Labels, Lines, RefUpdates};
pub use options::{Empty, Options};
pub use place::{file_name, state_path};
pub use state_file::StateFile;
pub use stop::{end_writes, in_step_path, stop_writes};
pub use stop_word::StopWord;
pub use verb::Verb;
