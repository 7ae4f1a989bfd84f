//! Cases as data: a case is a line with a verb and its fields, and its answer is a line.
#![tactic(auto)]

mod answer;
mod case;
mod fault;
mod fields;
mod files;
mod heads;
mod index;
mod lines;
mod logs;
mod maps;
mod objects;
mod words;
mod writes;

pub use answer::Answer;
pub use case::{Case, Verbs, answer_line};
pub use fault::CaseFault;
pub use fields::Fields;
pub use files::{files_of, put_changes};
pub use heads::put_head;
pub use index::index_of;
pub use lines::put_line;
pub use logs::{log_line_behind, log_line_of, put_log_line};
pub use maps::{map_of, put_map};
pub use objects::{kind_of, kind_word, put_commit};
pub use writes::put_writes;
