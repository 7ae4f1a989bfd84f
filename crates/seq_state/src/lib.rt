//! The files of a list: written where it stops, taken away where it ends, and its todo read. Each part follows its definition, over any store.
#![tactic(auto)]

mod clearing;
mod kept;
mod place;
mod state;
mod todo;

pub use clearing::{clear_files, clear_state};
pub use kept::kept_after;
pub use place::place_of;
pub use state::{begin_state, begin_step, put_state};
pub use todo::{KeptTodo, keep_todo, read_todo, todo_in, todo_lines};
