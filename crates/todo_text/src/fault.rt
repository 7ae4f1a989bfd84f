//! Why bytes are no todo.

ghost use Rattle.std.specs.Prelude.{◌≡◌};
ghost use Rattle.todo_text.specs.declared.fault.TodoFault.TheVariants as todo;
ghost use Rattle.todo_text.specs.declared.fault.LineFault.TheVariants as line;

use crate::todo_kind::TodoKind;
use std::alloc::{AllocError, AllocFailed};
use thiserror::Error;

/// Why a todo was not read.
#[derive(Clone, Copy, Debug, PartialEq, Eq, Drop, Error)]
pub enum TodoFault {
    /// The first bad line, counted from 1 with comments and empty lines, and what is wrong with it.
    #[error("line {line} of the todo is bad: {kind:?}")]
    Bad { line: u64, kind: TodoKind },
    #[error("out of memory")]
    Memory,
}

impl From<AllocError> for TodoFault {
    ghost from_gives = { λ _ e. e ≡ todo.Memory };

    fn from(_e: AllocError) -> TodoFault {
        TodoFault::Memory
    }
}

impl<T: Drop> From<AllocFailed<T>> for TodoFault {
    ghost from_gives = { λ _ e. e ≡ todo.Memory };

    fn from(_e: AllocFailed<T>) -> TodoFault {
        TodoFault::Memory
    }
}

/// Why a line was not read.
#[derive(Clone, Copy, Debug, PartialEq, Eq)]
pub enum LineFault {
    Bad(TodoKind),
    Memory,
}

impl From<AllocError> for LineFault {
    ghost from_gives = { λ _ e. e ≡ line.Memory };

    fn from(_e: AllocError) -> LineFault {
        LineFault::Memory
    }
}
