//! Why a list stops.

use crate::reason::Reason;
use seq_base::{Bytes, Id};
use seq_outside::Exit;
use todo_text::TodoKind;

/// Why a list of lines stops before its end, to be continued by a later invocation.
#[derive(Drop)]
pub enum StopKind {
    /// Paths are unmerged.
    Conflict,
    /// An `edit` line was done.
    Edit,
    /// A `break` line was met.
    Break,
    ExecFailed { exit: Exit },
    /// A command left the index or a tracked file changed.
    ExecDirty { path: Bytes },
    /// The commit that is picked changes nothing here.
    Empty { id: Id },
    HookRefused { name: Bytes, exit: Exit },
    EditorFailed { exit: Exit },
    EmptyMessage,
    /// A merge driver ended neither cleanly nor with a conflict.
    DriverBroken { path: Bytes, exit: Exit },
    Blocked(Reason),
    /// A line of the todo is bad.
    TodoBad { line: u64, kind: TodoKind },
    /// A ref that is to be updated at the end was moved meanwhile.
    RefMoved { name: Bytes, found: Option<Id> },
}
