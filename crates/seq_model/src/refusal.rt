//! Why an invocation is refused.

use index_file::IndexFault;
use seq_base::{Bytes, Id};
use seq_outside::Exit;
use todo_text::TodoKind;

/// Why an invocation is refused. What is refused leaves the repository as it was.
#[derive(Drop)]
pub enum Refusal {
    /// There is no `.git/HEAD`.
    NotARepository,
    /// Another command is in progress: the first path that shows it.
    InProgress { path: Bytes },
    BadHead,
    /// A line of `packed-refs` is bad.
    BadRefs { line: u64 },
    BadConfig { line: u64 },
    /// A key of the configuration has a value that is not supported.
    Unsupported { key: Bytes },
    BadIndex { fault: IndexFault },
    NoSuchRev { word: Bytes },
    AmbiguousRev { word: Bytes, first: Id, second: Id },
    NotACommit { word: Bytes },
    NoParent { word: Bytes },
    NoLogEntry { word: Bytes },
    BadRevForm { word: Bytes },
    /// HEAD's branch has no commit yet.
    UnbornHead,
    /// The committer's name or email is missing.
    NoIdentity,
    Unmerged { path: Bytes },
    /// The index or a tracked file was changed.
    Dirty { path: Bytes },
    /// A merge without `-m`, or `-m` beyond its parents.
    Mainline { id: Id },
    NoBase,
    SeveralBases { first: Id, second: Id },
    /// A commit with three or more parents.
    Octopus { id: Id },
    /// A commit without parents.
    NewRoot { id: Id },
    HookRefused { exit: Exit },
    EditorFailed { exit: Exit },
    NothingToDo,
    HeadMoved { found: Option<Id> },
    /// An untracked file is in the way.
    WouldOverwrite { path: Bytes },
    /// An object is missing or damaged, or of another kind than is needed.
    BadObject { id: Id },
    NothingInProgress,
    /// An earlier invocation was cut off.
    Interrupted,
    /// A state file is bad.
    BadState { file: Bytes },
    TodoBad { line: u64, kind: TodoKind },
    /// A tracked file differs from the index.
    Unstaged { path: Bytes },
    /// The index differs from HEAD.
    Staged { path: Bytes },
    AlreadyARepository,
    BadPath { word: Bytes },
    NotTracked { path: Bytes },
    EmptyMessage,
    /// The form of the input is not built yet.
    NotBuilt,
    /// The least path that the two sides changed differently.
    Conflict { path: Bytes },
    /// A merge driver ended neither cleanly nor with a conflict.
    DriverBroken { path: Bytes, exit: Exit },
}
