//! Why a list stopped, in a word.

/// Why a list stopped.
#[derive(Clone, Copy, Debug, PartialEq, Eq)]
pub enum StopWord {
    Conflict,
    Edit,
    Break,
    ExecFailed,
    ExecDirty,
    Empty,
    HookRefused,
    EditorFailed,
    EmptyMessage,
    DriverBroken,
    Blocked,
    TodoBad,
    RefMoved,
}
