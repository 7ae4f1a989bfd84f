//! Why no commit was made.

use seq_base::Bytes;
use seq_outside::{Exit, Lack};

/// Why no commit was made.
#[derive(Drop)]
pub enum MakeStop {
    /// A hook did not end with 0. One that could not be run has failed, and counts as killed.
    HookRefused {
        name: Bytes,
        exit: Exit,
        failed: bool,
    },
    /// The editor did not end with 0. One that could not be run has failed, and counts as killed.
    EditorFailed {
        exit: Exit,
        failed: bool,
    },
    /// A hook or the editor has left no message.
    EmptyMessage,
    /// A file is in the way of the message or of the commit, the commit is too large, or another text stands in its file.
    Lacks(Lack),
}
