//! A line of the todo.

use seq_base::Bytes;

/// What is done with the commit that a line names.
#[derive(Clone, Copy, Debug, PartialEq, Eq)]
pub enum PickKind {
    Pick,
    Reword,
    Edit,
    Squash,
    Fixup,
    /// `fixup -C`: its message takes the place of those before.
    FixupKeep,
    /// `fixup -c`: the same, and the message is edited.
    FixupEdit,
    Drop,
    Revert,
}

/// Where the message of a merge comes from.
#[derive(Clone, Debug, PartialEq, Eq, Drop)]
pub enum MergeHow {
    /// From the line's note.
    Plain,
    /// `-C`: from this commit.
    Keep { rev: Bytes },
    /// `-c`: from this commit, and it is edited.
    Reword { rev: Bytes },
}

/// A line of the todo (git-rebase(1), "INTERACTIVE MODE" and "REBASING MERGES"). A note that is empty is none.
#[derive(Clone, Debug, PartialEq, Eq, Drop)]
pub enum Line {
    Pick {
        kind: PickKind,
        rev: Bytes,
        note: Bytes,
    },
    Exec {
        command: Bytes,
    },
    Break,
    Noop,
    Label {
        name: Bytes,
    },
    Reset {
        name: Bytes,
        note: Bytes,
    },
    Merge {
        how: MergeHow,
        head: Bytes,
        note: Bytes,
    },
    UpdateRef {
        name: Bytes,
    },
}
