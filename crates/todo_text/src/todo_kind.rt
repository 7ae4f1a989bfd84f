//! What is wrong with a line of the todo.

/// What is wrong with a line of the todo (git-rebase(1), "INTERACTIVE MODE"). `parse_todo` gives the kinds up to `NoEarlier`; the
/// others are for who knows the commits and the branch.
#[derive(Clone, Copy, Debug, PartialEq, Eq)]
pub enum TodoKind {
    /// The word is no command.
    Command,
    /// An argument is missing.
    Missing,
    /// An argument is too many.
    Extra,
    /// The name is no label.
    Label,
    /// The name is no ref that may be updated.
    RefName,
    /// A merge has two heads.
    Octopus,
    /// There is no earlier line to squash into.
    NoEarlier,
    /// The name gives no commit.
    NoSuchCommit,
    /// A merge is picked.
    MergePicked,
    /// The branch that is rebased is to be updated.
    OwnBranch,
    /// The line is not built yet.
    NotBuilt,
}
