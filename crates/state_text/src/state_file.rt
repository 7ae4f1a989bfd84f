//! The files of a stopped list.

/// A file that tells of a stopped list: in `.git/rebase-merge` for a rebase, in `.git/sequencer` for a cherry-pick or a revert, and
/// some in `.git` itself.
#[derive(Clone, Copy, Debug, PartialEq, Eq)]
pub enum StateFile {
    /// The branch that is rebased.
    HeadName,
    /// Where it was before.
    OrigHead,
    Onto,
    Interactive,
    /// `git-rebase-todo`: what is left of a rebase.
    RebaseTodo,
    /// `git-rebase-todo.backup`: the todo as it was made.
    Backup,
    Done,
    Msgnum,
    End,
    Message,
    AuthorScript,
    Amend,
    StoppedSha,
    CurrentFixups,
    RewrittenList,
    RewrittenPending,
    RefsToDelete,
    UpdateRefs,
    Control,
    /// `todo`: what is left of a cherry-pick or revert.
    Todo,
    /// Where HEAD was before a cherry-pick or revert.
    Head,
    AbortSafety,
    Opts,
    MergeMsg,
    MergeHead,
    RebaseHead,
    CherryPickHead,
    RevertHead,
}
