//! What has a limit.

/// A quantity that has a limit.
#[derive(Clone, Copy, Debug, PartialEq, Eq)]
pub enum LimitWhat {
    /// The content of an object: 67,108,864 bytes.
    ObjectBytes,
    /// The trees on a chain, the root as 1: 256.
    TreeDepth,
    /// The entries of the index: 1,048,576.
    IndexEntries,
    /// All lines of the todo, comments and empty ones too: 100,000.
    TodoLines,
    /// The bytes of the todo: 16,777,216.
    TodoBytes,
    /// The labels that are in use: 10,000.
    Labels,
    /// The parents of a commit: 16.
    Parents,
    /// The commits of a history that is loaded: 1,048,576.
    Commits,
    /// The merge drivers that run at once: 16.
    Jobs,
}
