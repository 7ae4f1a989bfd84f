//! The verbs that run a list of commits.

/// A verb that runs a list of commits.
#[derive(Clone, Copy, Debug, PartialEq, Eq)]
pub enum Verb {
    Rebase,
    CherryPick,
    Revert,
}
