//! The options that a list keeps.

/// What becomes of a commit that changes nothing where it is picked.
#[derive(Clone, Copy, Debug, PartialEq, Eq)]
pub enum Empty {
    Drop,
    Keep,
    Stop,
}

/// The options that a list keeps from its start to its end. What a verb has no option for is false or None, and `empty` of
/// revert is Stop.
#[derive(Clone, Copy, Debug, PartialEq, Eq)]
pub struct Options {
    /// A commit whose parent is already HEAD is not made anew.
    pub ff: bool,
    pub empty: Empty,
    /// A command that failed is run again by `--continue`.
    pub reschedule: bool,
    /// The parent, from 1, against which a merge is picked.
    pub mainline: Option<u32>,
    pub edit: bool,
    /// `-x` of cherry-pick: the message says which commit was picked.
    pub record_origin: bool,
    pub allow_empty: bool,
}
