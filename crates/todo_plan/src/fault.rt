//! Why no todo was made.

use seq_base::Id;
use thiserror::Error;

/// Why no todo was made: the first commit of the range that merges cannot be made of.
#[derive(Debug, Drop, PartialEq, Eq, Error)]
pub enum PlanFault {
    /// A commit with three parents or more.
    #[error("a commit has more than two parents")]
    Octopus { id: Id },
    /// A commit without a parent.
    #[error("a commit has no parent")]
    NewRoot { id: Id },
    #[error("out of memory")]
    Memory,
}
