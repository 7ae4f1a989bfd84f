//! A ref of the end of a list.

use seq_base::{Bytes, Id};

/// A ref of the end: what it has to have, what it gets, and what its log is told.
#[derive(Drop)]
pub struct EndRef {
    pub name: Bytes,
    pub expected: Option<Id>,
    pub new: Option<Id>,
    pub message: Bytes,
    /// It is that of an `update-ref` line, and else the branch that is rebased.
    pub is_update: bool,
}
