//! Why a case is not answered.

use std::alloc::{AllocError, AllocFailed};
use thiserror::Error;

/// Why a case is not answered.
#[derive(Clone, Copy, Debug, PartialEq, Eq, Drop, Error)]
pub enum CaseFault {
    #[error("out of memory")]
    Memory,
    #[error("a quote is not closed")]
    Quote,
    #[error("no escape is written so")]
    Escape,
    #[error("no verb is called so")]
    Verb,
    #[error("a field is missing")]
    Missing,
    #[error("a field is too many")]
    Extra,
    #[error("a field is not written so")]
    Form,
    /// The value is none that the call takes.
    #[error("the call does not take this value")]
    Value,
    /// The call failed, and the answer tells how.
    #[error("the call failed")]
    Told,
}

impl From<AllocError> for CaseFault {
    fn from(_e: AllocError) -> CaseFault {
        CaseFault::Memory
    }
}

impl<T: Drop> From<AllocFailed<T>> for CaseFault {
    fn from(_e: AllocFailed<T>) -> CaseFault {
        CaseFault::Memory
    }
}
