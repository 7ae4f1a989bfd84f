//! What a step lacks.

use crate::limit::LimitWhat;
use seq_base::{Bytes, Id};

/// What a step lacks. Whoever asked for the step makes a refusal or a stop of it.
#[derive(Drop)]
pub enum Lack {
    /// An object is missing or damaged, or of another kind than is needed.
    Object { id: Id },
    /// A quantity passes its limit.
    Limit { what: LimitWhat, number: u64 },
    /// A file stands in the place of a folder of the path, or below the path; or an untracked file at it.
    Way { path: Bytes },
    /// Another text stands in the object's file.
    Place { id: Id },
}
