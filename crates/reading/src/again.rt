//! How a stopped list is gone on with.

/// How a stopped list is gone on with.
#[derive(Clone, Copy)]
pub enum Again {
    Continue,
    Skip,
}
