//! Why a list does not begin.

use seq_model::Denial;

/// Why a list does not begin.
#[derive(Drop)]
pub struct NotBegun {
    pub why: Denial,
    /// A child that could not be run made it so.
    pub failed: bool,
}
