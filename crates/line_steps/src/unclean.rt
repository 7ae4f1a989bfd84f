//! Why index and files are not those of HEAD's commit.

use seq_base::Bytes;
use seq_model::Reason;

/// Why index and files are not those of HEAD's commit.
#[derive(Drop)]
pub enum Unclean {
    /// Something cannot be read.
    IsUnread(Reason),
    /// The least path at which they differ.
    IsChanged(Bytes),
}
