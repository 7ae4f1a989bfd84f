//! Who commits.

use seq_base::Bytes;

/// The name and the email of who commits. The moment stands beside them.
#[derive(Debug, Drop)]
pub struct Committer {
    pub name: Bytes,
    pub email: Bytes,
}
