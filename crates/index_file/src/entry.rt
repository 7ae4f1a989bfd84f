//! An entry of the index.

use seq_base::{Id, Mode, Path};

/// What the index has at a path and a stage: 0 for a merged path, else 1 for the base, 2 for ours and 3 for theirs.
#[derive(Clone, Debug, Drop, PartialEq, Eq)]
pub struct IndexEntry {
    pub path: Path,
    pub stage: u8,
    pub mode: Mode,
    pub id: Id,
}
