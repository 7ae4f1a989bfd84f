//! What a driver is to merge.

use seq_base::{Bytes, Path};

/// A merge driver's job: the path that it merges, its command line, and the three versions of the file.
#[derive(Debug, Drop)]
pub struct DriverJob {
    pub path: Path,
    pub command: Bytes,
    pub base: Bytes,
    pub ours: Bytes,
    pub theirs: Bytes,
}
