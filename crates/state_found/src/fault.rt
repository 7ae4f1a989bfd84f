//! Why the files of a stopped list were not read.

use state_text::StateFile;

/// Why the files of a stopped list were not read.
#[derive(Drop)]
pub enum StateFault {
    /// The first file, in their order, such that no list has it and those before it.
    Bad { file: StateFile },
}
