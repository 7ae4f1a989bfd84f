//! Folders that were seen on disk.

use std::alloc::{AllocError, Global};
use std::collections::HashSet;
use std::hash::{BuildHasherDefault, FoldHasher};

/// The folders that were seen to be folders and no links, with each folder that they lie in.
#[derive(Drop)]
pub struct Folders {
    seen: HashSet<String, BuildHasherDefault<FoldHasher>, Global>,
}

impl Folders {
    pub fn new(alloc: Global) -> Folders {
        Folders {
            seen: HashSet::new(alloc),
        }
    }

    pub fn has(&self, folder: &str) -> bool {
        self.seen.contains(folder)
    }

    pub fn add(&mut self, alloc: Global, folder: &str) -> Result<(), AllocError> {
        self.seen.insert(String::from_str(alloc, folder)?)?;
        Ok(())
    }

    /// Forgets a folder that was removed.
    pub fn forget(&mut self, folder: &str) {
        self.seen.remove(folder);
    }

    pub fn forget_all(&mut self) {
        self.seen.clear();
    }
}
