//! The store on disk.

ghost use Rattle.std.specs.Prelude.{◌≡◌, IfOk};
ghost use Rattle.seq_outside.specs.Seen.{Reads, store_cause};
ghost use Rattle.seq_disk.specs.Counts.{counts};

use crate::disk::{self, Put};
use crate::folders::Folders;
use seq_base::Bytes;
use seq_outside::{Store, StoreError};
use std::alloc::Global;
use std::io;
use std::rt::Files;

/// The files below the folder that the program runs in. It does not tell what it holds. A symbolic link is a file whose
/// bytes are the link's text, and is never followed.
#[derive(Drop)]
pub struct DiskStore<'a, R: Files + AllocGlobal + Clone + Drop> {
    rt: &'a R,
    folders: Folders,
    faults: u64,
    blocked: u64,
}

impl<'a, R: Files + AllocGlobal + Clone + Drop> DiskStore<'a, R> {
    pub fn new(rt: &'a R) -> DiskStore<'a, R> {
        DiskStore {
            rt,
            folders: Folders::new(rt.alloc()),
            faults: 0,
            blocked: 0,
        }
    }

    /// Forgets which folders were seen: whoever runs a child calls it then.
    pub fn forget_folders(&mut self)
        ensures faults { self.new.faults ≡ self.old.faults }
        ensures blocked { self.new.blocked ≡ self.old.blocked }
    {
        self.folders.forget_all();
    }

    fn counted<T>(&mut self, answer: io::Result<T>) -> Result<T, StoreError>
        ensures found { IfOk result (λ found. answer ≡ Ok found) }
        ensures reads { Reads ⊥ store_cause result (counts self.old.faults self.old.blocked) (counts self.new.faults self.new.blocked) }
    {
        match answer {
            Ok(found) => Ok(found),
            Err(error) if error.kind() == io::ErrorKind::OutOfMemory => Err(StoreError::Memory),
            Err(_) => {
                self.faults = self.faults.saturating_add(1);
                Err(StoreError::Failed)
            }
        }
    }
}

impl<'a, R: Files + AllocGlobal + Clone + Drop> Store for DiskStore<'a, R> {
    ghost told = { ⊥ };

    ghost seen = { λ store. counts store.faults store.blocked };

    ghost shaped = { λ _ told. absurd told };

    ghost at_store_paths = { λ _ told. absurd told };

    fn get(&mut self, alloc: Global, path: &[u8]) -> Result<Option<Vec<u8>>, StoreError> {
        let found = disk::read(self.rt, alloc, &mut self.folders, path);
        self.counted(found)
    }

    fn put(&mut self, alloc: Global, path: &[u8], bytes: &[u8]) -> Result<(), StoreError> {
        let put = disk::replace(self.rt, alloc, &mut self.folders, path, bytes);
        match self.counted(put)? {
            Put::Done => Ok(()),
            Put::Blocked => {
                self.blocked = self.blocked.saturating_add(1);
                Err(StoreError::Blocked)
            }
        }
    }

    fn remove(&mut self, alloc: Global, path: &[u8]) -> Result<bool, StoreError> {
        let removed = disk::remove(self.rt, alloc, &mut self.folders, path);
        self.counted(removed)
    }

    fn list(&mut self, alloc: Global, folder: &[u8]) -> Result<Vec<Bytes>, StoreError> {
        let listed = disk::list(self.rt, alloc, &mut self.folders, folder);
        self.counted(listed)
    }
}
