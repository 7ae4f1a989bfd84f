//! A store in memory.

ghost use Rattle.std.specs.FinMap as map;
ghost use Rattle.std.specs.FinMap.{is_sorted};
ghost use Rattle.std.specs.Prelude.{◌≡◌, IfOk, IsTrue};
ghost use Rattle.seq_base.specs.StorePaths.{HoldsStorePaths};
ghost use Rattle.seq_base.specs.World.{IsWorld, path_cmp};
ghost use Rattle.seq_memory.specs.Files.{IsKept, content_of, is_content as is_content_of};

use crate::files::{bytes_of, paths_below, set_file, stands_in_way, take_file};
use seq_base::Bytes;
use seq_outside::{Store, StoreError};
use std::alloc::{AllocError, Global};

/// Files in memory, in the byte order of their paths. It never fails.
#[derive(Debug, Drop)]
pub struct QuietStore {
    files: Vec<(Bytes, Bytes)>,
    refused: u64,
    ghost sorted: { IsTrue (is_sorted path_cmp files.items) },
    ghost shaped: { IsWorld (content_of files.items) },
    ghost at_store_paths: { HoldsStorePaths (content_of files.items) },
}

impl QuietStore {
    /// The store that holds these files, in whatever order they are given.
    pub fn new(alloc: Global, content: &[(Bytes, Bytes)]) -> Result<QuietStore, AllocError>
        requires { IsTrue (is_content_of content.now) }
        ensures { IfOk result (λ store. (⟦<QuietStore as Store>⟧.seen store).content ≡ map.from_entries content.now) }
    {
        let files = files_from(alloc, content)?;
        Ok(QuietStore { files, refused: 0 })
    }

    /// What it holds, in byte order of the paths.
    pub fn content(&self) -> &[(Bytes, Bytes)]
        ensures { result.now ≡ map.entries ((⟦<QuietStore as Store>⟧.seen self.now).content) }
    {
        &self.files
    }
}

#[tactic(auto, using(crate::proofs::Contents::given_files))]
fn files_from(alloc: Global, content: &[(Bytes, Bytes)]) -> Result<Vec<(Bytes, Bytes)>, AllocError>
    requires { IsTrue (is_content_of content.now) }
    ensures kept { IfOk result (λ files. IsKept files.items) }
    ensures same { IfOk result (λ files. content_of files.items ≡ map.from_entries content.now) }
{
    match content {
        [] => Ok(Vec::new(alloc)),
        [file, others @ ..] => {
            let mut files = files_from(alloc, others)?;
            set_file(alloc, &mut files, file.0.as_slice(), file.1.as_slice())?;
            Ok(files)
        }
    }
}

impl Store for QuietStore {
    ghost told = { Unit {0} };

    ghost seen = { λ store. record {
      content = content_of store.files.items;
      faults = 0;
      blocked = store.refused;
      lender = 0;
      beneath = map.empty;
      beneath_blocked = 0;
    } };

    ghost shaped = { λ store _. store.shaped };

    ghost at_store_paths = { λ store _. store.at_store_paths };

    #[tactic(auto, using(crate::proofs::Contents::content_get))]
    fn get(&mut self, alloc: Global, path: &[u8]) -> Result<Option<Vec<u8>>, StoreError> {
        match bytes_of(alloc, &self.files, path) {
            Ok(found) => Ok(found),
            Err(_) => Err(StoreError::Memory),
        }
    }

    #[tactic(auto, using(crate::proofs::Contents::content_put, crate::proofs::Contents::content_blocked, seq_base::specs::Steps::world_steps))]
    fn put(&mut self, alloc: Global, path: &[u8], bytes: &[u8]) -> Result<(), StoreError> {
        if stands_in_way(&self.files, path) {
            self.refused = self.refused.saturating_add(1);
            return Err(StoreError::Blocked);
        }
        match set_file(alloc, &mut self.files, path, bytes) {
            Ok(()) => Ok(()),
            Err(_) => Err(StoreError::Memory),
        }
    }

    #[tactic(auto, using(crate::proofs::Contents::file_removed))]
    fn remove(&mut self, _alloc: Global, path: &[u8]) -> Result<bool, StoreError> {
        Ok(take_file(&mut self.files, path))
    }

    #[tactic(auto, using(crate::proofs::Contents::content_listed, crate::proofs::Contents::listed_store_paths))]
    fn list(&mut self, alloc: Global, folder: &[u8]) -> Result<Vec<Bytes>, StoreError> {
        match paths_below(alloc, &self.files, folder) {
            Ok(paths) => Ok(paths),
            Err(_) => Err(StoreError::Memory),
        }
    }
}
