//! A store in memory that fails where it is told to.

ghost use Rattle.std.specs.FinMap as map;
ghost use Rattle.std.specs.Prelude.{◌≡◌, ◌⊎◌, ◌≤◌, IfOk, IsTrue, MatchOption, false};
ghost use Rattle.seq_base.specs.StorePaths.{IsStorePath};
ghost use Rattle.seq_base.specs.World.{is_blocked};
ghost use Rattle.seq_memory.specs.Files.{is_content as is_content_of};
ghost use Rattle.seq_outside.specs.Causes.{Rose};
ghost use Rattle.seq_outside.specs.Seen.{Stays};
ghost use Rattle.seq_outside.specs.Store.{StaysElsewhere};

use crate::quiet_store::QuietStore;
use seq_base::Bytes;
use seq_outside::{Store, StoreError};
use std::alloc::{AllocError, Global};

/// A call of a store that is to fail. Calls of all kinds are numbered together, from 1.
#[derive(Clone, Copy, Debug)]
pub struct Failing {
    pub call: u64,
    /// Whether a put leaves the new bytes.
    pub keeps_new: bool,
}

/// Files in memory, in the byte order of their paths. Of its calls those fail that it was told.
#[derive(Debug, Drop)]
pub struct MemStore {
    held: QuietStore,
    failing: Vec<Failing>,
    calls: u64,
    faults: u64,
}

impl MemStore {
    /// The store that holds these files, in whatever order they are given, and fails in these calls. Of several entries of one call
    /// the first counts. A call that is to fail answers Failed also where its put is blocked.
    pub fn new(
        alloc: Global,
        content: &[(Bytes, Bytes)],
        failing: &[Failing],
    ) -> Result<MemStore, AllocError>
        requires { IsTrue (is_content_of content.now) }
        ensures { IfOk result (λ store. (⟦<MemStore as Store>⟧.seen store).content ≡ map.from_entries content.now) }
    {
        let held = QuietStore::new(alloc, content)?;
        let failing = Vec::from_slice(alloc, failing)?;
        Ok(MemStore {
            held,
            failing,
            calls: 0,
            faults: 0,
        })
    }

    /// What it holds, in byte order of the paths.
    pub fn content(&self) -> &[(Bytes, Bytes)]
        ensures { result.now ≡ map.entries ((⟦<MemStore as Store>⟧.seen self.now).content) }
    {
        self.held.content()
    }

    /// Counts a call. Where it is to fail, that is counted too, and whether a put leaves the new bytes is answered.
    fn failure(&mut self) -> Option<bool>
        ensures held { self.new.held ≡ self.old.held }
        ensures faults { MatchOption result (self.new.faults ≡ self.old.faults) (λ _. (self.old.faults ≤ self.new.faults) × Rose self.old.faults self.new.faults) }
    {
        self.calls = self.calls.saturating_add(1);
        let call = self.calls;
        match self.failing.iter().find(|failing| failing.call == call) {
            Some(failing) => {
                let keeps_new = failing.keeps_new;
                self.faults = with_one(self.faults);
                Some(keeps_new)
            }
            None => None,
        }
    }
}

/// A count with one more.
fn with_one(count: u64) -> u64
    ensures least { count ≤ result }
    ensures rose { Rose count result }
{
    count.saturating_add(1)
}

/// A put of which nothing is told: its new bytes stand where it is not blocked and memory serves.
fn put_untold(alloc: Global, held: &mut QuietStore, path: &[u8], bytes: &[u8])
    requires { IsStorePath path.now }
    ensures leaves { ((⟦<QuietStore as Store>⟧.seen held.new).content ≡ (⟦<QuietStore as Store>⟧.seen held.old).content)
        ⊎ ((is_blocked (⟦<QuietStore as Store>⟧.seen held.old).content path.now ≡ false)
        × ((⟦<QuietStore as Store>⟧.seen held.new).content ≡ map.insert (⟦<QuietStore as Store>⟧.seen held.old).content path.now bytes.now)) }
    ensures elsewhere { StaysElsewhere path.now (⟦<QuietStore as Store>⟧.seen held.old).content (⟦<QuietStore as Store>⟧.seen held.new).content }
    ensures stays { Stays (Unit {0}) (⟦<QuietStore as Store>⟧.seen held.old) (⟦<QuietStore as Store>⟧.seen held.new) }
{
    match held.put(alloc, path, bytes) {
        Ok(()) => {}
        Err(StoreError::Failed) => {}
        Err(StoreError::Blocked) => {}
        Err(StoreError::Memory) => {}
    }
}

impl Store for MemStore {
    ghost told = { Unit {0} };

    ghost seen = { λ store. record (⟦<QuietStore as Store>⟧.seen store.held) { faults = store.faults } };

    ghost shaped = { λ store _. store.held.shaped };

    ghost at_store_paths = { λ store _. store.held.at_store_paths };

    fn get(&mut self, alloc: Global, path: &[u8]) -> Result<Option<Vec<u8>>, StoreError> {
        if let Some(_) = self.failure() {
            return Err(StoreError::Failed);
        }
        self.held.get(alloc, path)
    }

    fn put(&mut self, alloc: Global, path: &[u8], bytes: &[u8]) -> Result<(), StoreError> {
        let Some(keeps_new) = self.failure() else {
            return self.held.put(alloc, path, bytes);
        };
        if keeps_new {
            put_untold(alloc, &mut self.held, path, bytes);
        }
        Err(StoreError::Failed)
    }

    fn remove(&mut self, alloc: Global, path: &[u8]) -> Result<bool, StoreError> {
        if let Some(_) = self.failure() {
            return Err(StoreError::Failed);
        }
        self.held.remove(alloc, path)
    }

    fn list(&mut self, alloc: Global, folder: &[u8]) -> Result<Vec<Bytes>, StoreError> {
        if let Some(_) = self.failure() {
            return Err(StoreError::Failed);
        }
        self.held.list(alloc, folder)
    }
}
