//! A store whose changes are made later, over a store that is lent.

ghost use Rattle.std.specs.Prelude.{◌≡◌, [], IfOk, IsErrOf, OnErr, OnOk, true};
ghost use Rattle.seq_outside.specs.Child.{HasChildCause, Runs};
ghost use Rattle.seq_outside.specs.Drafts.{is_draft};
ghost use Rattle.seq_outside.specs.Seen.{Lasts, MakesFront, Reads, Writes, drafting, made, store_cause};
ghost use Rattle.seq_outside.specs.Writes.{IsFront, are_free, objects_first, written};
ghost use Rattle.seq_outside.specs.Laws.{drafted_paths, written_world};

use crate::changes::Changes;
use crate::child::{ChildError, Exit, Job, Spawner};
use crate::drafted::{get, is_blocked};
use crate::listing::listed;
use crate::store::{Store, StoreError};
use crate::write::{Write, make_all};
use seq_base::Bytes;
use std::alloc::{AllocError, Global};

/// A store over a lent one. What it holds is what the lent one will hold once its changes are made; until then the lent one
/// stays as it is.
#[derive(Drop)]
pub struct DraftStore<'a, S: Store> {
    store: &'a mut S,
    changes: &'a mut Changes,
    refused: u64,
    ghost draft: { is_draft changes.now ≡ true },
    ghost free: { S.told → are_free (S.seen store.now).content changes.now ≡ true },
}

fn put_of(alloc: Global, path: &[u8], bytes: &[u8]) -> Result<Write, AllocError>
    ensures { IfOk result (λ write. write ≡ Write.Put path.now bytes.now) }
{
    let path = Bytes::from_vec(path.to_vec(alloc)?);
    let bytes = Bytes::from_vec(bytes.to_vec(alloc)?);
    Ok(Write::Put { path, bytes })
}

fn removal_of(alloc: Global, path: &[u8]) -> Result<Write, AllocError>
    ensures { IfOk result (λ write. write ≡ Write.Remove path.now) }
{
    let path = Bytes::from_vec(path.to_vec(alloc)?);
    Ok(Write::Remove { path })
}

impl<'a, S: Store> DraftStore<'a, S> {
    /// Over a store that is lent, with no change yet.
    pub fn new(store: &'a mut S, changes: &'a mut Changes) -> DraftStore<'a, S>
        requires { changes.old ≡ [] }
        ensures lent { result.store.now ≡ store.old }
        ensures none { result.changes.now ≡ [] }
        ensures refused { result.refused ≡ 0 }
        ensures same_reference { result.store.ghost_name ≡ store.entry.ghost_name }
    {
        DraftStore {
            store,
            changes,
            refused: 0,
        }
    }

    /// Makes the changes in the lent store, the files of objects before all others and else in the order of the paths' last
    /// changes, up to the first that fails. Then there is none. Whatever ends it, a front of them in this order was made. An object
    /// that is removed goes with the first, before a ref that named it is changed.
    pub fn make(&mut self, alloc: Global) -> Result<(), StoreError>
        ensures made { S.told → OnOk result ((S.seen self.new.store.now).content ≡ written (S.seen self.old.store.now).content self.old.changes.now) }
        ensures none { self.new.changes.now ≡ [] }
        ensures front { S.told → IsFront
            (S.seen self.old.store.now).content
            (objects_first self.old.changes.now)
            (S.seen self.new.store.now).content }
        ensures on_the_way { S.told → MakesFront (S.seen self.old.store.now) self.old.changes.now (S.seen self.new.store.now) }
        ensures not_blocked { S.told → IsErrOf result StoreError.Blocked → ⊥ }
        ensures writes { Writes S.told store_cause result (S.seen self.old.store.now) (S.seen self.new.store.now) }
        ensures refused { self.new.refused ≡ self.old.refused }
        ensures same_reference { self.new.store.ghost_name ≡ self.old.store.ghost_name }
    {
        let made = make_all(alloc, self.store, self.changes.slots());
        *self.changes = Changes::new(alloc);
        made
    }

    /// Makes the changes, and runs a child over what stands then. Behind Err none was run, and a front of the changes was made.
    pub fn run<P: Spawner<S>>(
        &mut self,
        alloc: Global,
        spawner: &mut P,
        job: &Job,
    ) -> Result<Result<Exit, ChildError>, StoreError>
        ensures runs { S.told → IfOk result (λ exit. Runs S.told P.ran job.now
            spawner.old (made (S.seen self.old.store.now) self.old.changes.now) exit spawner.new (S.seen self.new.store.now)) }
        ensures not_run { OnErr result (spawner.new ≡ spawner.old) }
        ensures none { self.new.changes.now ≡ [] }
        ensures front { S.told → OnErr result (IsFront
            (S.seen self.old.store.now).content (objects_first self.old.changes.now) (S.seen self.new.store.now).content) }
        ensures on_the_way { S.told → OnErr result (MakesFront (S.seen self.old.store.now) self.old.changes.now (S.seen self.new.store.now)) }
        ensures not_blocked { S.told → IsErrOf result StoreError.Blocked → ⊥ }
        ensures cause { OnErr result (Writes S.told store_cause result (S.seen self.old.store.now) (S.seen self.new.store.now)) }
        ensures child { IfOk result (λ exit. HasChildCause exit (P.seen spawner.old) (P.seen spawner.new)) }
        ensures store { Lasts (S.seen self.old.store.now) (S.seen self.new.store.now) }
        ensures refused { self.new.refused ≡ self.old.refused }
        ensures same_reference { self.new.store.ghost_name ≡ self.old.store.ghost_name }
    {
        self.make(alloc)?;
        Ok(spawner.run(alloc, self.store, job))
    }
}

impl<S: Store> Store for DraftStore<'_, S> {
    ghost told = { S.told };

    ghost seen = { λ d. drafting (S.seen d.store.now) d.changes.now d.refused d.store.ghost_name };

    ghost shaped = { λ d told. written_world (S.seen d.store.now).content d.changes.now (S.shaped d.store.now told) (d.free told) };

    ghost at_store_paths = { λ d told. drafted_paths (S.seen d.store.now).content d.changes.now (S.at_store_paths d.store.now told) d.draft };

    fn get(&mut self, alloc: Global, path: &[u8]) -> Result<Option<Vec<u8>>, StoreError> {
        get(alloc, self.changes, self.store, path)
    }

    #[tactic(auto, using(seq_base::specs::Steps::world_steps))]
    fn put(&mut self, alloc: Global, path: &[u8], bytes: &[u8]) -> Result<(), StoreError> {
        if is_blocked(alloc, self.changes, self.store, path)? {
            self.refused = self.refused.saturating_add(1);
            return Err(StoreError::Blocked);
        }
        let write = put_of(alloc, path, bytes)?;
        self.changes.set(alloc, write)?;
        Ok(())
    }

    #[tactic(auto, using(crate::proofs::Drafts::removed_absent, seq_base::specs::Steps::world_steps))]
    fn remove(&mut self, alloc: Global, path: &[u8]) -> Result<bool, StoreError> {
        let Some(_found) = get(alloc, self.changes, self.store, path)? else {
            return Ok(false);
        };
        let write = removal_of(alloc, path)?;
        self.changes.set(alloc, write)?;
        Ok(true)
    }

    fn list(&mut self, alloc: Global, folder: &[u8]) -> Result<Vec<Bytes>, StoreError> {
        let files = self.store.list(alloc, folder)?;
        let paths = listed(alloc, self.changes, files, folder)?;
        Ok(paths)
    }
}

/// Runs the children of a draft by a lent spawner: what was drafted is made first, and each child is run over that.
#[derive(Drop)]
pub struct DraftSpawner<'a, P> {
    spawner: &'a mut P,
}

impl<'a, P> DraftSpawner<'a, P> {
    /// By a spawner that is lent.
    pub fn new(spawner: &'a mut P) -> DraftSpawner<'a, P>
        ensures lent { result.spawner.now ≡ spawner.old }
        ensures same_reference { result.spawner.ghost_name ≡ spawner.entry.ghost_name }
    {
        DraftSpawner { spawner }
    }
}

impl<'a, 'b, S: Store, P: Spawner<S>> Spawner<DraftStore<'b, S>> for DraftSpawner<'a, P> {
    ghost ran = { λ before child after. S.told → P.ran before.spawner.now child after.spawner.now };

    ghost seen = { λ d. record { faults = (P.seen d.spawner.now).faults; lender = d.spawner.ghost_name } };

    fn run(
        &mut self,
        alloc: Global,
        store: &mut DraftStore<'b, S>,
        job: &Job,
    ) -> Result<Exit, ChildError> {
        match store.make(alloc) {
            Ok(()) => self.spawner.run(alloc, store.store, job),
            Err(StoreError::Memory) => Err(ChildError::Memory),
            Err(_) => Err(ChildError::Store),
        }
    }
}
