//! A repository that is made.

ghost use Rattle.std.specs.Prelude.{◌≡◌, codes};
ghost use Rattle.seq_model.specs.Changes.{Changes};
ghost use Rattle.seq_model.specs.Refusing.{denied_put};
ghost use Rattle.seq_outside.specs.Halts.{Gives, halt_cause};
ghost use Rattle.seq_outside.specs.Seen.{Reads, Writes};
ghost use Rattle.seq_outside.specs.Turns.{Turns, put_in, saying};
ghost use Rattle.seq_plumb.specs.Initing.{first_config, first_files, first_head, inited, is_new, tip_of};

use ref_store::resolve;
use seq_base::Id;
use seq_model::{Denial, Refusal, refused};
use seq_outside::{Halt, Store, StoreError};
use std::alloc::Global;

#[tactic(auto, unfolding(crate::specs::Initing::is_new))]
fn want_new<S: Store>(alloc: Global, store: &mut S) -> Result<(), Halt<Denial>>
    ensures gives { S.told → Gives (λ x. x) result (is_new (S.seen store.old).content) }
    ensures reads { Reads S.told halt_cause result (S.seen store.old) (S.seen store.new) }
{
    match store.get(alloc, b".git/HEAD")? {
        Some(_) => Err(refused(Refusal::AlreadyARepository)),
        None => Ok(()),
    }
}

#[tactic(auto, unfolding(seq_outside::specs::Turns::put_in), using(seq_model::proofs::Owning::head_file_owned))]
fn put_head<S: Store>(alloc: Global, store: &mut S) -> Result<(), Halt<Denial>>
    ensures turns { S.told → Turns (λ x. x) result
        (saying denied_put (put_in (codes ".git/HEAD") first_head) (S.seen store.old).content)
        (S.seen store.new).content }
    ensures owns { S.told → Changes (S.seen store.old).content (S.seen store.new).content }
    ensures writes { Writes S.told halt_cause result (S.seen store.old) (S.seen store.new) }
{
    match store.put(alloc, b".git/HEAD", b"ref: refs/heads/master\n") {
        Ok(()) => Ok(()),
        Err(StoreError::Blocked) => Err(refused(Refusal::NotBuilt)),
        Err(StoreError::Failed) => Err(Halt::Fault),
        Err(StoreError::Memory) => Err(Halt::Memory),
    }
}

#[tactic(auto, unfolding(seq_outside::specs::Turns::put_in), using(seq_model::proofs::Owning::config_owned))]
fn put_config<S: Store>(alloc: Global, store: &mut S) -> Result<(), Halt<Denial>>
    ensures turns { S.told → Turns (λ x. x) result
        (saying denied_put (put_in (codes ".git/config") first_config) (S.seen store.old).content)
        (S.seen store.new).content }
    ensures owns { S.told → Changes (S.seen store.old).content (S.seen store.new).content }
    ensures writes { Writes S.told halt_cause result (S.seen store.old) (S.seen store.new) }
{
    match store.put(
        alloc,
        b".git/config",
        b"[core]\n\trepositoryformatversion = 0\n",
    ) {
        Ok(()) => Ok(()),
        Err(StoreError::Blocked) => Err(refused(Refusal::NotBuilt)),
        Err(StoreError::Failed) => Err(Halt::Fault),
        Err(StoreError::Memory) => Err(Halt::Memory),
    }
}

#[tactic(auto, unfolding(crate::specs::Initing::first_files), using(seq_model::proofs::Owning::owned_both))]
fn put_first_files<S: Store>(alloc: Global, store: &mut S) -> Result<(), Halt<Denial>>
    ensures turns { S.told → Turns (λ x. x) result (first_files (S.seen store.old).content) (S.seen store.new).content }
    ensures owns { S.told → Changes (S.seen store.old).content (S.seen store.new).content }
    ensures writes { Writes S.told halt_cause result (S.seen store.old) (S.seen store.new) }
{
    put_head(alloc, store)?;
    put_config(alloc, store)
}

/// The commit that HEAD is at: none where its branch has none, or where that cannot be read.
#[tactic(auto, unfolding(crate::specs::Initing::tip_of))]
fn tip<S: Store>(alloc: Global, store: &mut S) -> Result<Option<Id>, Halt<Denial>>
    ensures gives { S.told → Gives (λ tip. tip) result (tip_of (S.seen store.old).content) }
    ensures reads { Reads S.told halt_cause result (S.seen store.old) (S.seen store.new) }
{
    match resolve(alloc, store, b"HEAD") {
        Ok(tip) => Ok(tip),
        Err(Halt::Stops(_)) => Ok(None),
        Err(Halt::Fault) => Err(Halt::Fault),
        Err(Halt::Memory) => Err(Halt::Memory),
    }
}

/// Makes a repository (git-init(1)): HEAD on the branch `master`, and a configuration, in place of one that stands there. AlreadyARepository
/// where there is a `.git/HEAD`. Answers the commit that HEAD is then at.
#[tactic(auto, unfolding(crate::specs::Initing::inited))]
pub fn init<S: Store>(alloc: Global, store: &mut S) -> Result<Option<Id>, Halt<Denial>>
    ensures turns { S.told → Turns (λ head. head) result (inited (S.seen store.old).content) (S.seen store.new).content }
    ensures owns { S.told → Changes (S.seen store.old).content (S.seen store.new).content }
    ensures writes { Writes S.told halt_cause result (S.seen store.old) (S.seen store.new) }
{
    want_new(alloc, store)?;
    put_first_files(alloc, store)?;
    tip(alloc, store)
}
