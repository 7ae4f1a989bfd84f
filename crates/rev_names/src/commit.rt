//! The commit that an object leads to.

ghost use Rattle.std.specs.Prelude.{◌≡◌, IsErrOf};
ghost use Rattle.objects.specs.Named.{commit_named, object_named};
ghost use Rattle.rev_names.specs.Commits.{found_at as found_at_of, found_within, spelled_at as spelled_at_of, tagged as tagged_of};
ghost use Rattle.rev_names.specs.Faults.{bad_object};
ghost use Rattle.seq_outside.specs.Halts.{Gives, for_reason, halt_cause};
ghost use Rattle.seq_outside.specs.Seen.{Reads};

use crate::fault::{RevFault, object_halt};
use object_text::{Commit, Kind, Object, TextFault, parse_tag};
use objects::{read_commit, read_object, spelled_commit};
use seq_base::Id;
use seq_outside::{Halt, Store};
use std::alloc::Global;

/// A commit and its id.
#[derive(Drop)]
pub struct FoundCommit {
    pub id: Id,
    pub commit: Commit,
}

fn object<S: Store>(alloc: Global, store: &mut S, id: Id) -> Result<Object, Halt<RevFault>>
    ensures gives { S.told → Gives (λ o. o) result (for_reason bad_object (object_named (S.seen store.old).content id)) }
    ensures reads { Reads S.told halt_cause result (S.seen store.old) (S.seen store.new) }
{
    match read_object(alloc, store, id) {
        Ok(object) => Ok(object),
        Err(halt) => Err(object_halt(halt)),
    }
}

/// The commit that a content spells, with its id.
#[tactic(auto, unfolding(crate::specs::Commits::spelled_at))]
fn spelled_at(alloc: Global, id: Id, content: &[u8]) -> Result<FoundCommit, Halt<RevFault>>
    ensures gives { Gives (λ found. found) result (spelled_at_of id content.now) }
    ensures no_fault { IsErrOf result Halt.Fault → ⊥ }
{
    match spelled_commit(alloc, id, content) {
        Ok(commit) => Ok(FoundCommit { id, commit }),
        Err(halt) => Err(object_halt(halt)),
    }
}

/// The id of the object that a tag names.
#[tactic(auto, unfolding(crate::specs::Commits::tagged))]
fn tagged(id: Id, content: &[u8]) -> Result<Id, Halt<RevFault>>
    ensures gives { Gives (λ id. id) result (tagged_of id content.now) }
    ensures no_fault { IsErrOf result Halt.Fault → ⊥ }
{
    match parse_tag(content) {
        Ok(named) => Ok(named),
        Err(TextFault::Bad { .. }) => Err(Halt::Stops(RevFault::BadObject { id })),
        Err(TextFault::Parents { .. }) => unreachable!(),
        Err(TextFault::Memory) => Err(Halt::Memory),
    }
}

/// The commit that an object leads to through at most so many tags. NotACommit where it is a blob or a tree, or where another tag stands
/// behind these; BadObject, TooLarge and Parents of the first object that is not read.
#[tactic(auto, using(crate::proofs::Tags::tag_steps))]
pub fn commit_within<S: Store>(
    alloc: Global,
    store: &mut S,
    left: usize,
    id: Id,
) -> Result<FoundCommit, Halt<RevFault>>
    ensures gives { S.told → Gives (λ found. found) result (found_within left (S.seen store.old).content id) }
    ensures reads { Reads S.told halt_cause result (S.seen store.old) (S.seen store.new) }
{
    let object = object(alloc, store, id)?;
    match object.kind {
        Kind::Commit => spelled_at(alloc, id, object.bytes.as_slice()),
        Kind::Tag => {
            let named = tagged(id, object.bytes.as_slice())?;
            if left == 0 {
                return Err(Halt::Stops(RevFault::NotACommit));
            }
            commit_within(alloc, store, left - 1, named)
        }
        Kind::Blob => Err(Halt::Stops(RevFault::NotACommit)),
        Kind::Tree => Err(Halt::Stops(RevFault::NotACommit)),
    }
}

/// The commit of an id, with no tag in between.
#[tactic(auto, unfolding(crate::specs::Commits::found_at))]
pub fn found_at<S: Store>(
    alloc: Global,
    store: &mut S,
    id: Id,
) -> Result<FoundCommit, Halt<RevFault>>
    ensures gives { S.told → Gives (λ found. found) result (found_at_of (S.seen store.old).content id) }
    ensures reads { Reads S.told halt_cause result (S.seen store.old) (S.seen store.new) }
{
    match read_commit(alloc, store, id) {
        Ok(commit) => Ok(FoundCommit { id, commit }),
        Err(halt) => Err(object_halt(halt)),
    }
}
