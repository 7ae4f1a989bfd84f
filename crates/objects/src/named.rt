//! Objects and commits by their ids, and the putting of an object, where it is told what is lacked.

ghost use Rattle.std.specs.Prelude.{◌≡◌, IfOk, IsErrOf};
ghost use Rattle.object_text.specs.Commits.{IsCommitValue};
ghost use Rattle.object_text.specs.Store.{object_id};
ghost use Rattle.seq_outside.specs.Halts.{Gives, halt_cause};
ghost use Rattle.seq_outside.specs.Seen.{Reads, Writes};
ghost use Rattle.seq_outside.specs.Store.{KeepsFiles, StaysOutside};
ghost use Rattle.seq_outside.specs.Turns.{Turns};
ghost use Rattle.objects.specs.Causes.{IsPutFault};
ghost use Rattle.objects.specs.Halts.{HasPutHalt, halt_of_commit, halt_of_object};
ghost use Rattle.objects.specs.Named.{commit_in as commit_in_object, commit_named, commit_spelled, is_commit_kind, is_object_place, object_named};
ghost use Rattle.objects.specs.Puts.{object_of, object_put};

use crate::fault::ObjectFault;
use crate::read::get;
use crate::write::put;
use object_text::{Commit, Kind, Object, TextFault, parse_commit};
use seq_base::Id;
use seq_outside::{Halt, Lack, LimitWhat, Store};
use std::alloc::Global;

fn over(what: LimitWhat, number: u64) -> Halt<Lack>
    ensures { result ≡ Halt.Stops (Lack.Limit what number) }
{
    Halt::Stops(Lack::Limit { what, number })
}

fn object_halt(id: Id, fault: ObjectFault) -> Halt<Lack>
    ensures { result ≡ halt_of_object id fault }
{
    match fault {
        ObjectFault::Missing => Halt::Stops(Lack::Object { id }),
        ObjectFault::TooLarge { length } => over(LimitWhat::ObjectBytes, length),
        ObjectFault::WrongHash { .. } => Halt::Stops(Lack::Object { id }),
        ObjectFault::BadText { .. } => Halt::Stops(Lack::Object { id }),
        ObjectFault::Collision { .. } => Halt::Stops(Lack::Object { id }),
        ObjectFault::Blocked { .. } => Halt::Fault,
        ObjectFault::Fault => Halt::Fault,
        ObjectFault::Memory => Halt::Memory,
    }
}

/// The object of an id. Object where it is missing or damaged, Limit where it is too large.
#[tactic(auto, using(crate::proofs::Naming::named_ok, crate::proofs::Naming::named_err))]
pub fn read_object<S: Store>(alloc: Global, store: &mut S, id: Id) -> Result<Object, Halt<Lack>>
    ensures gives { S.told → Gives (λ o. o) result (object_named (S.seen store.old).content id) }
    ensures reads { Reads S.told halt_cause result (S.seen store.old) (S.seen store.new) }
{
    match get(alloc, store, id) {
        Ok(object) => Ok(object),
        Err(fault) => Err(object_halt(id, fault)),
    }
}

fn is_commit(kind: Kind) -> bool
    ensures { result ≡ is_commit_kind kind }
{
    match kind {
        Kind::Commit => true,
        Kind::Blob => false,
        Kind::Tree => false,
        Kind::Tag => false,
    }
}

fn commit_halt(id: Id, fault: TextFault) -> Halt<Lack>
    ensures { result ≡ halt_of_commit id fault }
{
    match fault {
        TextFault::Bad { .. } => Halt::Stops(Lack::Object { id }),
        TextFault::Parents { count } => over(LimitWhat::Parents, count),
        TextFault::Memory => Halt::Memory,
    }
}

/// The commit that the content of an object spells. Object with the object's id where it spells none, Limit where the commit has more than
/// 16 parents.
#[tactic(auto, using(crate::proofs::Naming::few_parents, crate::proofs::Naming::commit_fault))]
pub fn spelled_commit(alloc: Global, id: Id, content: &[u8]) -> Result<Commit, Halt<Lack>>
    ensures gives { Gives (λ c. c) result (commit_spelled id content.now) }
    ensures value { IfOk result IsCommitValue }
    ensures no_fault { IsErrOf result Halt.Fault → ⊥ }
{
    match parse_commit(alloc, content) {
        Ok(commit) => Ok(commit),
        Err(fault) => Err(commit_halt(id, fault)),
    }
}

/// The commit that an object is.
#[tactic(auto, unfolding(crate::specs::Named::commit_in))]
fn commit_in(alloc: Global, id: Id, object: &Object) -> Result<Commit, Halt<Lack>>
    ensures gives { Gives (λ c. c) result (commit_in_object id object.now) }
    ensures value { IfOk result IsCommitValue }
    ensures no_fault { IsErrOf result Halt.Fault → ⊥ }
{
    if !is_commit(object.kind) {
        return Err(Halt::Stops(Lack::Object { id }));
    }
    spelled_commit(alloc, id, object.bytes.as_slice())
}

/// The commit of an id, with no tag in between. Object where the object is none or cannot be read, Limit where it is too large, or
/// has more than 16 parents.
#[tactic(auto, unfolding(crate::specs::Named::commit_named))]
pub fn read_commit<S: Store>(alloc: Global, store: &mut S, id: Id) -> Result<Commit, Halt<Lack>>
    ensures gives { S.told → Gives (λ c. c) result (commit_named (S.seen store.old).content id) }
    ensures value { IfOk result IsCommitValue }
    ensures reads { Reads S.told halt_cause result (S.seen store.old) (S.seen store.new) }
{
    let object = read_object(alloc, store, id)?;
    commit_in(alloc, id, &object)
}

fn put_halt(fault: ObjectFault) -> Halt<Lack>
    requires { IsPutFault fault }
    ensures { HasPutHalt fault result }
{
    match fault {
        ObjectFault::TooLarge { length } => over(LimitWhat::ObjectBytes, length),
        ObjectFault::WrongHash { id, .. } => Halt::Stops(Lack::Place { id }),
        ObjectFault::Collision { id, .. } => Halt::Stops(Lack::Place { id }),
        ObjectFault::Blocked { path } => Halt::Stops(Lack::Way { path }),
        ObjectFault::Fault => Halt::Fault,
        ObjectFault::Memory => Halt::Memory,
        ObjectFault::Missing | ObjectFault::BadText { .. } => unreachable!(),
    }
}

/// Puts an object, and answers its id (git-hash-object(1), `-w`). Limit where it is too large; else Place where another text stands in
/// its file; else Way where another file is in its way. Whatever ends it, each file that stood is as it was.
#[tactic(auto, using(crate::proofs::Putting::object_is_put, crate::proofs::Putting::put_halts))]
pub fn write_object<S: Store>(
    alloc: Global,
    store: &mut S,
    kind: Kind,
    bytes: &[u8],
) -> Result<Id, Halt<Lack>>
    ensures turns { S.told → Turns (λ id. id) result (object_put (object_of kind bytes.now) (S.seen store.old).content) (S.seen store.new).content }
    ensures id { IfOk result (λ id. id ≡ object_id (object_of kind bytes.now)) }
    ensures keeps { S.told → KeepsFiles (S.seen store.old).content (S.seen store.new).content }
    ensures elsewhere { S.told → StaysOutside is_object_place (S.seen store.old).content (S.seen store.new).content }
    ensures writes { Writes S.told halt_cause result (S.seen store.old) (S.seen store.new) }
{
    match put(alloc, store, kind, bytes) {
        Ok(id) => Ok(id),
        Err(fault) => Err(put_halt(fault)),
    }
}
