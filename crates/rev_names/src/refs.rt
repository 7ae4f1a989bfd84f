//! The ref that a base stands for, and the entries of its log.

ghost use Rattle.std.specs.Prelude.{◌≡◌, IfOk, IfSome};
ghost use Rattle.ref_store.specs.Values.{log_at};
ghost use Rattle.rev_names.specs.Bases.{entry_of as entry_of_name, first_ref as first_ref_of, new_before as new_before_of, ref_id as ref_id_of, value_of};
ghost use Rattle.rev_names.specs.Faults.{bad_ref as bad_ref_of};
ghost use Rattle.seq_base.specs.RefNames.{IsRefName};
ghost use Rattle.seq_outside.specs.Halts.{Gives, for_reason, halt_cause};
ghost use Rattle.seq_outside.specs.Seen.{Reads};

use crate::fault::{RevFault, bad_ref};
use ref_store::{log, resolve};
use ref_text::LogLine;
use seq_base::{Bytes, Id, is_ref_name};
use seq_outside::{Halt, Store};
use std::alloc::Global;

/// A ref that was found, and its value.
#[derive(Drop)]
pub struct FoundRef {
    pub name: Bytes,
    pub id: Id,
}

/// The value of a name, if it is a ref's and has one.
#[tactic(auto, unfolding(crate::specs::Bases::value_of))]
fn value<S: Store>(alloc: Global, store: &mut S, name: &[u8]) -> Result<Option<Id>, Halt<RevFault>>
    ensures gives { S.told → Gives (λ id. id) result (value_of (S.seen store.old).content name.now) }
    ensures name { IfOk result (λ found. IfSome found (λ _. IsRefName name.now)) }
    ensures reads { Reads S.told halt_cause result (S.seen store.old) (S.seen store.new) }
{
    if !is_ref_name(name) {
        return Ok(None);
    }
    match resolve(alloc, store, name) {
        Ok(value) => Ok(value),
        Err(Halt::Stops(fault)) => Err(Halt::Stops(bad_ref(alloc, fault)?)),
        Err(Halt::Fault) => Err(Halt::Fault),
        Err(Halt::Memory) => Err(Halt::Memory),
    }
}

/// The first of some names that is a ref's and has a value.
#[tactic(auto, unfolding(crate::specs::Bases::first_ref))]
pub fn first_ref<S: Store>(
    alloc: Global,
    store: &mut S,
    names: &[Bytes],
) -> Result<Option<FoundRef>, Halt<RevFault>>
    ensures gives { S.told → Gives (λ found. found) result (first_ref_of (S.seen store.old).content names.now) }
    ensures name { IfOk result (λ found. IfSome found (λ r. IsRefName r.name)) }
    ensures reads { Reads S.told halt_cause result (S.seen store.old) (S.seen store.new) }
{
    let [name, later @ ..] = names else {
        return Ok(None);
    };
    match value(alloc, store, name.as_slice())? {
        Some(id) => Ok(Some(FoundRef {
            name: Bytes::from_vec(name.as_slice().to_vec(alloc)?),
            id,
        })),
        None => first_ref(alloc, store, later),
    }
}

/// The new value of the line so many before the last.
#[tactic(auto, using(crate::proofs::Entries::entry_steps))]
fn new_before(entry: u64, lines: &[LogLine]) -> Option<Id>
    ensures { result ≡ new_before_of entry lines.now }
{
    if entry < lines.len() as u64 {
        Some(lines[lines.len() - 1 - entry as usize].new)
    } else {
        None
    }
}

fn lines_of<S: Store>(
    alloc: Global,
    store: &mut S,
    name: &[u8],
) -> Result<Vec<LogLine>, Halt<RevFault>>
    requires { IsRefName name.now }
    ensures gives { S.told → Gives (λ lines. lines.items) result (for_reason bad_ref_of (log_at (S.seen store.old).content name.now)) }
    ensures reads { Reads S.told halt_cause result (S.seen store.old) (S.seen store.new) }
{
    match log(alloc, store, name) {
        Ok(lines) => Ok(lines),
        Err(Halt::Stops(fault)) => Err(Halt::Stops(bad_ref(alloc, fault)?)),
        Err(Halt::Fault) => Err(Halt::Fault),
        Err(Halt::Memory) => Err(Halt::Memory),
    }
}

/// An entry of the log of a ref, counted from the last.
#[tactic(auto, unfolding(crate::specs::Bases::entry_of))]
fn entry_of<S: Store>(
    alloc: Global,
    store: &mut S,
    name: &[u8],
    entry: u64,
) -> Result<Id, Halt<RevFault>>
    requires { IsRefName name.now }
    ensures gives { S.told → Gives (λ id. id) result (entry_of_name (S.seen store.old).content name.now entry) }
    ensures reads { Reads S.told halt_cause result (S.seen store.old) (S.seen store.new) }
{
    let lines = lines_of(alloc, store, name)?;
    match new_before(entry, &lines) {
        Some(id) => Ok(id),
        None => Err(Halt::Stops(RevFault::NoLogEntry)),
    }
}

/// The value of a ref, or that of an entry of its log.
#[tactic(auto, unfolding(crate::specs::Bases::ref_id))]
pub fn ref_id<S: Store>(
    alloc: Global,
    store: &mut S,
    found: FoundRef,
    entry: Option<u64>,
) -> Result<Id, Halt<RevFault>>
    requires { IsRefName found.name }
    ensures gives { S.told → Gives (λ id. id) result (ref_id_of (S.seen store.old).content found entry) }
    ensures reads { Reads S.told halt_cause result (S.seen store.old) (S.seen store.new) }
{
    match entry {
        Some(entry) => entry_of(alloc, store, found.name.as_slice(), entry),
        None => Ok(found.id),
    }
}
