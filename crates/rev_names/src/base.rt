//! The object that the base of a word names.

ghost use Rattle.std.specs.Prelude.{◌≡◌, IfOk, IfSome, IsErrOf, Ok};
ghost use Rattle.objects.specs.Causes.{IsFaultOrMemory, object_cause};
ghost use Rattle.objects.specs.Prefixes.{IsPrefix, ids_with as ids_with_of};
ghost use Rattle.ref_text.specs.ReadHeads.{id_in as id_in_of};
ghost use Rattle.rev_names.specs.Bases.{base_id as base_id_of, id_with as id_with_of, label_id as label_id_of, label_or_base as label_or_base_of, label_ref as label_ref_of};
ghost use Rattle.rev_names.specs.Bases.{name_id as name_id_of, only_one as only_one_of, ref_or_digits as ref_or_digits_of, whole_id as whole_id_of};
ghost use Rattle.rev_names.specs.declared.fault.RevFault.{RevFault as RevFaultOf};
ghost use Rattle.seq_base.specs.RefNames.{IsRefName};
ghost use Rattle.seq_outside.specs.Halts.{Gives, halt_cause};
ghost use Rattle.seq_outside.specs.Seen.{Reads};

use crate::fault::RevFault;
use crate::names::{label_name, names_of};
use crate::refs::{FoundRef, first_ref, ref_id};
use objects::{ObjectFault, is_prefix, with_prefix};
use seq_base::Id;
use seq_outside::{Halt, Store};
use std::alloc::Global;

fn stops(fault: RevFault) -> Halt<RevFault>
    ensures { result ≡ Halt.Stops fault }
{
    Halt::Stops(fault)
}

/// The only one of some ids.
fn only_one(ids: &[Id]) -> Result<Id, Halt<RevFault>>
    ensures gives { Gives (λ id. id) result (only_one_of ids.now) }
    ensures no_fault { IsErrOf result Halt.Fault → ⊥ }
{
    match ids {
        [] => Err(stops(RevFault::NoSuch)),
        [id] => Ok(*id),
        [first, second, ..] => Err(stops(RevFault::Ambiguous {
            first: *first,
            second: *second,
        })),
    }
}

fn list_halt(fault: ObjectFault) -> Halt<RevFault>
    requires { IsFaultOrMemory fault }
    ensures cause { halt_cause result ≡ object_cause fault }
    ensures no_reason { (why : RevFaultOf) → result ≡ Halt.Stops why → ⊥ }
{
    match fault {
        ObjectFault::Fault => Halt::Fault,
        ObjectFault::Memory => Halt::Memory,
        ObjectFault::Missing
        | ObjectFault::TooLarge { .. }
        | ObjectFault::WrongHash { .. }
        | ObjectFault::BadText { .. }
        | ObjectFault::Collision { .. }
        | ObjectFault::Blocked { .. } => unreachable!(),
    }
}

fn ids_with<S: Store>(
    alloc: Global,
    store: &mut S,
    digits: &[u8],
) -> Result<Vec<Id>, Halt<RevFault>>
    requires { IsPrefix digits.now }
    ensures gives { S.told → Gives (λ ids. ids.items) result (Ok (ids_with_of (S.seen store.old).content digits.now)) }
    ensures reads { Reads S.told halt_cause result (S.seen store.old) (S.seen store.new) }
{
    match with_prefix(alloc, store, digits) {
        Ok(ids) => Ok(ids),
        Err(fault) => Err(list_halt(fault)),
    }
}

/// The only object whose id begins with these digits.
#[tactic(auto, unfolding(crate::specs::Bases::id_with))]
fn id_with<S: Store>(
    alloc: Global,
    store: &mut S,
    digits: &[u8],
    entry: Option<u64>,
) -> Result<Id, Halt<RevFault>>
    ensures gives { S.told → Gives (λ id. id) result (id_with_of (S.seen store.old).content digits.now entry) }
    ensures reads { Reads S.told halt_cause result (S.seen store.old) (S.seen store.new) }
{
    if !is_prefix(digits) {
        return Err(stops(RevFault::NoSuch));
    }
    if entry.is_some() {
        return Err(stops(RevFault::Form));
    }
    let ids = ids_with(alloc, store, digits)?;
    only_one(&ids)
}

/// What a ref that was found has, or else the object whose id begins so.
fn ref_or_digits<S: Store>(
    alloc: Global,
    store: &mut S,
    found: Option<FoundRef>,
    base: &[u8],
    entry: Option<u64>,
) -> Result<Id, Halt<RevFault>>
    requires { IfSome found (λ r. IsRefName r.name) }
    ensures gives { S.told → Gives (λ id. id) result (ref_or_digits_of (S.seen store.old).content base.now entry found) }
    ensures reads { Reads S.told halt_cause result (S.seen store.old) (S.seen store.new) }
{
    match found {
        Some(found) => ref_id(alloc, store, found, entry),
        None => id_with(alloc, store, base, entry),
    }
}

/// The ref that a base stands for, or else the object whose id begins so.
#[tactic(auto, unfolding(crate::specs::Bases::name_id, crate::specs::Bases::first_ref))]
fn name_id<S: Store>(
    alloc: Global,
    store: &mut S,
    base: &[u8],
    entry: Option<u64>,
) -> Result<Id, Halt<RevFault>>
    ensures gives { S.told → Gives (λ id. id) result (name_id_of (S.seen store.old).content base.now entry) }
    ensures reads { Reads S.told halt_cause result (S.seen store.old) (S.seen store.new) }
{
    let names = names_of(alloc, base)?;
    let found = first_ref(alloc, store, &names)?;
    ref_or_digits(alloc, store, found, base, entry)
}

#[tactic(auto, unfolding(crate::specs::Bases::whole_id))]
fn whole_id(id: Id, entry: Option<u64>) -> Result<Id, Halt<RevFault>>
    ensures gives { Gives (λ id. id) result (whole_id_of id entry) }
    ensures no_fault { IsErrOf result Halt.Fault → ⊥ }
{
    if entry.is_some() {
        return Err(stops(RevFault::Form));
    }
    Ok(id)
}

/// The id that forty digits spell.
#[tactic(auto, unfolding(ref_text::specs::ReadHeads::id_in), using(ref_text::proofs::HeadLaws::no_id))]
fn id_in(text: &[u8]) -> Option<Id>
    ensures { result ≡ id_in_of text.now }
{
    match Id::from_hex(text) {
        Ok(id) => Some(id),
        Err(_) => None,
    }
}

/// Forty digits are an id; else the refs are looked up, and then ids that begin so.
#[tactic(auto, unfolding(crate::specs::Bases::base_id))]
pub fn base_id<S: Store>(
    alloc: Global,
    store: &mut S,
    base: &[u8],
    entry: Option<u64>,
) -> Result<Id, Halt<RevFault>>
    ensures gives { S.told → Gives (λ id. id) result (base_id_of (S.seen store.old).content base.now entry) }
    ensures reads { Reads S.told halt_cause result (S.seen store.old) (S.seen store.new) }
{
    match id_in(base) {
        Some(id) => whole_id(id, entry),
        None => name_id(alloc, store, base, entry),
    }
}

/// What a label that was found has, or else what the base stands for.
fn label_or_base<S: Store>(
    alloc: Global,
    store: &mut S,
    found: Option<FoundRef>,
    base: &[u8],
    entry: Option<u64>,
) -> Result<Id, Halt<RevFault>>
    requires { IfSome found (λ r. IsRefName r.name) }
    ensures gives { S.told → Gives (λ id. id) result (label_or_base_of (S.seen store.old).content base.now entry found) }
    ensures reads { Reads S.told halt_cause result (S.seen store.old) (S.seen store.new) }
{
    match found {
        Some(found) => ref_id(alloc, store, found, entry),
        None => base_id(alloc, store, base, entry),
    }
}

/// The ref of a label.
#[tactic(auto, unfolding(crate::specs::Bases::label_ref))]
fn label_ref<S: Store>(
    alloc: Global,
    store: &mut S,
    base: &[u8],
) -> Result<Option<FoundRef>, Halt<RevFault>>
    ensures gives { S.told → Gives (λ found. found) result (label_ref_of (S.seen store.old).content base.now) }
    ensures name { IfOk result (λ found. IfSome found (λ r. IsRefName r.name)) }
    ensures reads { Reads S.told halt_cause result (S.seen store.old) (S.seen store.new) }
{
    let name = label_name(alloc, base)?;
    first_ref(alloc, store, &[name])
}

/// The same, where a label goes before all others.
#[tactic(auto, unfolding(crate::specs::Bases::label_id))]
pub fn label_id<S: Store>(
    alloc: Global,
    store: &mut S,
    base: &[u8],
    entry: Option<u64>,
) -> Result<Id, Halt<RevFault>>
    ensures gives { S.told → Gives (λ id. id) result (label_id_of (S.seen store.old).content base.now entry) }
    ensures reads { Reads S.told halt_cause result (S.seen store.old) (S.seen store.new) }
{
    let found = label_ref(alloc, store, base)?;
    label_or_base(alloc, store, found, base, entry)
}
