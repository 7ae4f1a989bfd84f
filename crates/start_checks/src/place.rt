//! HEAD and the refs.

ghost use Rattle.std.specs.Prelude.{◌≡◌, IfOk};
ghost use Rattle.ref_store.specs.Values.{head_at, packed_at, value_at};
ghost use Rattle.ref_text.specs.Heads.{IsHeadValue};
ghost use Rattle.ref_text.specs.Refs.{head_name};
ghost use Rattle.seq_model.specs.Checks.{denied_refs as denied_refs_of, has_refs, place_at, place_in as place_in_world};
ghost use Rattle.seq_outside.specs.Halts.{Gives, for_reason, halt_cause};
ghost use Rattle.seq_outside.specs.Seen.{Reads};
ghost use Rattle.seq_model.specs.Refusing.{told_by};

use ref_store::{RefFault, head, packed_refs, resolve};
use ref_text::Head;
use seq_base::{Bytes, Id};
use seq_model::{Denial, Place, Refusal};
use seq_outside::{Halt, Store};
use std::alloc::Global;

fn denied_refs(fault: RefFault) -> Denial
    ensures { result ≡ denied_refs_of fault }
{
    match fault {
        RefFault::BadPacked { line } => Denial::Refused(Refusal::BadRefs { line }),
        RefFault::BadHead
        | RefFault::BadRef { .. }
        | RefFault::BadLog { .. }
        | RefFault::Moved { .. }
        | RefFault::Blocked { .. } => Denial::Refused(Refusal::BadHead),
    }
}

/// What is refused of refs that cannot be read.
fn refs_halt(halt: Halt<RefFault>) -> Halt<Denial>
    ensures { result ≡ told_by denied_refs_of halt }
{
    match halt {
        Halt::Stops(fault) => Halt::Stops(denied_refs(fault)),
        Halt::Fault => Halt::Fault,
        Halt::Memory => Halt::Memory,
    }
}

fn head_of<S: Store>(alloc: Global, store: &mut S) -> Result<Head, Halt<Denial>>
    ensures gives { S.told → Gives (λ head. head) result (for_reason denied_refs_of (head_at (S.seen store.old).content)) }
    ensures value { IfOk result IsHeadValue }
    ensures reads { Reads S.told halt_cause result (S.seen store.old) (S.seen store.new) }
{
    match head(alloc, store) {
        Ok(head) => Ok(head),
        Err(halt) => Err(refs_halt(halt)),
    }
}

fn tip_of<S: Store>(alloc: Global, store: &mut S) -> Result<Option<Id>, Halt<Denial>>
    ensures gives { S.told → Gives (λ tip. tip) result (for_reason denied_refs_of (value_at (S.seen store.old).content head_name)) }
    ensures reads { Reads S.told halt_cause result (S.seen store.old) (S.seen store.new) }
{
    match resolve(alloc, store, b"HEAD") {
        Ok(tip) => Ok(tip),
        Err(halt) => Err(refs_halt(halt)),
    }
}

/// What HEAD is, and the commit that it is at. BadHead where its file is none of HEAD, or one to which it leads is none of a ref, or too
/// many lead on; BadRefs with the line where the packed refs decide and are bad (gitrepository-layout(5), "HEAD").
#[tactic(auto, unfolding(seq_model::specs::Checks::place_at))]
pub fn head_place<S: Store>(alloc: Global, store: &mut S) -> Result<Place, Halt<Denial>>
    ensures gives { S.told → Gives (λ place. place) result (place_at (S.seen store.old).content) }
    ensures value { IfOk result (λ place. IsHeadValue place.head) }
    ensures reads { Reads S.told halt_cause result (S.seen store.old) (S.seen store.new) }
{
    let head = head_of(alloc, store)?;
    let tip = tip_of(alloc, store)?;
    Ok(Place { head, tip })
}

fn packed_of<S: Store>(alloc: Global, store: &mut S) -> Result<Vec<(Bytes, Id)>, Halt<Denial>>
    ensures gives { S.told → Gives (λ refs. refs.items) result (for_reason denied_refs_of (packed_at (S.seen store.old).content)) }
    ensures reads { Reads S.told halt_cause result (S.seen store.old) (S.seen store.new) }
{
    match packed_refs(alloc, store) {
        Ok(refs) => Ok(refs),
        Err(halt) => Err(refs_halt(halt)),
    }
}

/// BadRefs with the first bad line of the packed refs (git-pack-refs(1)).
#[tactic(auto, unfolding(seq_model::specs::Checks::has_refs))]
pub fn want_refs<S: Store>(alloc: Global, store: &mut S) -> Result<(), Halt<Denial>>
    ensures gives { S.told → Gives (λ x. x) result (has_refs (S.seen store.old).content) }
    ensures reads { Reads S.told halt_cause result (S.seen store.old) (S.seen store.new) }
{
    let _refs = packed_of(alloc, store)?;
    Ok(())
}

/// `head_place`, and then `want_refs`.
#[tactic(auto, unfolding(seq_model::specs::Checks::place_in))]
pub fn place_in<S: Store>(alloc: Global, store: &mut S) -> Result<Place, Halt<Denial>>
    ensures gives { S.told → Gives (λ place. place) result (place_in_world (S.seen store.old).content) }
    ensures value { IfOk result (λ place. IsHeadValue place.head) }
    ensures reads { Reads S.told halt_cause result (S.seen store.old) (S.seen store.new) }
{
    let place = head_place(alloc, store)?;
    want_refs(alloc, store)?;
    Ok(place)
}
