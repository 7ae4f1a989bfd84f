//! The refs of the end are compared, and judged writable, before any is written.

ghost use Rattle.std.specs.List.{list_any};
ghost use Rattle.std.specs.Prelude.{◌≡◌, ◌||◌, if◌then◌else◌, option_and_then, IfOk, Some, None};
ghost use Rattle.reading.specs.Ending.{all_writable, barred_stop, found_value as found_value_of, has_moved as has_moved_at, is_among_folders as is_among_folders_of, moved_stop, none_moved, value_or_none as value_or_none_of};
ghost use Rattle.line_steps.specs.Places.{stop_of as stop_of_kind};
ghost use Rattle.ref_store.specs.Changes.{is_barred, is_value as is_value_of};
ghost use Rattle.ref_store.specs.Values.{value_at};
ghost use Rattle.seq_base.specs.RefNames.{IsRefName};
ghost use Rattle.seq_base.specs.World.{is_below};
ghost use Rattle.seq_lines.specs.Refs.{AreEndRefs, IsEndRef};
ghost use Rattle.seq_model.specs.Making.{value_of as value_of_id};
ghost use Rattle.seq_model.specs.declared.reason.Reason.TheVariants.{BadName};
ghost use Rattle.seq_model.specs.declared.stop.StopKind.TheVariants.{Blocked, RefMoved};
ghost use Rattle.seq_outside.specs.Halts.{Gives, halt_cause};
ghost use Rattle.seq_outside.specs.Seen.{Reads, store_cause};
ghost use Rattle.seq_step.specs.Causes.{RunsNone};

use crate::refs::value_of_any;
use line_steps::Stop;
use reading::EndRef;
use ref_store::{has_in_way, resolve};
use seq_base::{Id, lies_below};
use seq_model::{Reason, StopKind};
use seq_outside::{Halt, Store, StoreError};
use seq_step::stop_of;
use std::alloc::{AllocError, Global};

/// The value of a ref; none where it cannot be read.
pub fn value_or_none<S: Store>(
    alloc: Global,
    name: &[u8],
    store: &mut S,
) -> Result<Option<Id>, StoreError>
    requires { IsRefName name.now }
    ensures value { S.told → IfOk result (λ value. value ≡ value_or_none_of (value_at (S.seen store.old).content name.now)) }
    ensures reads { Reads S.told store_cause result (S.seen store.old) (S.seen store.new) }
{
    match resolve(alloc, store, name) {
        Ok(value) => Ok(value),
        Err(Halt::Stops(_fault)) => Ok(None),
        Err(Halt::Fault) => Err(StoreError::Failed),
        Err(Halt::Memory) => Err(StoreError::Memory),
    }
}

/// An id of zeros alone is no value of an `update-ref` line.
fn judged_value(is_update: bool, value: Option<Id>) -> Option<Id>
    ensures { result ≡ (if is_update then option_and_then value_of_id value else value) }
{
    if is_update {
        value_of_any(value)
    } else {
        value
    }
}

fn found_value<S: Store>(alloc: Global, r: &EndRef, store: &mut S) -> Result<Option<Id>, StoreError>
    requires { IsEndRef r.now }
    ensures value { S.told → IfOk result (λ value. value ≡ found_value_of (S.seen store.old).content r.now) }
    ensures reads { Reads S.told store_cause result (S.seen store.old) (S.seen store.new) }
{
    let value = value_or_none(alloc, r.name.as_slice(), store)?;
    Ok(judged_value(r.is_update, value))
}

fn is_value(found: Option<Id>, expected: Option<Id>) -> bool
    ensures { result ≡ is_value_of found expected }
{
    match (found, expected) {
        (None, None) => true,
        (Some(found), Some(expected)) => found.bytes() == expected.bytes(),
        (None, Some(_)) | (Some(_), None) => false,
    }
}

fn moved(r: &EndRef, found: Option<Id>) -> Result<Stop, AllocError>
    ensures { IfOk result (λ stop. stop ≡ stop_of_kind (RefMoved r.now.name found)) }
{
    let name = r.name.clone()?;
    Ok(stop_of(StopKind::RefMoved { name, found }))
}

/// Stops where a ref has moved.
fn want_unmoved<S: Store>(alloc: Global, r: &EndRef, store: &mut S) -> Result<(), Halt<Stop>>
    requires { IsEndRef r.now }
    ensures gives { S.told → Gives (λ x. x) result
        (moved_stop (S.seen store.old).content (if has_moved_at (S.seen store.old).content r.now then Some r.now else None)) }
    ensures none { RunsNone result }
    ensures reads { Reads S.told halt_cause result (S.seen store.old) (S.seen store.new) }
{
    let found = found_value(alloc, r, store)?;
    if is_value(found, r.expected) {
        return Ok(());
    }
    Err(Halt::Stops(moved(r, found)?))
}

/// Stops at the first ref that has moved.
#[tactic(auto, unfolding(reading::specs::Ending::none_moved))]
pub fn want_none_moved<S: Store>(
    alloc: Global,
    refs: &[EndRef],
    store: &mut S,
) -> Result<(), Halt<Stop>>
    requires { AreEndRefs refs.now }
    ensures gives { S.told → Gives (λ x. x) result (none_moved refs.now (S.seen store.old).content) }
    ensures none { RunsNone result }
    ensures reads { Reads S.told halt_cause result (S.seen store.old) (S.seen store.new) }
{
    let mut rest = refs;
    while let [r, after @ ..] = rest {
        want_unmoved(alloc, r, store)?;
        rest = after;
    }
    Ok(())
}

/// Whether one of the refs lies below this one, or this one below it.
fn is_among_folders(refs: &[EndRef], name: &[u8]) -> bool
    ensures { result ≡ list_any (λ (other : EndRef). is_below other.name name.now || is_below name.now other.name) refs.now }
{
    refs.iter().any(|other| {
        lies_below(other.name.as_slice(), name) || lies_below(name, other.name.as_slice())
    })
}

/// Whether something is in the way of a ref, or another of the refs is.
fn is_unwritable<S: Store>(
    alloc: Global,
    refs: &[EndRef],
    r: &EndRef,
    store: &mut S,
) -> Result<bool, StoreError>
    requires { IsEndRef r.now }
    ensures is { S.told → IfOk result (λ is. is ≡ is_barred (S.seen store.old).content r.now.name || is_among_folders_of refs.now r.now) }
    ensures reads { Reads S.told store_cause result (S.seen store.old) (S.seen store.new) }
{
    let is_barred = has_in_way(alloc, store, r.name.as_slice())?;
    Ok(is_barred || is_among_folders(refs, r.name.as_slice()))
}

fn barred(r: &EndRef) -> Result<Stop, AllocError>
    ensures { IfOk result (λ stop. stop ≡ stop_of_kind (Blocked (BadName r.now.name))) }
{
    let word = r.name.clone()?;
    Ok(stop_of(StopKind::Blocked(Reason::BadName { word })))
}

/// Stops where a ref cannot be written.
fn want_writable<S: Store>(
    alloc: Global,
    refs: &[EndRef],
    r: &EndRef,
    store: &mut S,
) -> Result<(), Halt<Stop>>
    requires { IsEndRef r.now }
    ensures gives { S.told → Gives (λ x. x) result
        (barred_stop (if is_barred (S.seen store.old).content r.now.name || is_among_folders_of refs.now r.now then Some r.now else None)) }
    ensures none { RunsNone result }
    ensures reads { Reads S.told halt_cause result (S.seen store.old) (S.seen store.new) }
{
    if is_unwritable(alloc, refs, r, store)? {
        return Err(Halt::Stops(barred(r)?));
    }
    Ok(())
}

/// Stops at the first ref that cannot be written.
#[tactic(auto, unfolding(reading::specs::Ending::all_writable))]
pub fn want_all_writable<S: Store>(
    alloc: Global,
    refs: &[EndRef],
    store: &mut S,
) -> Result<(), Halt<Stop>>
    requires { AreEndRefs refs.now }
    ensures gives { S.told → Gives (λ x. x) result (all_writable refs.now (S.seen store.old).content) }
    ensures none { RunsNone result }
    ensures reads { Reads S.told halt_cause result (S.seen store.old) (S.seen store.new) }
{
    let mut rest = refs;
    while let [r, after @ ..] = rest {
        want_writable(alloc, refs, r, store)?;
        rest = after;
    }
    Ok(())
}
