//! What a start looks at again before it writes.

ghost use Rattle.std.specs.Prelude.{◌≡◌, ◌&&◌, IfOk, IsErrOf};
ghost use Rattle.index_file.specs.Entries.{IsInOrder, IsIndex};
ghost use Rattle.path_trees.specs.Named.{commit_map as commit_map_of};
ghost use Rattle.reading.specs.Looking.{files_unchanged, head_denied, head_unmoved, index_unchanged, is_on as is_on_head, unchanged};
ghost use Rattle.reading.specs.Looking.{is_unmoved as is_unmoved_from, may_begin, may_switch as may_switch_to, place_again};
ghost use Rattle.ref_store.specs.Values.{head_at, value_at};
ghost use Rattle.ref_text.specs.Refs.{head_name};
ghost use Rattle.seq_model.specs.Refusing.{denied_file, told_by};
ghost use Rattle.seq_outside.specs.Halts.{Gives, for_reason, halt_cause};
ghost use Rattle.seq_outside.specs.Seen.{Reads};

use index_file::IndexEntry;
use ref_store::{RefFault, head, resolve};
use ref_text::Head;
use seq_base::{Bytes, Id, PathMap};
use seq_model::{Denial, Place, Refusal, refused};
use seq_outside::{Halt, Lack, Store};
use seq_pick::clean_map;
use seq_step::stop_unfit;
use start_checks::{born, commit_map, file_halt, read_index, want_merged};
use state_text::Control;
use std::alloc::Global;
use worktree::clear_writes;

// ---- where a child has run

/// Whatever is at fault, HEAD is bad.
fn bad_head(halt: Halt<RefFault>) -> Halt<Denial>
    ensures { result ≡ told_by head_denied halt }
{
    match halt {
        Halt::Stops(_fault) => refused(Refusal::BadHead),
        Halt::Fault => Halt::Fault,
        Halt::Memory => Halt::Memory,
    }
}

fn head_again<S: Store>(alloc: Global, store: &mut S) -> Result<Head, Halt<Denial>>
    ensures gives { S.told → Gives (λ head. head) result (for_reason head_denied (head_at (S.seen store.old).content)) }
    ensures reads { Reads S.told halt_cause result (S.seen store.old) (S.seen store.new) }
{
    match head(alloc, store) {
        Ok(head) => Ok(head),
        Err(halt) => Err(bad_head(halt)),
    }
}

fn tip_again<S: Store>(alloc: Global, store: &mut S) -> Result<Option<Id>, Halt<Denial>>
    ensures gives { S.told → Gives (λ tip. tip) result (for_reason head_denied (value_at (S.seen store.old).content head_name)) }
    ensures reads { Reads S.told halt_cause result (S.seen store.old) (S.seen store.new) }
{
    match resolve(alloc, store, b"HEAD") {
        Ok(tip) => Ok(tip),
        Err(halt) => Err(bad_head(halt)),
    }
}

/// HEAD, and the commit that it is at.
#[tactic(auto, unfolding(reading::specs::Looking::place_again))]
fn look_at_head<S: Store>(alloc: Global, store: &mut S) -> Result<Place, Halt<Denial>>
    ensures gives { S.told → Gives (λ place. place) result (place_again (S.seen store.old).content) }
    ensures reads { Reads S.told halt_cause result (S.seen store.old) (S.seen store.new) }
{
    let head = head_again(alloc, store)?;
    let tip = tip_again(alloc, store)?;
    Ok(Place { head, tip })
}

/// Whether HEAD is on the branch that is rebased, or detached where none is.
fn is_on(name: &Option<Bytes>, head: &Head) -> bool
    ensures { result ≡ is_on_head name.now head.now }
{
    match (name, head) {
        (None, Head::Detached(_)) => true,
        (Some(name), Head::Branch(other)) => name.as_slice() == other.as_slice(),
        (None, Head::Branch(_)) | (Some(_), Head::Detached(_)) => false,
    }
}

fn is_unmoved(control: &Control, head: Id, on: &Head) -> bool
    ensures { result ≡ is_unmoved_from control.now head on.now }
{
    head.bytes() == control.orig.bytes() && is_on(&control.head_name, on)
}

/// Stops where HEAD is not where it was.
#[tactic(auto, unfolding(reading::specs::Looking::head_unmoved))]
fn want_unmoved<S: Store>(
    alloc: Global,
    control: &Control,
    store: &mut S,
) -> Result<(), Halt<Denial>>
    ensures gives { S.told → Gives (λ x. x) result (head_unmoved control.now (S.seen store.old).content) }
    ensures reads { Reads S.told halt_cause result (S.seen store.old) (S.seen store.new) }
{
    let place = look_at_head(alloc, store)?;
    let head = born(place.tip)?;
    if is_unmoved(control, head, &place.head) {
        return Ok(());
    }
    Err(refused(Refusal::HeadMoved { found: Some(head) }))
}

#[tactic(auto, unfolding(reading::specs::Looking::index_unchanged))]
fn want_same_index<S: Store>(
    alloc: Global,
    control: &Control,
    index: &[IndexEntry],
    store: &mut S,
) -> Result<(), Halt<Denial>>
    requires { IsInOrder index.now }
    ensures gives { S.told → Gives (λ x. x) result (index_unchanged control.now index.now (S.seen store.old).content) }
    ensures reads { Reads S.told halt_cause result (S.seen store.old) (S.seen store.new) }
{
    want_merged(alloc, index)?;
    let _ours = clean_map(alloc, control.orig, index, store)?;
    Ok(())
}

/// Stops where index and files are not those of the old head.
#[tactic(auto, unfolding(reading::specs::Looking::files_unchanged))]
fn want_same_files<S: Store>(
    alloc: Global,
    control: &Control,
    store: &mut S,
) -> Result<(), Halt<Denial>>
    ensures gives { S.told → Gives (λ x. x) result (files_unchanged control.now (S.seen store.old).content) }
    ensures reads { Reads S.told halt_cause result (S.seen store.old) (S.seen store.new) }
{
    let index = read_index(alloc, store)?;
    want_same_index(alloc, control, &index, store)
}

/// Stops where HEAD, index or files are not as they were.
#[tactic(auto, unfolding(reading::specs::Looking::unchanged))]
pub fn want_unchanged<S: Store>(
    alloc: Global,
    control: &Control,
    store: &mut S,
) -> Result<(), Halt<Denial>>
    ensures gives { S.told → Gives (λ x. x) result (unchanged control.now (S.seen store.old).content) }
    ensures reads { Reads S.told halt_cause result (S.seen store.old) (S.seen store.new) }
{
    want_unmoved(alloc, control, store)?;
    want_same_files(alloc, control, store)
}

// ---- the switch to onto

/// Stops where an untracked file is in the way of a switch, or a blob that it writes cannot be read.
#[tactic(auto, unfolding(reading::specs::Looking::may_switch))]
fn may_switch<S: Store>(
    alloc: Global,
    index: &[IndexEntry],
    map: &PathMap,
    store: &mut S,
) -> Result<(), Halt<Lack>>
    requires { IsInOrder index.now }
    ensures gives { S.told → Gives (λ x. x) result (may_switch_to index.now map.now (S.seen store.old).content) }
    ensures reads { Reads S.told halt_cause result (S.seen store.old) (S.seen store.new) }
{
    stop_unfit(alloc, index, map, store)?;
    let _writes = clear_writes(alloc, store, index, map)?;
    Ok(())
}

fn want_way<S: Store>(
    alloc: Global,
    index: &[IndexEntry],
    map: &PathMap,
    store: &mut S,
) -> Result<(), Halt<Denial>>
    requires { IsInOrder index.now }
    ensures gives { S.told → Gives (λ x. x) result (for_reason denied_file (may_switch_to index.now map.now (S.seen store.old).content)) }
    ensures reads { Reads S.told halt_cause result (S.seen store.old) (S.seen store.new) }
{
    match may_switch(alloc, index, map, store) {
        Ok(()) => Ok(()),
        Err(halt) => Err(file_halt(halt)),
    }
}

/// Stops where something is in the way of a start.
#[tactic(auto, unfolding(reading::specs::Looking::may_begin))]
pub fn want_clear_way<S: Store>(
    alloc: Global,
    control: &Control,
    store: &mut S,
) -> Result<(), Halt<Denial>>
    ensures gives { S.told → Gives (λ x. x) result (may_begin control.now (S.seen store.old).content) }
    ensures reads { Reads S.told halt_cause result (S.seen store.old) (S.seen store.new) }
{
    let index = read_index(alloc, store)?;
    let onto = commit_map(alloc, control.onto, store)?;
    want_way(alloc, &index, &onto, store)
}
