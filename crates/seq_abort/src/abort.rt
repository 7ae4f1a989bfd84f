//! A rebase that is given up.

ghost use Rattle.std.specs.Prelude.{◌≡◌, ◌++◌, IfOk, Ok, Some};
ghost use Rattle.index_file.specs.Entries.{IsInOrder};
ghost use Rattle.line_steps.specs.Heads.{head_found as head_found_at, map_found as map_found_at};
ghost use Rattle.line_steps.specs.Places.{reason_of as reason_of_lack};
ghost use Rattle.line_steps.specs.Writing.{reason_of_ref as reason_of_ref_fault};
ghost use Rattle.reading.specs.Aborting.{aborted, aborted_from, back_line as back_line_of, branch_back, branch_line as branch_line_of, files_back, found_before as found_before_at, head_back, head_before as head_before_of};
ghost use Rattle.reading.specs.Aborting.{id_or_none, indexed_at, map_or_none as map_or_none_at, name_before as name_before_of, refs_back, state_cleared, tracked_reset, value_before as value_before_at};
ghost use Rattle.ref_store.specs.Changes.{head_set, value_noted};
ghost use Rattle.ref_text.specs.Heads.{IsHeadValue};
ghost use Rattle.ref_text.specs.Logs.{IsLogValue};
ghost use Rattle.seq_base.specs.RefNames.{IsRefName};
ghost use Rattle.seq_model.specs.Refusing.{told_by};
ghost use Rattle.line_steps.specs.Finding.{map_held as map_held_by};
ghost use Rattle.seq_outside.specs.Halts.{Gives, for_reason, halt_cause};
ghost use Rattle.seq_outside.specs.Seen.{Reads, Writes, store_cause};
ghost use Rattle.seq_outside.specs.Turns.{Turns, saying};
ghost use Rattle.path_trees.specs.Named.{commit_map};
ghost use Rattle.seq_abort.specs.Aborts.{aborted_to};
ghost use Rattle.seq_abort.specs.Causes.{HasAbortCause};
ghost use Rattle.seq_step.specs.Settings.{MayCommit};
ghost use Rattle.state_text.specs.Controls.{IfThere};
ghost use Rattle.worktree.specs.ResetTurns.{reset_to};
ghost use Rattle.std.specs.Prelude.{◌<◌, ◌^◌, length};

use content_merge::IndexEntries;
use index_file::IndexEntry;
use line_steps::Setting;
use path_trees::read_commit_map;
use reading::Before;
use ref_store::{note_value, set_head};
use ref_text::{Head, LogLine};
use seq_base::{Bytes, Id, PathMap};
use seq_lines::{line_for, value_or_none};
use seq_model::Reason;
use seq_outside::{Halt, Lack, Store, StoreError};
use seq_state::clear_state;
use seq_step::{head_found, index_found, map_found, may_have, reason_of, reason_of_ref};
use stage_index::from_map;
use state_text::Verb;
use std::alloc::{AllocError, Global};
use worktree::reset_hard;

// ---- what is found

/// What the branch is at.
fn branch_value<S: Store>(
    alloc: Global,
    name: &Option<Bytes>,
    store: &mut S,
) -> Result<Option<Id>, StoreError>
    requires { IfThere IsRefName name.now }
    ensures value { S.told → IfOk result (λ value. value ≡ value_before_at (S.seen store.old).content name.now) }
    ensures reads { Reads S.told store_cause result (S.seen store.old) (S.seen store.new) }
{
    match name {
        Some(name) => value_or_none(alloc, name.as_slice(), store),
        None => Ok(None),
    }
}

/// HEAD's commit; none where it cannot be read.
fn head_or_none<S: Store>(alloc: Global, store: &mut S) -> Result<Option<Id>, StoreError>
    ensures head { S.told → IfOk result (λ head. head ≡ id_or_none (head_found_at (S.seen store.old).content)) }
    ensures reads { Reads S.told store_cause result (S.seen store.old) (S.seen store.new) }
{
    match head_found(alloc, store) {
        Ok(id) => Ok(Some(id)),
        Err(Halt::Stops(_why)) => Ok(None),
        Err(Halt::Fault) => Err(StoreError::Failed),
        Err(Halt::Memory) => Err(StoreError::Memory),
    }
}

/// The entries of the index; none where it cannot be read.
fn index_or_none<S: Store>(alloc: Global, store: &mut S) -> Result<Vec<IndexEntry>, StoreError>
    ensures entries { S.told → IfOk result (λ v. v.items ≡ indexed_at (S.seen store.old).content) }
    ensures order { IfOk result (λ v. IsInOrder v.items) }
    ensures reads { Reads S.told store_cause result (S.seen store.old) (S.seen store.new) }
{
    match index_found(alloc, store) {
        Ok(entries) => Ok(entries),
        Err(Halt::Stops(_why)) => Ok(Vec::new(alloc)),
        Err(Halt::Fault) => Err(StoreError::Failed),
        Err(Halt::Memory) => Err(StoreError::Memory),
    }
}

/// The map of a commit; none where there is none, or where it cannot be read.
fn map_or_none<S: Store>(
    alloc: Global,
    head: &Option<Id>,
    store: &mut S,
) -> Result<PathMap, StoreError>
    ensures map { S.told → IfOk result (λ m. m ≡ map_or_none_at (S.seen store.old).content head.now) }
    ensures reads { Reads S.told store_cause result (S.seen store.old) (S.seen store.new) }
{
    let Some(head) = head else {
        return Ok(PathMap::new(alloc));
    };
    match map_found(alloc, *head, store) {
        Ok(map) => Ok(map),
        Err(Halt::Stops(_why)) => Ok(PathMap::new(alloc)),
        Err(Halt::Fault) => Err(StoreError::Failed),
        Err(Halt::Memory) => Err(StoreError::Memory),
    }
}

/// What an abort finds, before it changes anything.
fn found_before<S: Store>(
    alloc: Global,
    name: &Option<Bytes>,
    store: &mut S,
) -> Result<Before, StoreError>
    requires { IfThere IsRefName name.now }
    ensures before { S.told → IfOk result (λ before. before ≡ found_before_at name.now (S.seen store.old).content) }
    ensures order { IfOk result (λ before. IsInOrder before.index × IsInOrder before.tracked) }
    ensures reads { Reads S.told store_cause result (S.seen store.old) (S.seen store.new) }
{
    let value = branch_value(alloc, name, store)?;
    let head = head_or_none(alloc, store)?;
    let index = index_or_none(alloc, store)?;
    let map = map_or_none(alloc, &head, store)?;
    let tracked = from_map(alloc, &map)?;
    Ok(Before {
        value,
        head,
        index: IndexEntries::from_vec(index),
        tracked: IndexEntries::from_vec(tracked),
    })
}

// ---- refs

fn lack_halt(halt: Halt<Lack>) -> Halt<Reason>
    ensures { result ≡ told_by reason_of_lack halt }
{
    match halt {
        Halt::Stops(lack) => Halt::Stops(reason_of(lack)),
        Halt::Fault => Halt::Fault,
        Halt::Memory => Halt::Memory,
    }
}

fn message_of(alloc: Global, front: &[u8], rest: &[u8]) -> Result<Bytes, AllocError>
    ensures { IfOk result (λ m. m ≡ front.now ++ rest.now) }
{
    let mut message = front.to_vec(alloc)?;
    message.extend_from_slice(rest)?;
    Ok(Bytes::from_vec(message))
}

#[tactic(auto, using(seq_lines::proofs::Messages::abort_is_message))]
fn branch_line(
    alloc: Global,
    setting: &Setting,
    name: &[u8],
    orig: Id,
    value: Option<Id>,
) -> Result<LogLine, AllocError>
    requires setting { MayCommit setting.now }
    requires name { IsRefName name.now }
    ensures is { IfOk result (λ line. line ≡ branch_line_of setting.now name.now orig value) }
    ensures value { IfOk result IsLogValue }
{
    let message = message_of(alloc, b"rebase (abort): ", name)?;
    line_for(alloc, setting, value, orig, message)
}

/// A branch has the value, and its log the line.
fn note_branch<S: Store>(
    alloc: Global,
    name: &[u8],
    id: Id,
    line: &LogLine,
    store: &mut S,
) -> Result<(), Halt<Reason>>
    requires name { IsRefName name.now }
    requires line { IsLogValue line.now }
    ensures turns { S.told → Turns (λ x. x) result (saying reason_of_ref_fault (value_noted name.now id (Some line.now)) (S.seen store.old).content)
        (S.seen store.new).content }
    ensures writes { Writes S.told halt_cause result (S.seen store.old) (S.seen store.new) }
{
    match note_value(alloc, store, name, id, Some(line)) {
        Ok(()) => Ok(()),
        Err(Halt::Stops(fault)) => Err(Halt::Stops(reason_of_ref(alloc, fault)?)),
        Err(Halt::Fault) => Err(Halt::Fault),
        Err(Halt::Memory) => Err(Halt::Memory),
    }
}

/// The branch is at the old head again, whatever it was at.
fn branch_to<S: Store>(
    alloc: Global,
    setting: &Setting,
    name: &Bytes,
    orig: Id,
    found: &Before,
    store: &mut S,
) -> Result<(), Halt<Reason>>
    requires setting { MayCommit setting.now }
    requires name { IsRefName name.now }
    ensures turns { S.told → Turns (λ x. x) result (branch_back setting.now (Some name.now) orig found.now (S.seen store.old).content)
        (S.seen store.new).content }
    ensures writes { Writes S.told halt_cause result (S.seen store.old) (S.seen store.new) }
{
    let line = branch_line(alloc, setting, name.as_slice(), orig, found.value)?;
    note_branch(alloc, name.as_slice(), orig, &line, store)
}

fn put_branch_back<S: Store>(
    alloc: Global,
    setting: &Setting,
    name: &Option<Bytes>,
    orig: Id,
    found: &Before,
    store: &mut S,
) -> Result<(), Halt<Reason>>
    requires setting { MayCommit setting.now }
    requires name { IfThere IsRefName name.now }
    ensures turns { S.told → Turns (λ x. x) result (branch_back setting.now name.now orig found.now (S.seen store.old).content)
        (S.seen store.new).content }
    ensures writes { Writes S.told halt_cause result (S.seen store.old) (S.seen store.new) }
{
    match name {
        Some(name) => branch_to(alloc, setting, name, orig, found, store),
        None => Ok(()),
    }
}

fn head_before(name: &Option<Bytes>, orig: Id) -> Result<Head, AllocError>
    requires { IfThere IsRefName name.now }
    ensures is { IfOk result (λ head. head ≡ head_before_of name.now orig) }
    ensures value { IfOk result IsHeadValue }
{
    match name {
        Some(name) => Ok(Head::Branch(name.clone()?)),
        None => Ok(Head::Detached(orig)),
    }
}

fn name_before(alloc: Global, name: &Option<Bytes>, orig: Id) -> Result<Bytes, AllocError>
    ensures { IfOk result (λ text. text ≡ name_before_of name.now orig) }
{
    match name {
        Some(name) => name.clone(),
        None => Ok(Bytes::from_vec(orig.hex(alloc)?)),
    }
}

#[tactic(auto, using(seq_lines::proofs::Messages::back_is_message))]
fn back_line(
    alloc: Global,
    setting: &Setting,
    name: &Option<Bytes>,
    orig: Id,
    found: &Before,
) -> Result<LogLine, AllocError>
    requires setting { MayCommit setting.now }
    requires name { IfThere IsRefName name.now }
    ensures is { IfOk result (λ line. line ≡ back_line_of setting.now name.now orig found.now) }
    ensures value { IfOk result IsLogValue }
{
    let rest = name_before(alloc, name, orig)?;
    let message = message_of(alloc, b"rebase (abort): returning to ", rest.as_slice())?;
    line_for(alloc, setting, found.head, orig, message)
}

/// HEAD is written, and the line into its log.
fn write_head<S: Store>(
    alloc: Global,
    head: &Head,
    line: &LogLine,
    store: &mut S,
) -> Result<(), Halt<Reason>>
    requires head { IsHeadValue head.now }
    requires line { IsLogValue line.now }
    ensures turns { S.told → Turns (λ x. x) result (saying reason_of_ref_fault (head_set head.now line.now) (S.seen store.old).content)
        (S.seen store.new).content }
    ensures writes { Writes S.told halt_cause result (S.seen store.old) (S.seen store.new) }
{
    match set_head(alloc, store, head, line) {
        Ok(()) => Ok(()),
        Err(Halt::Stops(fault)) => Err(Halt::Stops(reason_of_ref(alloc, fault)?)),
        Err(Halt::Fault) => Err(Halt::Fault),
        Err(Halt::Memory) => Err(Halt::Memory),
    }
}

/// HEAD goes back, too.
fn put_head_back<S: Store>(
    alloc: Global,
    setting: &Setting,
    name: &Option<Bytes>,
    orig: Id,
    found: &Before,
    store: &mut S,
) -> Result<(), Halt<Reason>>
    requires setting { MayCommit setting.now }
    requires name { IfThere IsRefName name.now }
    ensures turns { S.told → Turns (λ x. x) result (head_back setting.now name.now orig found.now (S.seen store.old).content)
        (S.seen store.new).content }
    ensures writes { Writes S.told halt_cause result (S.seen store.old) (S.seen store.new) }
{
    let head = head_before(name, orig)?;
    let line = back_line(alloc, setting, name, orig, found)?;
    write_head(alloc, &head, &line, store)
}

#[tactic(auto, unfolding(reading::specs::Aborting::refs_back))]
fn put_refs_back<S: Store>(
    alloc: Global,
    setting: &Setting,
    name: &Option<Bytes>,
    orig: Id,
    found: &Before,
    store: &mut S,
) -> Result<(), Halt<Reason>>
    requires setting { MayCommit setting.now }
    requires name { IfThere IsRefName name.now }
    ensures turns { S.told → Turns (λ x. x) result (refs_back setting.now name.now orig found.now (S.seen store.old).content)
        (S.seen store.new).content }
    ensures writes { Writes S.told halt_cause result (S.seen store.old) (S.seen store.new) }
{
    put_branch_back(alloc, setting, name, orig, found, store)?;
    put_head_back(alloc, setting, name, orig, found, store)
}

// ---- index and files

/// The map of a commit, which an index can hold.
#[tactic(auto, unfolding(line_steps::specs::Finding::map_held))]
fn held_map<S: Store>(alloc: Global, id: Id, store: &mut S) -> Result<PathMap, Halt<Lack>>
    ensures gives { S.told → Gives (λ m. m) result (map_held_by id (S.seen store.old).content) }
    ensures map { S.told → IfOk result (λ m. commit_map (S.seen store.old).content id ≡ Ok m) }
    ensures few { IfOk result (λ m. length m < 2 ^ 32) }
    ensures reads { Reads S.told halt_cause result (S.seen store.old) (S.seen store.new) }
{
    let map = read_commit_map(alloc, store, id)?;
    may_have(map.len())?;
    Ok(map)
}

/// The map to go back to.
#[tactic(auto, unfolding(line_steps::specs::Heads::map_found))]
fn old_map<S: Store>(alloc: Global, orig: Id, store: &mut S) -> Result<PathMap, Halt<Reason>>
    ensures gives { S.told → Gives (λ m. m) result (for_reason reason_of_lack (map_held_by orig (S.seen store.old).content)) }
    ensures map { S.told → IfOk result (λ m. map_found_at (S.seen store.old).content orig ≡ Ok m) }
    ensures few { IfOk result (λ m. length m < 2 ^ 32) }
    ensures reads { Reads S.told halt_cause result (S.seen store.old) (S.seen store.new) }
{
    match held_map(alloc, orig, store) {
        Ok(map) => Ok(map),
        Err(halt) => Err(lack_halt(halt)),
    }
}

fn reset_over<S: Store>(
    alloc: Global,
    from: &[IndexEntry],
    old: &PathMap,
    store: &mut S,
) -> Result<(), Halt<Reason>>
    requires order { IsInOrder from.now }
    requires few { length old.now < 2 ^ 32 }
    ensures turns { S.told → Turns (λ x. x) result (saying reason_of_lack (reset_to from.now old.now) (S.seen store.old).content) (S.seen store.new).content }
    ensures writes { Writes S.told halt_cause result (S.seen store.old) (S.seen store.new) }
{
    match reset_hard(alloc, store, from, old) {
        Ok(()) => Ok(()),
        Err(halt) => Err(lack_halt(halt)),
    }
}

/// Index and files are those of a map, over the paths of both.
#[tactic(auto, unfolding(reading::specs::Aborting::tracked_reset))]
fn reset_tracked<S: Store>(
    alloc: Global,
    found: &Before,
    old: &PathMap,
    store: &mut S,
) -> Result<(), Halt<Reason>>
    requires index { IsInOrder found.now.index }
    requires tracked { IsInOrder found.now.tracked }
    requires few { length old.now < 2 ^ 32 }
    ensures turns { S.told → Turns (λ x. x) result (tracked_reset found.now old.now (S.seen store.old).content) (S.seen store.new).content }
    ensures writes { Writes S.told halt_cause result (S.seen store.old) (S.seen store.new) }
{
    reset_over(alloc, found.index.as_slice(), old, store)?;
    reset_over(alloc, found.tracked.as_slice(), old, store)
}

/// Nothing of the list's state is left.
fn clear<S: Store>(alloc: Global, store: &mut S) -> Result<(), Halt<Reason>>
    ensures turns { S.told → Turns (λ x. x) result (state_cleared (S.seen store.old).content) (S.seen store.new).content }
    ensures cause { HasAbortCause S.told result (S.seen store.old) (S.seen store.new) }
{
    clear_state(alloc, Verb::Rebase, store)?;
    Ok(())
}

/// Index and files are those of the old head, and nothing of the list's state is left.
#[tactic(auto, unfolding(reading::specs::Aborting::files_back))]
fn put_files_back<S: Store>(
    alloc: Global,
    found: &Before,
    old: &PathMap,
    store: &mut S,
) -> Result<(), Halt<Reason>>
    requires index { IsInOrder found.now.index }
    requires tracked { IsInOrder found.now.tracked }
    requires few { length old.now < 2 ^ 32 }
    ensures turns { S.told → Turns (λ x. x) result (files_back found.now old.now (S.seen store.old).content) (S.seen store.new).content }
    ensures cause { HasAbortCause S.told result (S.seen store.old) (S.seen store.new) }
{
    reset_tracked(alloc, found, old, store)?;
    clear(alloc, store)
}

/// Branch, HEAD, index and files are as before the start, by what was found.
#[tactic(auto, unfolding(reading::specs::Aborting::aborted_from))]
fn go_back_from<S: Store>(
    alloc: Global,
    setting: &Setting,
    name: &Option<Bytes>,
    orig: Id,
    old: &PathMap,
    found: &Before,
    store: &mut S,
) -> Result<(), Halt<Reason>>
    requires setting { MayCommit setting.now }
    requires name { IfThere IsRefName name.now }
    requires few { length old.now < 2 ^ 32 }
    requires map { S.told → map_found_at (S.seen store.old).content orig ≡ Ok old.now }
    requires index { IsInOrder found.now.index }
    requires tracked { IsInOrder found.now.tracked }
    ensures turns { S.told → Turns (λ x. x) result (aborted_from setting.now name.now orig found.now (S.seen store.old).content)
        (S.seen store.new).content }
    ensures cause { HasAbortCause S.told result (S.seen store.old) (S.seen store.new) }
{
    put_refs_back(alloc, setting, name, orig, found, store)?;
    put_files_back(alloc, found, old, store)
}

/// The same, whatever is found.
#[tactic(auto, unfolding(reading::specs::Aborting::aborted))]
fn go_back<S: Store>(
    alloc: Global,
    setting: &Setting,
    name: &Option<Bytes>,
    orig: Id,
    old: &PathMap,
    store: &mut S,
) -> Result<(), Halt<Reason>>
    requires setting { MayCommit setting.now }
    requires name { IfThere IsRefName name.now }
    requires few { length old.now < 2 ^ 32 }
    requires map { S.told → map_found_at (S.seen store.old).content orig ≡ Ok old.now }
    ensures turns { S.told → Turns (λ x. x) result (aborted setting.now name.now orig (S.seen store.old).content) (S.seen store.new).content }
    ensures cause { HasAbortCause S.told result (S.seen store.old) (S.seen store.new) }
{
    let found = found_before(alloc, name, store)?;
    go_back_from(alloc, setting, name, orig, old, &found, store)
}

/// A rebase of this branch, which was at that commit, is given up: branch, HEAD, index and files are as before its start, and nothing of its state is
/// left (git-rebase(1), "--abort").
#[tactic(auto, unfolding(crate::specs::Aborts::aborted_to))]
pub fn abort_list<S: Store>(
    alloc: Global,
    setting: &Setting,
    name: &Option<Bytes>,
    orig: Id,
    store: &mut S,
) -> Result<(), Halt<Reason>>
    requires setting { MayCommit setting.now }
    requires name { IfThere IsRefName name.now }
    ensures turns { S.told → Turns (λ x. x) result (aborted_to setting.now name.now orig (S.seen store.old).content) (S.seen store.new).content }
    ensures cause { HasAbortCause S.told result (S.seen store.old) (S.seen store.new) }
{
    let old = old_map(alloc, orig, store)?;
    go_back(alloc, setting, name, orig, &old, store)
}
