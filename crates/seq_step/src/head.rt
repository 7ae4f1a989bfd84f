//! HEAD's commit, and the index, as a line finds them.

ghost use Rattle.std.specs.Prelude.{◌≡◌, IfOk, IsErrOf};
ghost use Rattle.index_file.specs.Entries.{IsInOrder, IsIndex};
ghost use Rattle.index_file.specs.Index.{index_at};
ghost use Rattle.index_file.specs.Reading.{index_of};
ghost use Rattle.line_steps.specs.Heads.{bad_head as bad_head_of, head_found as head_found_at};
ghost use Rattle.line_steps.specs.Heads.{index_found as index_found_at, map_found as map_found_at, or_bad_index};
ghost use Rattle.line_steps.specs.Places.{blocked};
ghost use Rattle.ref_store.specs.Values.{value_at};
ghost use Rattle.ref_text.specs.Refs.{head_name};
ghost use Rattle.seq_model.specs.Refusing.{told_by};
ghost use Rattle.seq_outside.specs.Halts.{Gives, for_reason, halt_cause};
ghost use Rattle.seq_outside.specs.Seen.{Reads};
ghost use Rattle.seq_step.specs.Causes.{RunsNone};

use crate::stop::{blocked_halt, reason_halt};
use index_file::{IndexEntry, IndexFault, parse_index};
use line_steps::Stop;
use path_trees::read_commit_map;
use ref_store::{RefFault, resolve};
use seq_base::{Id, PathMap};
use seq_model::Reason;
use seq_outside::{Halt, LimitWhat, Store};
use std::alloc::Global;

/// The most entries that an index may have.
pub const INDEX_LIMIT: usize = 1_048_576;

fn bad_head(halt: Halt<RefFault>) -> Halt<Reason>
    ensures { result ≡ told_by bad_head_of halt }
{
    match halt {
        Halt::Stops(_fault) => Halt::Stops(Reason::BadHead),
        Halt::Fault => Halt::Fault,
        Halt::Memory => Halt::Memory,
    }
}

/// The value of HEAD, if it has one.
fn head_value<S: Store>(alloc: Global, store: &mut S) -> Result<Option<Id>, Halt<Reason>>
    ensures gives { S.told → Gives (λ value. value) result (for_reason bad_head_of (value_at (S.seen store.old).content head_name)) }
    ensures reads { Reads S.told halt_cause result (S.seen store.old) (S.seen store.new) }
{
    match resolve(alloc, store, b"HEAD") {
        Ok(value) => Ok(value),
        Err(halt) => Err(bad_head(halt)),
    }
}

/// The commit that HEAD is at.
#[tactic(auto, unfolding(line_steps::specs::Heads::head_found))]
pub fn head_found<S: Store>(alloc: Global, store: &mut S) -> Result<Id, Halt<Reason>>
    ensures gives { S.told → Gives (λ id. id) result (head_found_at (S.seen store.old).content) }
    ensures reads { Reads S.told halt_cause result (S.seen store.old) (S.seen store.new) }
{
    match head_value(alloc, store)? {
        Some(id) => Ok(id),
        None => Err(Halt::Stops(Reason::BadHead)),
    }
}

/// The same, for a line that is blocked without it.
pub fn head_or_blocked<S: Store>(alloc: Global, store: &mut S) -> Result<Id, Halt<Stop>>
    ensures gives { S.told → Gives (λ id. id) result (for_reason blocked (head_found_at (S.seen store.old).content)) }
    ensures none { RunsNone result }
    ensures reads { Reads S.told halt_cause result (S.seen store.old) (S.seen store.new) }
{
    match head_found(alloc, store) {
        Ok(id) => Ok(id),
        Err(halt) => Err(blocked_halt(halt)),
    }
}

/// The entries that the text of an index spells.
fn entries_in(alloc: Global, text: &[u8]) -> Result<Vec<IndexEntry>, Halt<Reason>>
    ensures gives { Gives (λ v. v.items) result (or_bad_index (index_of text.now)) }
    ensures order { IfOk result (λ v. IsInOrder v.items) }
    ensures index { IfOk result (λ v. IsIndex v.items) }
    ensures no_fault { IsErrOf result Halt.Fault → ⊥ }
{
    match parse_index(alloc, text) {
        Ok(entries) => Ok(entries),
        Err(IndexFault::Memory) => Err(Halt::Memory),
        Err(_fault) => Err(Halt::Stops(Reason::BadIndex)),
    }
}

/// The entries of the index file, of which a missing one has none.
#[tactic(auto, using(crate::proofs::Indexes::empty_index))]
fn entries_of<S: Store>(alloc: Global, store: &mut S) -> Result<Vec<IndexEntry>, Halt<Reason>>
    ensures gives { S.told → Gives (λ v. v.items) result (or_bad_index (index_at (S.seen store.old).content)) }
    ensures order { IfOk result (λ v. IsInOrder v.items) }
    ensures index { IfOk result (λ v. IsIndex v.items) }
    ensures reads { Reads S.told halt_cause result (S.seen store.old) (S.seen store.new) }
{
    match store.get(alloc, b".git/index")? {
        Some(text) => entries_in(alloc, &text),
        None => Ok(Vec::new(alloc)),
    }
}

/// The entries of the index.
#[tactic(auto, unfolding(line_steps::specs::Heads::index_found))]
pub fn index_found<S: Store>(alloc: Global, store: &mut S) -> Result<Vec<IndexEntry>, Halt<Reason>>
    ensures gives { S.told → Gives (λ v. v.items) result (index_found_at (S.seen store.old).content) }
    ensures order { IfOk result (λ v. IsInOrder v.items) }
    ensures index { IfOk result (λ v. IsIndex v.items) }
    ensures reads { Reads S.told halt_cause result (S.seen store.old) (S.seen store.new) }
{
    let entries = entries_of(alloc, store)?;
    let count = entries.len();
    if count > INDEX_LIMIT {
        return Err(Halt::Stops(Reason::Limit {
            what: LimitWhat::IndexEntries,
            number: count as u64,
        }));
    }
    Ok(entries)
}

/// The map of a commit.
#[tactic(auto, unfolding(line_steps::specs::Heads::map_found))]
pub fn map_found<S: Store>(alloc: Global, id: Id, store: &mut S) -> Result<PathMap, Halt<Reason>>
    ensures gives { S.told → Gives (λ m. m) result (map_found_at (S.seen store.old).content id) }
    ensures reads { Reads S.told halt_cause result (S.seen store.old) (S.seen store.new) }
{
    match read_commit_map(alloc, store, id) {
        Ok(map) => Ok(map),
        Err(halt) => Err(reason_halt(halt)),
    }
}
