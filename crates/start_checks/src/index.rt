//! The index.

ghost use Rattle.std.specs.Prelude.{◌≡◌, IfOk, IsErrOf, not};
ghost use Rattle.std.specs.List.{find};
ghost use Rattle.std.specs.Option.{option_map};
ghost use Rattle.index_file.specs.Entries.{IsIndex};
ghost use Rattle.index_file.specs.Index.{index_at};
ghost use Rattle.index_file.specs.Reading.{index_of};
ghost use Rattle.seq_model.specs.Basis.{index_named, or_bad_index, unmerged as unmerged_of};
ghost use Rattle.seq_model.specs.Refusing.{refuse_found};
ghost use Rattle.seq_outside.specs.Seen.{Reads};
ghost use Rattle.seq_outside.specs.Halts.{Gives, halt_cause};
ghost use Rattle.stage_index.specs.Stages.{is_merged};

use index_file::{IndexEntry, IndexFault, parse_index};
use seq_base::Bytes;
use seq_model::{Denial, LimitWhat, Refusal, refused};
use seq_outside::{Halt, Store};
use std::alloc::Global;

/// The most entries that an index may have.
pub const INDEX_LIMIT: usize = 1_048_576;

/// The entries that the text of an index spells.
fn entries_in(alloc: Global, text: &[u8]) -> Result<Vec<IndexEntry>, Halt<Denial>>
    ensures gives { Gives (λ v. v.items) result (or_bad_index (index_of text.now)) }
    ensures index { IfOk result (λ v. IsIndex v.items) }
    ensures no_fault { IsErrOf result Halt.Fault → ⊥ }
{
    match parse_index(alloc, text) {
        Ok(entries) => Ok(entries),
        Err(IndexFault::Memory) => Err(Halt::Memory),
        Err(fault) => Err(refused(Refusal::BadIndex { fault })),
    }
}

/// The entries of the index file, of which a missing one has none.
#[tactic(auto, using(crate::proofs::Indexes::empty_index))]
fn entries_of<S: Store>(alloc: Global, store: &mut S) -> Result<Vec<IndexEntry>, Halt<Denial>>
    ensures gives { S.told → Gives (λ v. v.items) result (or_bad_index (index_at (S.seen store.old).content)) }
    ensures index { IfOk result (λ v. IsIndex v.items) }
    ensures reads { Reads S.told halt_cause result (S.seen store.old) (S.seen store.new) }
{
    match store.get(alloc, b".git/index")? {
        Some(text) => entries_in(alloc, &text),
        None => Ok(Vec::new(alloc)),
    }
}

/// The entries of the index (gitformat-index(5)); a missing file has none. BadIndex with its first fault; Limit where it has too many.
#[tactic(auto, unfolding(seq_model::specs::Basis::index_named))]
pub fn read_index<S: Store>(alloc: Global, store: &mut S) -> Result<Vec<IndexEntry>, Halt<Denial>>
    ensures gives { S.told → Gives (λ v. v.items) result (index_named (S.seen store.old).content) }
    ensures index { IfOk result (λ v. IsIndex v.items) }
    ensures reads { Reads S.told halt_cause result (S.seen store.old) (S.seen store.new) }
{
    let entries = entries_of(alloc, store)?;
    let count = entries.len();
    if count > INDEX_LIMIT {
        return Err(Halt::Stops(Denial::Limit {
            what: LimitWhat::IndexEntries,
            number: count as u64,
        }));
    }
    Ok(entries)
}

/// The first entry that is not merged.
fn unmerged(entries: &[IndexEntry]) -> Option<&IndexEntry>
    ensures { option_map (λ e. e.now) result ≡ find (λ e. not (is_merged e)) entries.now }
{
    entries.iter().find(|entry| entry.stage != 0)
}

/// Unmerged with the first path that is not merged, which is the least (git-ls-files(1), `--unmerged`).
#[tactic(auto, unfolding(seq_model::specs::Basis::unmerged))]
pub fn want_merged(alloc: Global, entries: &[IndexEntry]) -> Result<(), Halt<Denial>>
    ensures gives { Gives (λ x. x) result (refuse_found (unmerged_of entries.now) Refusal.Unmerged) }
    ensures no_fault { IsErrOf result Halt.Fault → ⊥ }
{
    match unmerged(entries) {
        Some(entry) => {
            let path = Bytes::from_vec(entry.path.bytes().to_vec(alloc)?);
            Err(refused(Refusal::Unmerged { path }))
        }
        None => Ok(()),
    }
}
