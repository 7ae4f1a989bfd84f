//! The index with a file more or less, and how it is written.

ghost use Rattle.std.specs.List.{AllByRecursion, find};
ghost use Rattle.std.specs.Option.{option_map};
ghost use Rattle.std.specs.Prelude.{◌≡◌, IfOk, IsErrOf, OnOk, codes};
ghost use Rattle.index_file.specs.Entries.{IsInOrder, IsIndex, IsStaged};
ghost use Rattle.index_file.specs.Spelling.{index_text as text_of_index};
ghost use Rattle.seq_model.specs.Changes.{Changes};
ghost use Rattle.seq_model.specs.Refusing.{denied_put};
ghost use Rattle.seq_outside.specs.Halts.{Gives, halt_cause};
ghost use Rattle.seq_outside.specs.Seen.{Writes};
ghost use Rattle.seq_outside.specs.Turns.{Turns, put_in, saying};
ghost use Rattle.seq_plumb.specs.Indexing.{clashes as clashes_with, fits_limit, index_put, is_ours as is_ours_at, mode_at as mode_in, with_file, with_merged, without_clashes};
ghost use Rattle.stage_index.specs.Staged.{others_of};

use index_file::{IndexEntry, index_text};
use seq_base::{Entry, Id, Mode, Path, lies_below};
use seq_model::{Denial, LimitWhat, Refusal, refused};
use seq_outside::{Halt, Store, StoreError};
use stage_index::set_stages;
use start_checks::INDEX_LIMIT;
use std::alloc::{AllocError, Global};

fn is_ours(path: &[u8], entry: &IndexEntry) -> bool
    ensures { result ≡ is_ours_at path.now entry.now }
{
    entry.path.bytes() == path && (entry.stage == 0 || entry.stage == 2)
}

fn our_entry<'a>(index: &'a [IndexEntry], path: &[u8]) -> Option<&'a IndexEntry>
    ensures { option_map (λ e. e.now) result ≡ find (is_ours_at path.now) index.now }
{
    index.iter().find(|entry| is_ours(path, *entry))
}

/// The mode that a path has at stage 0 or 2, and else that of a file that is not executable.
fn mode_at(index: &[IndexEntry], path: &[u8]) -> Mode
    ensures { result ≡ mode_in index.now path.now }
{
    match our_entry(index, path) {
        Some(entry) => entry.mode,
        None => Mode::File,
    }
}

fn clashes(path: &[u8], entry: &IndexEntry) -> bool
    ensures { result ≡ clashes_with path.now entry.now }
{
    entry.stage == 0
        && (lies_below(entry.path.bytes(), path) || lies_below(path, entry.path.bytes()))
}

fn drop_clashes(index: &mut Vec<IndexEntry>, path: &Path)
    ensures { index.new.items ≡ without_clashes index.old.items path.now }
{
    index.retain(|entry| !clashes(path.bytes(), entry));
}

pub fn drop_path(index: &mut Vec<IndexEntry>, path: &Path)
    ensures others { index.new.items ≡ others_of index.old.items path.now }
    ensures order { IsInOrder index.old.items → IsInOrder index.new.items }
    ensures staged { AllByRecursion IsStaged index.old.items → AllByRecursion IsStaged index.new.items }
{
    index.retain(|entry| entry.path.bytes() != path.bytes());
}

fn set_merged(
    alloc: Global,
    index: &mut Vec<IndexEntry>,
    path: &Path,
    entry: Entry,
) -> Result<(), AllocError>
    ensures { OnOk result (index.new.items ≡ with_merged index.old.items path.now entry) }
{
    drop_clashes(index, path);
    set_stages(alloc, index, path, [Some(entry), None, None, None])
}

/// Gives a path the blob of its file, or no entry where no file is there.
pub fn set_file(
    alloc: Global,
    index: &mut Vec<IndexEntry>,
    path: &Path,
    blob: Option<Id>,
) -> Result<(), AllocError>
    ensures { OnOk result (index.new.items ≡ with_file index.old.items path.now blob) }
{
    match blob {
        Some(id) => {
            let mode = mode_at(index, path.bytes());
            set_merged(alloc, index, path, Entry { mode, id })
        }
        None => {
            drop_path(index, path);
            Ok(())
        }
    }
}

#[tactic(auto, unfolding(crate::specs::Indexing::fits_limit))]
fn want_fitting(index: &[IndexEntry]) -> Result<(), Halt<Denial>>
    ensures gives { Gives (λ x. x) result (fits_limit index.now) }
    ensures index { OnOk result (IsInOrder index.now → AllByRecursion IsStaged index.now → IsIndex index.now) }
    ensures no_fault { IsErrOf result Halt.Fault → ⊥ }
{
    let count = index.len();
    if count > INDEX_LIMIT {
        return Err(Halt::Stops(Denial::Limit {
            what: LimitWhat::IndexEntries,
            number: count as u64,
        }));
    }
    Ok(())
}

#[tactic(auto, unfolding(seq_outside::specs::Turns::put_in), using(seq_model::proofs::Owning::index_owned))]
fn put_index<S: Store>(
    alloc: Global,
    index: &[IndexEntry],
    store: &mut S,
) -> Result<(), Halt<Denial>>
    requires { IsIndex index.now }
    ensures turns { S.told → Turns (λ x. x) result
        (saying denied_put (put_in (codes ".git/index") (text_of_index index.now)) (S.seen store.old).content)
        (S.seen store.new).content }
    ensures owns { S.told → Changes (S.seen store.old).content (S.seen store.new).content }
    ensures writes { Writes S.told halt_cause result (S.seen store.old) (S.seen store.new) }
{
    let text = index_text(alloc, index)?;
    match store.put(alloc, b".git/index", &text) {
        Ok(()) => Ok(()),
        Err(StoreError::Blocked) => Err(refused(Refusal::NotBuilt)),
        Err(StoreError::Failed) => Err(Halt::Fault),
        Err(StoreError::Memory) => Err(Halt::Memory),
    }
}

/// Writes an index (gitformat-index(5)). Limit where it has too many entries to be read again.
#[tactic(auto, unfolding(crate::specs::Indexing::index_put))]
pub fn write_index<S: Store>(
    alloc: Global,
    index: &[IndexEntry],
    store: &mut S,
) -> Result<(), Halt<Denial>>
    requires order { IsInOrder index.now }
    requires staged { AllByRecursion IsStaged index.now }
    ensures turns { S.told → Turns (λ x. x) result (index_put index.now (S.seen store.old).content) (S.seen store.new).content }
    ensures owns { S.told → Changes (S.seen store.old).content (S.seen store.new).content }
    ensures writes { Writes S.told halt_cause result (S.seen store.old) (S.seen store.new) }
{
    want_fitting(index)?;
    put_index(alloc, index, store)
}
