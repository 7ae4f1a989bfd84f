//! Whether index and files are those of a commit.

ghost use Rattle.std.specs.Prelude.{◌≡◌, ◌++◌, ◌∷◌, [], IfOk, IsErrOf, Some, not};
ghost use Rattle.std.specs.List.{find};
ghost use Rattle.std.specs.Option.{option_map, option_to_list};
ghost use Rattle.index_file.specs.Entries.{IsInOrder};
ghost use Rattle.line_steps.specs.Heads.{clean_at as clean_at_of};
ghost use Rattle.line_steps.specs.declared.unclean.Unclean.TheVariants.{IsChanged, IsUnread};
ghost use Rattle.line_steps.specs.Heads.{index_found as index_found_at, map_found as map_found_at, unchanged_at};
ghost use Rattle.seq_model.specs.Basis.{unmerged as unmerged_of};
ghost use Rattle.seq_model.specs.Refusing.{told_by};
ghost use Rattle.seq_outside.specs.Halts.{Gives, for_reason, halt_cause, stop_found};
ghost use Rattle.seq_outside.specs.Seen.{Reads, store_cause};
ghost use Rattle.stage_index.specs.Changes.{dirty};
ghost use Rattle.stage_index.specs.Least.{least};
ghost use Rattle.stage_index.specs.Stages.{is_merged};

use crate::head::{index_found, map_found};
use index_file::IndexEntry;
use line_steps::Unclean;
use seq_base::{Bytes, Id, Path, PathMap, comes_before};
use seq_model::Reason;
use seq_outside::{Halt, Store, StoreError};
use stage_index::staged_path;
use std::alloc::{AllocError, Global};
use worktree::first_change;

fn unread(halt: Halt<Reason>) -> Halt<Unclean>
    ensures { result ≡ told_by IsUnread halt }
{
    match halt {
        Halt::Stops(why) => Halt::Stops(Unclean::IsUnread(why)),
        Halt::Fault => Halt::Fault,
        Halt::Memory => Halt::Memory,
    }
}

fn index<S: Store>(alloc: Global, store: &mut S) -> Result<Vec<IndexEntry>, Halt<Unclean>>
    ensures gives { S.told → Gives (λ v. v.items) result (for_reason IsUnread (index_found_at (S.seen store.old).content)) }
    ensures order { IfOk result (λ v. IsInOrder v.items) }
    ensures reads { Reads S.told halt_cause result (S.seen store.old) (S.seen store.new) }
{
    match index_found(alloc, store) {
        Ok(entries) => Ok(entries),
        Err(halt) => Err(unread(halt)),
    }
}

fn map<S: Store>(alloc: Global, id: Id, store: &mut S) -> Result<PathMap, Halt<Unclean>>
    ensures gives { S.told → Gives (λ m. m) result (for_reason IsUnread (map_found_at (S.seen store.old).content id)) }
    ensures reads { Reads S.told halt_cause result (S.seen store.old) (S.seen store.new) }
{
    match map_found(alloc, id, store) {
        Ok(map) => Ok(map),
        Err(halt) => Err(unread(halt)),
    }
}

/// The first entry that is not merged.
fn unmerged(entries: &[IndexEntry]) -> Option<&IndexEntry>
    ensures { option_map (λ e. e.now) result ≡ find (λ e. not (is_merged e)) entries.now }
{
    entries.iter().find(|entry| entry.stage != 0)
}

/// Stops where an entry is not merged.
#[tactic(auto, unfolding(seq_model::specs::Basis::unmerged))]
fn stop_unmerged(alloc: Global, entries: &[IndexEntry]) -> Result<(), Halt<Unclean>>
    ensures gives { Gives (λ x. x) result (stop_found (unmerged_of entries.now) IsChanged) }
    ensures no_fault { IsErrOf result Halt.Fault → ⊥ }
{
    match unmerged(entries) {
        Some(entry) => {
            let path = Bytes::from_vec(entry.path.bytes().to_vec(alloc)?);
            Err(Halt::Stops(Unclean::IsChanged(path)))
        }
        None => Ok(()),
    }
}

fn copy_of_any(path: Option<&Path>) -> Result<Option<Path>, AllocError>
    ensures { IfOk result (λ copy. copy ≡ option_map (λ path. path.now) path.entry) }
{
    match path {
        Some(path) => Ok(Some(path.copy()?)),
        None => Ok(None),
    }
}

#[tactic(auto, using(crate::proofs::Least::least_of_two))]
fn lesser_of(first: Path, other: &Path) -> Result<Path, AllocError>
    ensures { IfOk result (λ path. least (first ∷ other.now ∷ []) ≡ Some path) }
{
    if comes_before(other.bytes(), first.bytes()) {
        other.copy()
    } else {
        Ok(first)
    }
}

/// The least of two paths, each of which may be missing.
#[tactic(auto, using(crate::proofs::Least::least_of_one))]
fn least_of(first: Option<Path>, other: Option<Path>) -> Result<Option<Path>, AllocError>
    ensures { IfOk result (λ found. found ≡ least (option_to_list first ++ option_to_list other)) }
{
    match first {
        None => Ok(other),
        Some(first) => match other {
            None => Ok(Some(first)),
            Some(other) => Ok(Some(lesser_of(first, &other)?)),
        },
    }
}

/// The least path that is changed or staged.
fn first_dirty<S: Store>(
    alloc: Global,
    index: &[IndexEntry],
    head: &PathMap,
    store: &mut S,
) -> Result<Option<Path>, StoreError>
    requires { IsInOrder index.now }
    ensures found { S.told → IfOk result (λ found. found ≡ dirty (S.seen store.old).content index.now head.now) }
    ensures reads { Reads S.told store_cause result (S.seen store.old) (S.seen store.new) }
{
    let changed = first_change(alloc, store, index)?;
    let staged = copy_of_any(staged_path(index, head))?;
    Ok(least_of(changed, staged)?)
}

/// Stops where the index or a file is not as a map has it.
fn stop_dirty<S: Store>(
    alloc: Global,
    index: &[IndexEntry],
    head: &PathMap,
    store: &mut S,
) -> Result<(), Halt<Unclean>>
    requires { IsInOrder index.now }
    ensures gives { S.told → Gives (λ x. x) result (stop_found (dirty (S.seen store.old).content index.now head.now) IsChanged) }
    ensures reads { Reads S.told halt_cause result (S.seen store.old) (S.seen store.new) }
{
    match first_dirty(alloc, index, head, store)? {
        Some(path) => {
            let path = Bytes::from_vec(path.bytes().to_vec(alloc)?);
            Err(Halt::Stops(Unclean::IsChanged(path)))
        }
        None => Ok(()),
    }
}

#[tactic(auto, unfolding(line_steps::specs::Heads::unchanged_at))]
fn stop_changed<S: Store>(
    alloc: Global,
    index: &[IndexEntry],
    head: Id,
    store: &mut S,
) -> Result<(), Halt<Unclean>>
    requires { IsInOrder index.now }
    ensures gives { S.told → Gives (λ x. x) result (unchanged_at (S.seen store.old).content index.now head) }
    ensures reads { Reads S.told halt_cause result (S.seen store.old) (S.seen store.new) }
{
    let ours = map(alloc, head, store)?;
    stop_dirty(alloc, index, &ours, store)
}

/// Stops where index and files are not those of a commit.
#[tactic(auto, unfolding(line_steps::specs::Heads::clean_at))]
pub fn stop_unclean<S: Store>(alloc: Global, head: Id, store: &mut S) -> Result<(), Halt<Unclean>>
    ensures gives { S.told → Gives (λ x. x) result (clean_at_of (S.seen store.old).content head) }
    ensures reads { Reads S.told halt_cause result (S.seen store.old) (S.seen store.new) }
{
    let index = index(alloc, store)?;
    stop_unmerged(alloc, &index)?;
    stop_changed(alloc, &index, head, store)
}
