//! Whether index and files are as HEAD has them.

ghost use Rattle.std.specs.Prelude.{◌≡◌, ◌++◌, ◌∷◌, [], Err, IfOk, Some};
ghost use Rattle.std.specs.Option.{option_map, option_to_list};
ghost use Rattle.index_file.specs.Entries.{IsInOrder};
ghost use Rattle.seq_model.specs.Pick.{clean_map as clean_map_of, is_clean};
ghost use Rattle.seq_outside.specs.Seen.{Reads};
ghost use Rattle.seq_outside.specs.Halts.{Gives, halt_cause};
ghost use Rattle.stage_index.specs.Least.{least};

use index_file::IndexEntry;
use seq_base::{Bytes, Id, Path, PathMap, comes_before};
use seq_model::{Denial, Refusal, refused};
use seq_outside::{Halt, Store};
use stage_index::staged_path;
use start_checks::commit_map;
use std::alloc::{AllocError, Global};
use worktree::first_change;

fn copy_of_any(path: Option<&Path>) -> Result<Option<Path>, AllocError>
    ensures { IfOk result (λ copy. copy ≡ option_map (λ path. path.now) path.entry) }
{
    match path {
        Some(path) => Ok(Some(path.copy()?)),
        None => Ok(None),
    }
}

#[tactic(auto, using(crate::proofs::Least::least_of_two))]
fn lesser_of(first: Path, other: &Path) -> Result<Path, AllocError>
    ensures { IfOk result (λ path. least (first ∷ other.now ∷ []) ≡ Some path) }
{
    if comes_before(other.bytes(), first.bytes()) {
        other.copy()
    } else {
        Ok(first)
    }
}

/// The least of two paths, each of which may be missing.
#[tactic(auto, using(crate::proofs::Least::least_of_one))]
fn least_of(first: Option<Path>, other: Option<Path>) -> Result<Option<Path>, AllocError>
    ensures { IfOk result (λ found. found ≡ least (option_to_list first ++ option_to_list other)) }
{
    match first {
        None => Ok(other),
        Some(first) => match other {
            None => Ok(Some(first)),
            Some(other) => Ok(Some(lesser_of(first, &other)?)),
        },
    }
}

/// Refuses where the index or a file is not as HEAD's map has it.
#[tactic(auto, unfolding(seq_model::specs::Pick::is_clean))]
fn refuse_dirty<S: Store>(
    alloc: Global,
    index: &[IndexEntry],
    head: &PathMap,
    store: &mut S,
) -> Result<(), Halt<Denial>>
    requires { IsInOrder index.now }
    ensures gives { S.told → Gives (λ x. x) result (is_clean (S.seen store.old).content index.now head.now) }
    ensures reads { Reads S.told halt_cause result (S.seen store.old) (S.seen store.new) }
{
    let changed = first_change(alloc, store, index)?;
    let staged = copy_of_any(staged_path(index, head))?;
    match least_of(changed, staged)? {
        Some(path) => {
            let path = Bytes::from_vec(path.bytes().to_vec(alloc)?);
            Err(refused(Refusal::Dirty { path }))
        }
        None => Ok(()),
    }
}

/// HEAD's map, where index and files are as it has them.
#[tactic(auto, unfolding(seq_model::specs::Pick::clean_map))]
pub fn clean_map<S: Store>(
    alloc: Global,
    head: Id,
    index: &[IndexEntry],
    store: &mut S,
) -> Result<PathMap, Halt<Denial>>
    requires { IsInOrder index.now }
    ensures gives { S.told → Gives (λ m. m) result (clean_map_of (S.seen store.old).content head index.now) }
    ensures reads { Reads S.told halt_cause result (S.seen store.old) (S.seen store.new) }
{
    let ours = commit_map(alloc, head, store)?;
    refuse_dirty(alloc, index, &ours, store)?;
    Ok(ours)
}
