//! Files that are removed.

ghost use Rattle.std.specs.List.{AllByRecursion, list_any};
ghost use Rattle.std.specs.Prelude.{◌≡◌, ◌&&◌};
ghost use Rattle.std.specs.Str.{bytes_eq};
ghost use Rattle.index_file.specs.Entries.{IsInOrder, IsIndex, IsStaged};
ghost use Rattle.seq_model.specs.Changes.{Changes};
ghost use Rattle.seq_outside.specs.Halts.{halt_cause};
ghost use Rattle.seq_outside.specs.Seen.{Writes};
ghost use Rattle.seq_outside.specs.Turns.{Turns};
ghost use Rattle.seq_plumb.specs.Removing.{file_removed, files_removed, others_of_all, removed_from, removed_named, removed_on};
ghost use Rattle.stage_index.specs.Changes.{is_gitlink as is_gitlink_mode};
ghost use Rattle.stage_index.specs.Switching.{is_submodule_at as is_submodule_in};
ghost use Rattle.start_checks.specs.Basis.{basis_is};

use crate::begin::begin;
use crate::indexing::{drop_path, write_index};
use crate::named::{paths_named, want_tracked};
use index_file::IndexEntry;
use seq_base::{Bytes, Id, Mode, Path};
use seq_model::Denial;
use seq_outside::{Halt, Store};
use start_checks::Basis;
use std::alloc::Global;

fn is_gitlink(mode: Mode) -> bool
    ensures { result ≡ is_gitlink_mode mode }
{
    match mode {
        Mode::Gitlink => true,
        Mode::File | Mode::Exec | Mode::Link | Mode::Folder => false,
    }
}

fn is_submodule_at(index: &[IndexEntry], path: &[u8]) -> bool
    ensures { result ≡ is_submodule_in index.now path.now }
{
    index.iter().any(|entry| entry.path.bytes() == path && is_gitlink(entry.mode))
}

/// Removes the file at a path, but not what stands at a submodule's.
#[tactic(auto, unfolding(crate::specs::Removing::file_removed), using(seq_model::proofs::Owning::path_owned))]
fn remove_file<S: Store>(
    alloc: Global,
    index: &[IndexEntry],
    path: &Path,
    store: &mut S,
) -> Result<(), Halt<Denial>>
    ensures turns { S.told → Turns (λ x. x) result
        (file_removed index.now path.now (S.seen store.old).content)
        (S.seen store.new).content }
    ensures owns { S.told → Changes (S.seen store.old).content (S.seen store.new).content }
    ensures writes { Writes S.told halt_cause result (S.seen store.old) (S.seen store.new) }
{
    if is_submodule_at(index, path.bytes()) {
        return Ok(());
    }
    let _was_there = store.remove(alloc, path.bytes())?;
    Ok(())
}

#[tactic(auto, unfolding(crate::specs::Removing::files_removed), using(seq_model::proofs::Owning::owned_laws))]
fn remove_files<S: Store>(
    alloc: Global,
    index: &[IndexEntry],
    paths: &[Path],
    store: &mut S,
) -> Result<(), Halt<Denial>>
    ensures turns { S.told → Turns (λ x. x) result
        (files_removed index.now paths.now (S.seen store.old).content)
        (S.seen store.new).content }
    ensures owns { S.told → Changes (S.seen store.old).content (S.seen store.new).content }
    ensures writes { Writes S.told halt_cause result (S.seen store.old) (S.seen store.new) }
{
    let mut rest = paths;
    while let [path, after @ ..] = rest {
        remove_file(alloc, index, path, store)?;
        rest = after;
    }
    Ok(())
}

fn drop_paths(index: &mut Vec<IndexEntry>, paths: &[Path])
    requires order { IsInOrder index.old.items }
    requires staged { AllByRecursion IsStaged index.old.items }
    ensures others { index.new.items ≡ others_of_all index.old.items paths.now }
    ensures order { IsInOrder index.new.items }
    ensures staged { AllByRecursion IsStaged index.new.items }
{
    let mut rest = paths;
    while let [path, after @ ..] = rest {
        drop_path(index, path);
        rest = after;
    }
}

#[tactic(auto, unfolding(crate::specs::Removing::removed_from), using(seq_model::proofs::Owning::owned_both))]
fn remove_from<S: Store>(
    alloc: Global,
    basis: Basis,
    paths: &[Path],
    store: &mut S,
) -> Result<Option<Id>, Halt<Denial>>
    requires { IsIndex basis.index.items }
    ensures turns { S.told → Turns (λ head. head) result
        (removed_from (basis_is basis) paths.now (S.seen store.old).content)
        (S.seen store.new).content }
    ensures owns { S.told → Changes (S.seen store.old).content (S.seen store.new).content }
    ensures writes { Writes S.told halt_cause result (S.seen store.old) (S.seen store.new) }
{
    let Basis {
        place,
        mut index,
        ..
    } = basis;
    remove_files(alloc, &index, paths, store)?;
    drop_paths(&mut index, paths);
    write_index(alloc, &index, store)?;
    Ok(place.tip)
}

#[tactic(auto, unfolding(crate::specs::Removing::removed_on))]
fn remove_on<S: Store>(
    alloc: Global,
    basis: Basis,
    paths: &[Path],
    store: &mut S,
) -> Result<Option<Id>, Halt<Denial>>
    requires { IsIndex basis.index.items }
    ensures turns { S.told → Turns (λ head. head) result
        (removed_on (basis_is basis) paths.now (S.seen store.old).content)
        (S.seen store.new).content }
    ensures owns { S.told → Changes (S.seen store.old).content (S.seen store.new).content }
    ensures writes { Writes S.told halt_cause result (S.seen store.old) (S.seen store.new) }
{
    want_tracked(alloc, &basis.index, paths)?;
    remove_from(alloc, basis, paths, store)
}

/// Removes files from the worktree and the index (git-rm(1)); what stands at a submodule's path stays. BadPath with the first word that is
/// no path, then NotTracked with the first that the index has not. Answers the commit that HEAD is at.
#[tactic(auto, unfolding(crate::specs::Removing::removed_named))]
pub fn remove<S: Store>(
    alloc: Global,
    words: &[Bytes],
    store: &mut S,
) -> Result<Option<Id>, Halt<Denial>>
    ensures turns { S.told → Turns (λ head. head) result (removed_named words.now (S.seen store.old).content) (S.seen store.new).content }
    ensures owns { S.told → Changes (S.seen store.old).content (S.seen store.new).content }
    ensures writes { Writes S.told halt_cause result (S.seen store.old) (S.seen store.new) }
{
    let basis = begin(alloc, store)?;
    let paths = paths_named(alloc, words)?;
    remove_on(alloc, basis, &paths, store)
}
