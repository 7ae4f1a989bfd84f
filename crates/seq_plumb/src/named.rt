//! Words that name files.

ghost use Rattle.std.specs.Prelude.{◌≡◌, IfOk, IsErrOf, not};
ghost use Rattle.index_file.specs.Entries.{IsInOrder};
ghost use Rattle.seq_model.specs.Refusing.{refuse_if};
ghost use Rattle.seq_outside.specs.Halts.{Gives, halt_cause};
ghost use Rattle.seq_outside.specs.Seen.{Reads};
ghost use Rattle.seq_plumb.specs.Named.{are_known, are_tracked, is_known, is_path as is_path_word, path_named as path_by, paths_named as paths_by};
ghost use Rattle.stage_index.specs.Switching.{is_tracked as is_tracked_in};

use index_file::IndexEntry;
use seq_base::{Bytes, Path};
use seq_model::{Denial, Refusal, refused};
use seq_outside::{Halt, Store};
use stage_index::tracked;
use std::alloc::{AllocError, Global};

fn bad_path(alloc: Global, word: &[u8]) -> Result<Refusal, AllocError>
    ensures { IfOk result (λ refusal. refusal ≡ Refusal.BadPath word.now) }
{
    let word = Bytes::from_vec(word.to_vec(alloc)?);
    Ok(Refusal::BadPath { word })
}

#[tactic(auto, using(crate::proofs::PathWords::path_tests))]
fn is_path(word: &[u8]) -> bool
    ensures { result ≡ is_path_word word.now }
{
    match Path::check(word) {
        Ok(()) => true,
        Err(_) => false,
    }
}

/// The path that a word is.
#[tactic(auto, unfolding(crate::specs::Named::path_named))]
fn path_named(alloc: Global, word: &[u8]) -> Result<Path, Halt<Denial>>
    ensures gives { Gives (λ path. path) result (path_by word.now) }
    ensures no_fault { IsErrOf result Halt.Fault → ⊥ }
{
    if !is_path(word) {
        return Err(refused(bad_path(alloc, word)?));
    }
    match Path::new(alloc, word) {
        Ok(path) => Ok(path),
        Err(_) => Err(Halt::Memory),
    }
}

/// The paths that the words are. BadPath with the first that is none.
#[tactic(auto, unfolding(crate::specs::Named::paths_behind))]
pub fn paths_named(alloc: Global, words: &[Bytes]) -> Result<Vec<Path>, Halt<Denial>>
    ensures gives { Gives (λ paths. paths.items) result (paths_by words.now) }
    ensures no_fault { IsErrOf result Halt.Fault → ⊥ }
{
    let mut paths = Vec::new(alloc);
    let mut rest = words;
    while let [word, after @ ..] = rest {
        paths.push(path_named(alloc, word.as_slice())?)?;
        rest = after;
    }
    Ok(paths)
}

fn not_tracked(alloc: Global, path: &Path) -> Result<Refusal, AllocError>
    ensures { IfOk result (λ refusal. refusal ≡ Refusal.NotTracked path.now) }
{
    let path = Bytes::from_vec(path.bytes().to_vec(alloc)?);
    Ok(Refusal::NotTracked { path })
}

fn is_tracked(index: &[IndexEntry], path: &Path) -> bool
    requires { IsInOrder index.now }
    ensures { result ≡ is_tracked_in index.now path.now }
{
    match tracked(index, path.bytes()) {
        Some(_) => true,
        None => false,
    }
}

fn want_tracked_one(alloc: Global, index: &[IndexEntry], path: &Path) -> Result<(), Halt<Denial>>
    requires { IsInOrder index.now }
    ensures gives { Gives (λ x. x) result (refuse_if (not (is_tracked_in index.now path.now)) (Refusal.NotTracked path.now)) }
    ensures no_fault { IsErrOf result Halt.Fault → ⊥ }
{
    if is_tracked(index, path) {
        return Ok(());
    }
    Err(refused(not_tracked(alloc, path)?))
}

/// NotTracked with the first of the paths that the index has not.
#[tactic(auto, unfolding(crate::specs::Named::are_tracked))]
pub fn want_tracked(alloc: Global, index: &[IndexEntry], paths: &[Path]) -> Result<(), Halt<Denial>>
    requires { IsInOrder index.now }
    ensures gives { Gives (λ x. x) result (are_tracked index.now paths.now) }
    ensures no_fault { IsErrOf result Halt.Fault → ⊥ }
{
    let mut rest = paths;
    while let [path, after @ ..] = rest {
        want_tracked_one(alloc, index, path)?;
        rest = after;
    }
    Ok(())
}

#[tactic(auto, unfolding(crate::specs::Named::is_known))]
fn want_known_one<S: Store>(
    alloc: Global,
    index: &[IndexEntry],
    path: &Path,
    store: &mut S,
) -> Result<(), Halt<Denial>>
    requires { IsInOrder index.now }
    ensures gives { S.told → Gives (λ x. x) result (is_known (S.seen store.old).content index.now path.now) }
    ensures reads { Reads S.told halt_cause result (S.seen store.old) (S.seen store.new) }
{
    if is_tracked(index, path) {
        return Ok(());
    }
    match store.get(alloc, path.bytes())? {
        Some(_) => Ok(()),
        None => Err(refused(not_tracked(alloc, path)?)),
    }
}

/// NotTracked with the first of the paths that the index has not, and at which no file stands.
#[tactic(auto, unfolding(crate::specs::Named::are_known))]
pub fn want_known<S: Store>(
    alloc: Global,
    index: &[IndexEntry],
    paths: &[Path],
    store: &mut S,
) -> Result<(), Halt<Denial>>
    requires { IsInOrder index.now }
    ensures gives { S.told → Gives (λ x. x) result (are_known (S.seen store.old).content index.now paths.now) }
    ensures reads { Reads S.told halt_cause result (S.seen store.old) (S.seen store.new) }
{
    let mut rest = paths;
    while let [path, after @ ..] = rest {
        want_known_one(alloc, index, path, store)?;
        rest = after;
    }
    Ok(())
}
