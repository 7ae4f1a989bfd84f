//! Files that are added to the index.

ghost use Rattle.std.specs.List.{AllByRecursion};
ghost use Rattle.std.specs.Option.{option_map};
ghost use Rattle.std.specs.Prelude.{◌≡◌, IfOk};
ghost use Rattle.index_file.specs.Entries.{IsInOrder, IsIndex, IsStaged};
ghost use Rattle.objects.specs.Puts.{object_of, object_put};
ghost use Rattle.seq_model.specs.Changes.{Changes};
ghost use Rattle.seq_model.specs.Refusing.{denied_put};
ghost use Rattle.seq_outside.specs.Halts.{halt_cause};
ghost use Rattle.seq_outside.specs.Seen.{Writes};
ghost use Rattle.seq_outside.specs.Turns.{Turns, saying};
ghost use Rattle.seq_plumb.specs.Adding.{added, added_on, added_to, blob_put, file_added, file_put, files_added};
ghost use Rattle.start_checks.specs.Basis.{basis_is};

use crate::begin::begin;
use crate::indexing::{set_file, write_index};
use crate::named::{paths_named, want_known};
use index_file::IndexEntry;
use object_text::Kind;
use objects::write_object;
use seq_base::{Bytes, Id, Path};
use seq_model::Denial;
use seq_outside::{Halt, Store};
use start_checks::{Basis, put_halt};
use std::alloc::Global;

#[tactic(auto, using(seq_model::proofs::Owning::objects_owned))]
fn put_blob<S: Store>(alloc: Global, bytes: &[u8], store: &mut S) -> Result<Id, Halt<Denial>>
    ensures turns { S.told → Turns (λ id. id) result
        (saying denied_put (object_put (object_of Kind.Blob bytes.now)) (S.seen store.old).content)
        (S.seen store.new).content }
    ensures owns { S.told → Changes (S.seen store.old).content (S.seen store.new).content }
    ensures writes { Writes S.told halt_cause result (S.seen store.old) (S.seen store.new) }
{
    match write_object(alloc, store, Kind::Blob, bytes) {
        Ok(id) => Ok(id),
        Err(halt) => Err(put_halt(halt)),
    }
}

fn put_any<S: Store>(
    alloc: Global,
    bytes: Option<Vec<u8>>,
    store: &mut S,
) -> Result<Option<Id>, Halt<Denial>>
    ensures turns { S.told → Turns (λ id. id) result
        (blob_put (option_map (λ v. v.items) bytes) (S.seen store.old).content)
        (S.seen store.new).content }
    ensures owns { S.told → Changes (S.seen store.old).content (S.seen store.new).content }
    ensures writes { Writes S.told halt_cause result (S.seen store.old) (S.seen store.new) }
{
    match bytes {
        Some(bytes) => {
            let id = put_blob(alloc, &bytes, store)?;
            Ok(Some(id))
        }
        None => Ok(None),
    }
}

/// Puts the blob of the file at a path, if one is there, and answers its id.
#[tactic(auto, unfolding(crate::specs::Adding::file_put))]
fn put_file<S: Store>(alloc: Global, path: &Path, store: &mut S) -> Result<Option<Id>, Halt<Denial>>
    ensures turns { S.told → Turns (λ id. id) result (file_put path.now (S.seen store.old).content) (S.seen store.new).content }
    ensures owns { S.told → Changes (S.seen store.old).content (S.seen store.new).content }
    ensures writes { Writes S.told halt_cause result (S.seen store.old) (S.seen store.new) }
{
    let bytes = store.get(alloc, path.bytes())?;
    put_any(alloc, bytes, store)
}

/// The index with what is at a path now.
#[tactic(auto, unfolding(crate::specs::Adding::file_added), using(crate::proofs::Indexed::file_laws))]
fn add_file<S: Store>(
    alloc: Global,
    index: Vec<IndexEntry>,
    path: &Path,
    store: &mut S,
) -> Result<Vec<IndexEntry>, Halt<Denial>>
    requires order { IsInOrder index.items }
    requires staged { AllByRecursion IsStaged index.items }
    ensures turns { S.told → Turns (λ v. v.items) result
        (file_added index.items path.now (S.seen store.old).content)
        (S.seen store.new).content }
    ensures order { IfOk result (λ v. IsInOrder v.items) }
    ensures staged { IfOk result (λ v. AllByRecursion IsStaged v.items) }
    ensures owns { S.told → Changes (S.seen store.old).content (S.seen store.new).content }
    ensures writes { Writes S.told halt_cause result (S.seen store.old) (S.seen store.new) }
{
    let blob = put_file(alloc, path, store)?;
    let mut entries = index;
    set_file(alloc, &mut entries, path, blob)?;
    Ok(entries)
}

/// The index with what is at each of the paths now.
#[tactic(auto, unfolding(crate::specs::Adding::files_added), using(seq_model::proofs::Owning::owned_laws))]
fn add_files<S: Store>(
    alloc: Global,
    index: Vec<IndexEntry>,
    paths: &[Path],
    store: &mut S,
) -> Result<Vec<IndexEntry>, Halt<Denial>>
    requires order { IsInOrder index.items }
    requires staged { AllByRecursion IsStaged index.items }
    ensures turns { S.told → Turns (λ v. v.items) result
        (files_added index.items paths.now (S.seen store.old).content)
        (S.seen store.new).content }
    ensures order { IfOk result (λ v. IsInOrder v.items) }
    ensures staged { IfOk result (λ v. AllByRecursion IsStaged v.items) }
    ensures owns { S.told → Changes (S.seen store.old).content (S.seen store.new).content }
    ensures writes { Writes S.told halt_cause result (S.seen store.old) (S.seen store.new) }
{
    let mut entries = index;
    let mut rest = paths;
    while let [path, after @ ..] = rest {
        entries = add_file(alloc, entries, path, store)?;
        rest = after;
    }
    Ok(entries)
}

#[tactic(auto, unfolding(crate::specs::Adding::added_to), using(seq_model::proofs::Owning::owned_both))]
fn add_to<S: Store>(
    alloc: Global,
    index: Vec<IndexEntry>,
    paths: &[Path],
    store: &mut S,
) -> Result<(), Halt<Denial>>
    requires order { IsInOrder index.items }
    requires staged { AllByRecursion IsStaged index.items }
    ensures turns { S.told → Turns (λ x. x) result
        (added_to index.items paths.now (S.seen store.old).content)
        (S.seen store.new).content }
    ensures owns { S.told → Changes (S.seen store.old).content (S.seen store.new).content }
    ensures writes { Writes S.told halt_cause result (S.seen store.old) (S.seen store.new) }
{
    let more = add_files(alloc, index, paths, store)?;
    write_index(alloc, &more, store)
}

#[tactic(auto, unfolding(crate::specs::Adding::added_on), using(seq_model::proofs::Owning::owned_laws))]
fn add_on<S: Store>(
    alloc: Global,
    basis: Basis,
    paths: &[Path],
    store: &mut S,
) -> Result<Option<Id>, Halt<Denial>>
    requires { IsIndex basis.index.items }
    ensures turns { S.told → Turns (λ head. head) result
        (added_on (basis_is basis) paths.now (S.seen store.old).content)
        (S.seen store.new).content }
    ensures owns { S.told → Changes (S.seen store.old).content (S.seen store.new).content }
    ensures writes { Writes S.told halt_cause result (S.seen store.old) (S.seen store.new) }
{
    let Basis { place, index, .. } = basis;
    want_known(alloc, &index, paths, store)?;
    add_to(alloc, index, paths, store)?;
    Ok(place.tip)
}

/// Adds files to the index (git-add(1)): each gets a blob, and its path this blob at stage 0, with the mode that it has there or at stage 2;
/// an entry whose path clashes goes, and so does the entry of a file that is gone. BadPath with the first word that is no path, then
/// NotTracked with the first that has neither a file nor an entry, then what a blob lacks. Answers the commit that HEAD is at.
#[tactic(auto, unfolding(crate::specs::Adding::added), using(seq_model::proofs::Owning::owned_laws))]
pub fn add<S: Store>(
    alloc: Global,
    words: &[Bytes],
    store: &mut S,
) -> Result<Option<Id>, Halt<Denial>>
    ensures turns { S.told → Turns (λ head. head) result (added words.now (S.seen store.old).content) (S.seen store.new).content }
    ensures owns { S.told → Changes (S.seen store.old).content (S.seen store.new).content }
    ensures writes { Writes S.told halt_cause result (S.seen store.old) (S.seen store.new) }
{
    let basis = begin(alloc, store)?;
    let paths = paths_named(alloc, words)?;
    add_on(alloc, basis, &paths, store)
}
