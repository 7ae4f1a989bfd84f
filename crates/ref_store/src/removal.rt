//! Refs that are deleted.

ghost use Rattle.std.specs.FinMap as map;
ghost use Rattle.std.specs.Prelude.{◌≡◌, false, IfOk, List, not, ℕ};
ghost use Rattle.std.specs.Str.{bytes_eq};
ghost use Rattle.ref_store.specs.Steps.{Does, StaysBut, StaysWhere};
ghost use Rattle.ref_store.specs.Changes.{IsNotDeleted, KeepsIfStopped, NeverStops, deleted, deleted_from, loose_removed, removed_from, repacked, unpacked_from};
ghost use Rattle.ref_text.specs.Packed.{ArePackedNames, packed_text as packed_text_of};
ghost use Rattle.ref_text.specs.Refs.{is_packed as is_packed_in, packed_path, ref_path, without};
ghost use Rattle.seq_base.specs.RefNames.{IsRefName};
ghost use Rattle.seq_base.specs.World.{path_cmp};
ghost use Rattle.seq_outside.specs.Halts.{halt_cause};
ghost use Rattle.seq_outside.specs.Seen.{Writes};

use crate::change::or_blocked;
use crate::fault::RefFault;
use crate::place::ref_file;
use crate::read::packed_refs;
use ref_text::packed_text;
use seq_base::{Bytes, Id};
use seq_outside::{Halt, Store, put_file};
use std::alloc::{AllocError, Global};

fn is_packed(refs: &[(Bytes, Id)], name: &[u8]) -> bool
    ensures { result ≡ is_packed_in refs.now name.now }
{
    refs.iter().any(|(found, _)| found.as_slice() == name)
}

fn is_other(named: &(Bytes, Id), name: &[u8]) -> bool
    ensures { result ≡ not (bytes_eq named.now.0 name.now) }
{
    named.0.as_slice() != name
}

fn drop_name(refs: &mut Vec<(Bytes, Id)>, name: &[u8])
    ensures { refs.new.items ≡ without name.now refs.old.items }
{
    refs.retain(|named| is_other(named, name));
}

/// The text of the packed refs of all other names.
#[tactic(auto, using(crate::proofs::Deleting::names_without))]
fn text_without(
    alloc: Global,
    mut refs: Vec<(Bytes, Id)>,
    name: &[u8],
) -> Result<Vec<u8>, AllocError>
    requires { ArePackedNames refs.items }
    ensures { IfOk result (λ text. text.items ≡ packed_text_of (without name.now refs.items)) }
{
    drop_name(&mut refs, name);
    packed_text(alloc, &refs)
}

#[tactic(auto, unfolding(crate::specs::Changes::repacked))]
fn repack<S: Store>(
    alloc: Global,
    store: &mut S,
    name: &[u8],
    refs: Vec<(Bytes, Id)>,
) -> Result<(), Halt<RefFault>>
    requires { ArePackedNames refs.items }
    ensures turns { S.told → Does result (repacked name.now refs.items) (S.seen store.old) (S.seen store.new) }
    ensures elsewhere { S.told → StaysBut packed_path (S.seen store.old) (S.seen store.new) }
    ensures unchanged { S.told → KeepsIfStopped result (S.seen store.old).content (S.seen store.new).content }
    ensures writes { Writes S.told halt_cause result (S.seen store.old) (S.seen store.new) }
{
    let text = text_without(alloc, refs, name)?;
    let path = b".git/packed-refs".to_vec(alloc)?;
    let put = put_file(alloc, store, Bytes::from_vec(path), &text);
    or_blocked(alloc, name, put)
}

#[tactic(auto, unfolding(crate::specs::Changes::loose_removed))]
fn remove_loose<S: Store>(alloc: Global, store: &mut S, name: &[u8]) -> Result<bool, Halt<RefFault>>
    requires { IsRefName name.now }
    ensures turns { S.told → Does result (loose_removed name.now) (S.seen store.old) (S.seen store.new) }
    ensures elsewhere { S.told → StaysBut (ref_path name.now) (S.seen store.old) (S.seen store.new) }
    ensures never { S.told → NeverStops result }
    ensures writes { Writes S.told halt_cause result (S.seen store.old) (S.seen store.new) }
{
    let path = ref_file(alloc, name)?;
    let there = store.remove(alloc, &path)?;
    Ok(there)
}

/// Where the packed refs have the name, they are written anew without it.
#[tactic(auto, unfolding(crate::specs::Changes::unpacked_from))]
fn unpack<S: Store>(
    alloc: Global,
    store: &mut S,
    name: &[u8],
    refs: Vec<(Bytes, Id)>,
) -> Result<(), Halt<RefFault>>
    requires { ArePackedNames refs.items }
    ensures turns { S.told → Does result (unpacked_from name.now refs.items) (S.seen store.old) (S.seen store.new) }
    ensures elsewhere { S.told → StaysBut packed_path (S.seen store.old) (S.seen store.new) }
    ensures unchanged { S.told → KeepsIfStopped result (S.seen store.old).content (S.seen store.new).content }
    ensures writes { Writes S.told halt_cause result (S.seen store.old) (S.seen store.new) }
{
    if !is_packed(&refs, name) {
        return Ok(());
    }
    repack(alloc, store, name, refs)
}

#[tactic(auto, unfolding(crate::specs::Changes::removed_from))]
fn remove_from<S: Store>(
    alloc: Global,
    store: &mut S,
    name: &[u8],
    refs: Vec<(Bytes, Id)>,
) -> Result<bool, Halt<RefFault>>
    requires name { IsRefName name.now }
    requires refs { ArePackedNames refs.items }
    ensures turns { S.told → Does result (removed_from name.now refs.items) (S.seen store.old) (S.seen store.new) }
    ensures elsewhere { S.told → StaysWhere (IsNotDeleted name.now) (S.seen store.old) (S.seen store.new) }
    ensures unchanged { S.told → KeepsIfStopped result (S.seen store.old).content (S.seen store.new).content }
    ensures writes { Writes S.told halt_cause result (S.seen store.old) (S.seen store.new) }
{
    unpack(alloc, store, name, refs)?;
    remove_loose(alloc, store, name)
}

#[tactic(auto, unfolding(crate::specs::Changes::deleted_from))]
fn delete_from<S: Store>(
    alloc: Global,
    store: &mut S,
    name: &[u8],
    refs: Vec<(Bytes, Id)>,
) -> Result<bool, Halt<RefFault>>
    requires name { IsRefName name.now }
    requires refs { ArePackedNames refs.items }
    ensures turns { S.told → Does result (deleted_from name.now refs.items) (S.seen store.old) (S.seen store.new) }
    ensures elsewhere { S.told → StaysWhere (IsNotDeleted name.now) (S.seen store.old) (S.seen store.new) }
    ensures unchanged { S.told → KeepsIfStopped result (S.seen store.old).content (S.seen store.new).content }
    ensures writes { Writes S.told halt_cause result (S.seen store.old) (S.seen store.new) }
{
    let packed = is_packed(&refs, name);
    let there = remove_from(alloc, store, name, refs)?;
    Ok(packed || there)
}

/// Deletes a ref, among the packed refs and loose, and answers whether it was there; its log stays. The packed refs are written anew
/// without the name where they have it, and before the loose file is removed, so that an old packed value never decides
/// (git-update-ref(1), `-d`; git-pack-refs(1)). BadPacked where they are none, Blocked where a folder is in the way of the packed refs;
/// then nothing is changed.
#[tactic(auto, unfolding(crate::specs::Changes::deleted))]
pub fn delete<S: Store>(alloc: Global, store: &mut S, name: &[u8]) -> Result<bool, Halt<RefFault>>
    requires { IsRefName name.now }
    ensures turns { S.told → Does result (deleted name.now) (S.seen store.old) (S.seen store.new) }
    ensures elsewhere { S.told → StaysWhere (IsNotDeleted name.now) (S.seen store.old) (S.seen store.new) }
    ensures unchanged { S.told → KeepsIfStopped result (S.seen store.old).content (S.seen store.new).content }
    ensures writes { Writes S.told halt_cause result (S.seen store.old) (S.seen store.new) }
{
    let refs = packed_refs(alloc, store)?;
    delete_from(alloc, store, name, refs)
}
