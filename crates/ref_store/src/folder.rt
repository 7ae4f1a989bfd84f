//! The refs below a folder.

ghost use Rattle.std.specs.List.{AllByRecursion};
ghost use Rattle.std.specs.Prelude.{◌≡◌, ◌++◌, ◌∷◌, [], IfOk, OnOk, drop, filter, map};
ghost use Rattle.ref_store.specs.Lists.{is_named as is_named_of, list_at, loose_names as loose_names_in, with_line, with_packed, with_value, with_values as with_values_of};
ghost use Rattle.ref_text.specs.Refs.{ref_path};
ghost use Rattle.seq_base.specs.RefNames.{IsRefName};
ghost use Rattle.seq_base.specs.StorePaths.{IsStorePath};
ghost use Rattle.seq_outside.specs.Halts.{Gives, halt_cause};
ghost use Rattle.seq_outside.specs.Seen.{Reads, store_cause};

use crate::fault::RefFault;
use crate::read::{end_of_name, packed_refs, value_by};
use seq_base::{Bytes, Id, is_ref_name, lies_below};
use seq_outside::{Halt, Store, StoreError};
use std::alloc::{AllocError, Global};
use std::collections::BTreeMap;

/// Adds a packed ref, if it is below the folder and none of its name was before.
fn add_line(
    refs: &mut BTreeMap<Bytes, Id>,
    folder: &[u8],
    line: &(Bytes, Id),
) -> Result<(), AllocError>
    ensures { OnOk result (refs.new.entries ≡ with_line folder.now refs.old.entries line.now) }
{
    if lies_below(folder, line.0.as_slice()) && !refs.contains_key(&line.0) {
        refs.insert(line.0.clone()?, line.1)?;
    }
    Ok(())
}

/// The packed refs below the folder.
fn packed_below(
    alloc: Global,
    folder: &[u8],
    lines: &[(Bytes, Id)],
) -> Result<BTreeMap<Bytes, Id>, AllocError>
    ensures { IfOk result (λ refs. refs.entries ≡ with_packed folder.now [] lines.now) }
{
    let mut refs = BTreeMap::new(alloc);
    let mut rest = lines;
    while let [line, after @ ..] = rest {
        add_line(&mut refs, folder, line)?;
        rest = after;
    }
    Ok(refs)
}

/// Gives a name this value, or none.
fn set_value(
    refs: &mut BTreeMap<Bytes, Id>,
    name: Bytes,
    value: Option<Id>,
) -> Result<(), AllocError>
    ensures { OnOk result (refs.new.entries ≡ with_value refs.old.entries name value) }
{
    match value {
        Some(id) => {
            refs.insert(name, id)?;
        }
        None => {
            refs.remove(&name);
        }
    }
    Ok(())
}

/// What stands behind `.git/`.
fn behind_git(path: &[u8]) -> &[u8]
    ensures { result.now ≡ drop 5 path.now }
{
    if path.len() < 5 { &[] } else { &path[5..] }
}

#[tactic(auto, unfolding(crate::specs::Lists::is_named))]
fn is_named(name: &[u8]) -> bool
    ensures { result ≡ is_named_of name.now }
{
    is_ref_name(name)
}

fn push_name(alloc: Global, names: &mut Vec<Bytes>, name: &[u8]) -> Result<(), AllocError>
    ensures { OnOk result (names.new.items ≡ names.old.items ++ filter is_named_of (name.now ∷ [])) }
{
    if is_named(name) {
        names.push(Bytes::from_vec(name.to_vec(alloc)?))?;
    }
    Ok(())
}

/// The names of refs among files.
#[tactic(auto, using(crate::proofs::Listing::one_more_kept))]
fn names_of(alloc: Global, paths: &[Bytes]) -> Result<Vec<Bytes>, AllocError>
    ensures names { IfOk result (λ names. names.items ≡ filter is_named_of (map (drop 5) paths.now)) }
    ensures are_names { IfOk result (λ names. AllByRecursion IsRefName names.items) }
{
    let mut names = Vec::new(alloc);
    let mut rest = paths;
    while let [path, after @ ..] = rest {
        push_name(alloc, &mut names, behind_git(path.as_slice()))?;
        rest = after;
    }
    Ok(names)
}

fn folder_path(alloc: Global, folder: &[u8]) -> Result<Vec<u8>, AllocError>
    ensures { IfOk result (λ path. path.items ≡ ref_path folder.now) }
{
    let mut path = Vec::from_slice(alloc, b".git/")?;
    path.extend_from_slice(folder)?;
    Ok(path)
}

/// The names of the refs that have files below the folder.
fn loose_names<S: Store>(
    alloc: Global,
    store: &mut S,
    folder: &[u8],
) -> Result<Vec<Bytes>, StoreError>
    requires { IsStorePath (ref_path folder.now) }
    ensures names { S.told → IfOk result (λ names. names.items ≡ loose_names_in (S.seen store.old).content folder.now) }
    ensures are_names { IfOk result (λ names. AllByRecursion IsRefName names.items) }
    ensures reads { Reads S.told store_cause result (S.seen store.old) (S.seen store.new) }
{
    let path = folder_path(alloc, folder)?;
    let paths = store.list(alloc, &path)?;
    let names = names_of(alloc, &paths)?;
    Ok(names)
}

/// The refs in a list.
fn list_of(alloc: Global, mut refs: BTreeMap<Bytes, Id>) -> Result<Vec<(Bytes, Id)>, AllocError>
    ensures { IfOk result (λ list. list.items ≡ refs.entries) }
{
    let mut list = Vec::new(alloc);
    while let Some(named) = refs.pop_first() {
        list.push(named)?;
    }
    Ok(list)
}

/// Gives each of these names its value.
#[tactic(auto, unfolding(crate::specs::Lists::with_values))]
fn with_values<S: Store>(
    alloc: Global,
    store: &mut S,
    packed: &[(Bytes, Id)],
    mut refs: BTreeMap<Bytes, Id>,
    names: &[Bytes],
) -> Result<BTreeMap<Bytes, Id>, Halt<RefFault>>
    requires { AllByRecursion IsRefName names.now }
    ensures gives { S.told → Gives (λ refs. refs.entries) result (with_values_of (S.seen store.old).content packed.now refs.entries names.now) }
    ensures reads { Reads S.told halt_cause result (S.seen store.old) (S.seen store.new) }
{
    let mut rest = names;
    while let [name, after @ ..] = rest {
        let end = end_of_name(alloc, store, name.as_slice())?;
        set_value(&mut refs, name.clone()?, value_by(packed, &end))?;
        rest = after;
    }
    Ok(refs)
}

/// The refs below a folder, over these packed refs.
fn refs_below<S: Store>(
    alloc: Global,
    store: &mut S,
    folder: &[u8],
    packed: &[(Bytes, Id)],
) -> Result<BTreeMap<Bytes, Id>, Halt<RefFault>>
    requires { IsStorePath (ref_path folder.now) }
    ensures gives { S.told → Gives (λ refs. refs.entries) result
        (with_values_of (S.seen store.old).content packed.now (with_packed folder.now [] packed.now) (loose_names_in (S.seen store.old).content folder.now)) }
    ensures reads { Reads S.told halt_cause result (S.seen store.old) (S.seen store.new) }
{
    let names = loose_names(alloc, store, folder)?;
    let refs = packed_below(alloc, folder, packed)?;
    with_values(alloc, store, packed, refs, &names)
}

/// The refs below a folder as `refs/heads`, with their values, in the byte order of their names (git-for-each-ref(1)). A ref that leads
/// to none has no value and is left out, and a file whose path is no name of a ref is passed over. The packed refs are read
/// first, and once: BadPacked with their first bad line; then BadRef of the first name whose file, or
/// one to which it leads, is none of a ref.
#[tactic(auto, unfolding(crate::specs::Lists::list_at))]
pub fn list<S: Store>(
    alloc: Global,
    store: &mut S,
    folder: &[u8],
) -> Result<Vec<(Bytes, Id)>, Halt<RefFault>>
    requires { IsStorePath (ref_path folder.now) }
    ensures gives { S.told → Gives (λ refs. refs.items) result (list_at (S.seen store.old).content folder.now) }
    ensures reads { Reads S.told halt_cause result (S.seen store.old) (S.seen store.new) }
{
    let packed = packed_refs(alloc, store)?;
    let refs = refs_below(alloc, store, folder, &packed)?;
    let list = list_of(alloc, refs)?;
    Ok(list)
}
