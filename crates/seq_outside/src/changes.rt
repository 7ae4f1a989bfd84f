//! Changes of files, in the order of their paths' last changes.

ghost use Rattle.std.specs.List.{AllByRecursion, list_any};
ghost use Rattle.std.specs.Prelude.{◌≡◌, ◌<◌, List, ℕ, length, slice_index, take, [], false, IfNone, IfSome, OnErr, OnOk, true};
ghost use Rattle.std.specs.BTreeSet.{contains};
ghost use Rattle.std.specs.FinMap as map;
ghost use Rattle.seq_base.specs.World.{IsWorld, World, is_below, path_cmp};
ghost use Rattle.seq_outside.specs.Drafts.{AreApart, MayFollow, is_draft, puts_below, slot_puts_below as slot_puts_below_of, with_last};
ghost use Rattle.seq_outside.specs.Slots.{AreChanges, KeepsFolders, cleared, kept};
ghost use Rattle.seq_outside.specs.Writes.{HasStorePath, after, are_free, is_written, left_by, written};

use crate::write::Write;
use seq_base::{Bytes, lies_below};
use std::alloc::{AllocError, Global};
use std::collections::{BTreeMap, BTreeSet};
use std::marker::Model;

/// Changes of files, of each path the last one. Contracts see the list of writes.
#[derive(Drop)]
pub struct Changes {
    slots: Vec<Option<Write>>,
    places: BTreeMap<Bytes, usize>,
    /// The folders below which a file was put, and maybe others.
    folders: BTreeSet<Bytes>,
}

impl Model for Changes {
    ghost use Rattle.std.specs.Prelude.{List};
    ghost use Rattle.seq_outside.specs.declared.write.Write.{Write};
    ghost use Rattle.seq_outside.specs.Slots.{AreKept, kept};

    ghost Value = { List Write };

    ghost view = { λ c. kept c.slots.items };

    ghost invariant = { λ c. AreKept c.slots.items c.places c.folders };
}

/// Empties the slot of this place, if there is one.
fn clear(slots: &mut Vec<Option<Write>>, place: Option<usize>)
    requires { IfSome place (λ place. place < length slots.old.items) }
    ensures { slots.new.items ≡ cleared slots.old.items place }
{
    if let Some(place) = place {
        slots[place] = None;
    }
}

/// Puts the write behind all, and empties the slot of its path's earlier one. At Err nothing has changed.
fn set_slot(
    alloc: Global,
    slots: &mut Vec<Option<Write>>,
    places: &mut BTreeMap<Bytes, usize>,
    write: Write,
) -> Result<(), AllocError>
    requires changes { AreChanges slots.old.items places.old }
    requires path { HasStorePath write }
    ensures changes { AreChanges slots.new.items places.new }
    ensures ok { OnOk result (kept slots.new.items ≡ with_last (kept slots.old.items) write) }
    ensures err { OnErr result (kept slots.new.items ≡ kept slots.old.items) }
{
    let path = Bytes::from_vec(write.path().to_vec(alloc)?);
    let place = slots.len();
    slots.push(Some(write))?;
    let Ok(earlier) = places.insert(path, place) else {
        slots.pop();
        return Err(AllocError);
    };
    clear(slots, earlier);
    Ok(())
}

/// Notes the folder that ends before this byte of a path, if one does.
#[tactic(auto, using(crate::proofs::Folders::is_in, crate::proofs::Folders::stays_in))]
fn note_folder(
    alloc: Global,
    folders: &mut BTreeSet<Bytes>,
    path: &[u8],
    n: usize,
) -> Result<(), AllocError>
    requires { n < length path.now }
    ensures keeps { KeepsFolders folders.old folders.new }
    ensures noted { OnOk result (slice_index path.now n ≡ 47 → contains path_cmp folders.new (take n path.now) ≡ true) }
{
    if path[n] != b'/' {
        return Ok(());
    }
    let folder = Bytes::from_vec(path[..n].to_vec(alloc)?);
    folders.insert(folder)?;
    Ok(())
}

/// Notes the folders of a path.
fn note_folders(alloc: Global, folders: &mut BTreeSet<Bytes>, path: &[u8]) -> Result<(), AllocError>
    ensures keeps { KeepsFolders folders.old folders.new }
    ensures noted { OnOk result ((folder : List ℕ) → is_below folder path.now ≡ true → contains path_cmp folders.new folder ≡ true) }
{
    let mut n = 0;
    while n < path.len() {
        note_folder(alloc, folders, path, n)?;
        n += 1;
    }
    Ok(())
}

fn note_write(alloc: Global, folders: &mut BTreeSet<Bytes>, write: &Write) -> Result<(), AllocError>
    ensures keeps { KeepsFolders folders.old folders.new }
    ensures noted { OnOk result ((folder : List ℕ) → puts_below folder write.now ≡ true → contains path_cmp folders.new folder ≡ true) }
{
    match write {
        Write::Put { path, .. } => note_folders(alloc, folders, path.as_slice()),
        Write::Remove { .. } => Ok(()),
    }
}

fn slot_puts_below(folder: &[u8], slot: &Option<Write>) -> bool
    ensures { result ≡ slot_puts_below_of folder.now slot.now }
{
    match slot {
        Some(Write::Put { path, .. }) => lies_below(folder, path.as_slice()),
        Some(Write::Remove { .. }) => false,
        None => false,
    }
}

fn has_put_below(slots: &[Option<Write>], folder: &[u8]) -> bool
    ensures { result ≡ list_any (slot_puts_below_of folder.now) slots.now }
{
    slots.iter().any(|slot| slot_puts_below(folder, slot))
}

impl Changes {
    /// No change.
    pub fn new(alloc: Global) -> Changes
        ensures { result ≡ [] }
    {
        Changes {
            slots: Vec::new(alloc),
            places: BTreeMap::new(alloc),
            folders: BTreeSet::new(alloc),
        }
    }

    /// The changes in their order, with empty slots between.
    pub fn slots(&self) -> &[Option<Write>]
        ensures slots { kept result.now ≡ self.now }
        ensures paths { AllByRecursion HasStorePath self.now }
    {
        &self.slots
    }

    /// The change of a path.
    pub fn find(&self, path: &Bytes) -> Option<&Write>
        ensures found { IfSome result (λ write. (w : World) → map.get (written w self.now) path.now ≡ left_by write.now) }
        ensures named { IfSome result (λ write. is_written self.now path.now ≡ true) }
        ensures absent { IfNone result (is_written self.now path.now ≡ false) }
        ensures left { IfNone result ((w : World) → map.get (written w self.now) path.now ≡ map.get w path.now) }
    {
        match self.places.get(path) {
            Some(place) => self.slots[*place].as_ref(),
            None => None,
        }
    }

    pub fn has(&self, path: &Bytes) -> bool
        ensures { result ≡ is_written self.now path.now }
    {
        self.find(path).is_some()
    }

    /// Whether a file is put below the folder.
    #[tactic(auto, using(crate::proofs::Slots::kept_below, crate::proofs::Folders::none_below))]
    pub fn put_below(&self, folder: &Bytes) -> bool
        ensures below { result ≡ list_any (puts_below folder.now) self.now }
        ensures apart { AreApart self.now }
    {
        if !self.folders.contains(folder) {
            return false;
        }
        has_put_below(&self.slots, folder.as_slice())
    }

    /// Makes the write the last of all, in place of an earlier one of its path. At Err the changes are as they were.
    pub fn set(&mut self, alloc: Global, write: Write) -> Result<(), AllocError>
        requires { HasStorePath write }
        ensures ok { OnOk result (self.new ≡ with_last self.old write) }
        ensures done { OnOk result ((w : World) → written w self.new ≡ after (written w self.old) write) }
        ensures free { OnOk result ((w : World) → IsWorld w → are_free w self.old ≡ true → MayFollow w self.old write → are_free w self.new ≡ true) }
        ensures draft { is_draft self.new ≡ true }
        ensures err { OnErr result (self.new ≡ self.old) }
    {
        note_write(alloc, &mut self.folders, &write)?;
        set_slot(alloc, &mut self.slots, &mut self.places, write)?;
        Ok(())
    }
}
