//! Maps from paths to entries.

ghost use Rattle.std.specs.Prelude.{◌≡◌, ◌≢◌, ◌≤◌, IfErr, MatchOption, None, OnErr, OnOk, Some, [], length, slice_get};
ghost use Rattle.std.specs.Cmp.Lexicographic.{slice_cmp};
ghost use Rattle.std.specs.Ordering.{nat_cmp};
ghost use Rattle.seq_base.specs.PathMaps.{is_less, clashes, entry_at, put, first_clash, IsPathMap, IsPlace};
ghost use Rattle.seq_base.specs.InsertFaults.{IsInsertFault};

use crate::id::Id;
use crate::mode::Mode;
use crate::path::{Path, comes_before};
use crate::store_path::lies_below;
use std::alloc::{AllocError, Global};
use std::cmp::Ordering;
use std::marker::Model;
use thiserror::Error;

/// What a tree or an index has at a path.
#[derive(Clone, Copy, Debug, PartialEq, Eq)]
pub struct Entry {
    pub mode: Mode,
    pub id: Id,
}

/// A map from paths to entries, none of which is a folder, and in which no path lies below another. Contracts see the list
/// of path and entry in byte order of the paths.
#[derive(Debug, Drop)]
pub struct PathMap {
    entries: Vec<(Path, Entry)>,
}

impl Model for PathMap {
    ghost use Rattle.std.specs.Prelude.{List, ℕ};
    ghost use Rattle.seq_base.specs.declared.map.Entry.{Entry as EntryValue};
    ghost use Rattle.seq_base.specs.PathMaps.{IsPathMap};

    ghost Value = { List (List ℕ × EntryValue) };

    ghost view = { λ m. m.entries.items };

    ghost invariant = { λ m. IsPathMap m.entries.items };
}

/// Why no entry was put. The map is then as before.
#[derive(Debug, Drop, Error)]
pub enum InsertFault {
    /// The first path of the map that lies below the new one, or that it lies below.
    #[error("one path would be a folder of another")]
    Clash { other: Path },
    #[error("out of memory")]
    Memory,
}

impl PathMap {
    pub fn new(alloc: Global) -> PathMap
        ensures { result ≡ [] }
    {
        PathMap {
            entries: Vec::new(alloc),
        }
    }

    /// The map of these entries, which are in order.
    pub fn from_entries(entries: Vec<(Path, Entry)>) -> PathMap
        requires { IsPathMap entries.items }
        ensures { result ≡ entries.items }
    {
        PathMap { entries }
    }

    /// Gives a path an entry, in place of the one that it has.
    pub fn insert(&mut self, path: Path, entry: Entry) -> Result<(), InsertFault>
        requires { entry.mode ≢ Mode.Folder }
        ensures ok { OnOk result ((self.new ≡ put self.old path entry) × (first_clash self.old path ≡ None)) }
        ensures clash { IfErr result (IsInsertFault self.old path) }
        ensures err { OnErr result (self.new ≡ self.old) }
    {
        if let Some(other) = clash_of(&self.entries, &path) {
            return match Path::new(*self.entries.allocator(), other.bytes()) {
                Ok(other) => Err(InsertFault::Clash { other }),
                Err(_) => Err(InsertFault::Memory),
            };
        }
        match put_entry(&mut self.entries, path, entry) {
            Ok(()) => Ok(()),
            Err(_) => Err(InsertFault::Memory),
        }
    }

    /// What the map has at a path, found by halving.
    pub fn get(&self, path: &Path) -> Option<Entry>
        ensures { result ≡ entry_at self.now path.now }
    {
        entry_of(&self.entries, path)
    }

    /// The paths and what stands at them, in byte order of the paths.
    pub fn entries(&self) -> &[(Path, Entry)]
        ensures entries { result.now ≡ self.now }
        ensures map { IsPathMap self.now }
    {
        &self.entries
    }

    pub fn len(&self) -> usize
        ensures value { result ≡ length self.now }
        ensures map { IsPathMap self.now }
    {
        self.entries.len()
    }

    /// Number n, from 0, in byte order of the paths.
    pub fn at(&self, n: usize) -> Option<(&Path, Entry)>
        ensures { MatchOption result (length self.now ≤ n) (λ x. slice_get self.now n ≡ Some (x.0.now, x.1)) }
    {
        if n >= self.entries.len() {
            return None;
        }
        let e = &self.entries[n];
        Some((&e.0, e.1))
    }
}

fn entry_of(entries: &[(Path, Entry)], path: &Path) -> Option<Entry>
    requires { IsPathMap entries.now }
    ensures { result ≡ entry_at entries.now path.now }
{
    let order = |e: &(Path, Entry)| -> Ordering
        ensures { result ≡ slice_cmp nat_cmp e.now.0 path.entry.now }
    { e.0.cmp(path) };
    match entries.binary_search_by(order) {
        Ok(n) => Some(entries[n].1),
        Err(_) => None,
    }
}

fn do_clash(a: &[u8], b: &[u8]) -> bool
    ensures { result ≡ clashes a.now b.now }
{
    lies_below(a, b) || lies_below(b, a)
}

fn clash_of<'a>(entries: &'a [(Path, Entry)], path: &Path) -> Option<&'a Path>
    ensures { MatchOption result (first_clash entries.now path.now ≡ None) (λ p. first_clash entries.now path.now ≡ Some p.now) }
{
    for e in entries {
        if do_clash(e.0.bytes(), path.bytes()) {
            return Some(&e.0);
        }
    }
    None
}

/// Where the path stands, or is to stand, and whether it is there.
fn place_of(entries: &[(Path, Entry)], path: &Path) -> (usize, bool)
    ensures { IsPlace entries.now path.now result }
{
    for (i, e) in entries.iter().enumerate() {
        if e.0 == *path {
            return (i, true);
        }
        if comes_before(path.bytes(), e.0.bytes()) {
            return (i, false);
        }
    }
    (entries.len(), false)
}

fn put_entry(entries: &mut Vec<(Path, Entry)>, path: Path, entry: Entry) -> Result<(), AllocError>
    ensures ok { OnOk result (entries.new.items ≡ put entries.old.items path entry) }
    ensures err { OnErr result (entries.new.items ≡ entries.old.items) }
{
    let (i, found) = place_of(entries, &path);
    if found {
        entries[i] = (path, entry);
        return Ok(());
    }
    entries.insert(i, (path, entry))?;
    Ok(())
}
