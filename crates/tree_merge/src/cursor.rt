//! A map that is gone through from its first path to its last.

ghost use Rattle.std.specs.Prelude.{◌≡◌};
ghost use Rattle.std.specs.Option.{option_copied};
ghost use Rattle.seq_base.specs.PathMaps.{IsPathMap};
ghost use Rattle.tree_merge.specs.Walks.{after, head_entry, head_path};

use seq_base::{Entry, Path, PathMap};
use std::marker::Model;

/// What is left of a map, which contracts see as a list.
#[derive(Drop)]
pub(crate) struct Cursor<'a> {
    map: &'a PathMap,
    next: usize,
}

impl<'a> Model for Cursor<'a> {
    ghost use Rattle.std.specs.Prelude.{List, ℕ, drop};
    ghost use Rattle.seq_base.specs.declared.map.Entry.{Entry as EntryValue};

    ghost Value = { List (List ℕ × EntryValue) };

    ghost view = { λ c. drop c.next c.map.now };
}

impl<'a> Cursor<'a> {
    pub(crate) fn new(map: &'a PathMap) -> Cursor<'a>
        ensures all { result ≡ map.now }
        ensures map { IsPathMap map.now }
    {
        let _length = map.len();
        Cursor { map, next: 0 }
    }

    pub(crate) fn first(&self) -> Option<&'a Path>
        ensures { option_copied result ≡ head_path self.now }
    {
        match self.map.at(self.next) {
            Some((path, _)) => Some(path),
            None => None,
        }
    }

    /// Takes the entry of the path, where that is the first.
    pub(crate) fn take(&mut self, path: &Path) -> Option<Entry>
        ensures entry { result ≡ head_entry self.old path.now }
        ensures rest { self.new ≡ after self.old path.now }
    {
        let _length = self.map.len();
        let Some((first, entry)) = self.map.at(self.next) else {
            return None;
        };
        if *first != *path {
            return None;
        }
        self.next += 1;
        Some(entry)
    }
}
