//! Lists that a merge answers.

ghost use Rattle.std.specs.Prelude.{◌≡◌};

use index_file::IndexEntry;
use seq_base::{Bytes, Path};
use stage_index::ConflictFile;
use std::marker::Model;

/// The texts of blobs. Contracts see their list.
#[derive(Debug, Drop)]
pub struct Texts {
    held: Vec<Bytes>,
}

impl Model for Texts {
    ghost use Rattle.std.specs.Prelude.{List, ℕ};

    ghost Value = { List (List ℕ) };

    ghost view = { λ x. x.held.items };
}

impl Texts {
    pub fn from_vec(held: Vec<Bytes>) -> Texts
        ensures { result ≡ held.items }
    {
        Texts { held }
    }

    pub fn as_slice(&self) -> &[Bytes]
        ensures { result.now ≡ self.now }
    {
        &self.held
    }

    pub fn into_vec(self) -> Vec<Bytes>
        ensures { result.items ≡ self }
    {
        self.held
    }
}

/// The entries of an index. Contracts see their list.
#[derive(Debug, Drop)]
pub struct IndexEntries {
    held: Vec<IndexEntry>,
}

impl Model for IndexEntries {
    ghost use Rattle.std.specs.Prelude.{List};
    ghost use Rattle.index_file.specs.declared.entry.IndexEntry.{IndexEntry};

    ghost Value = { List IndexEntry };

    ghost view = { λ x. x.held.items };
}

impl IndexEntries {
    pub fn from_vec(held: Vec<IndexEntry>) -> IndexEntries
        ensures { result ≡ held.items }
    {
        IndexEntries { held }
    }

    pub fn as_slice(&self) -> &[IndexEntry]
        ensures { result.now ≡ self.now }
    {
        &self.held
    }

    pub fn into_vec(self) -> Vec<IndexEntry>
        ensures { result.items ≡ self }
    {
        self.held
    }
}

/// Paths with what a conflict leaves at them. Contracts see their list.
#[derive(Debug, Drop)]
pub struct ConflictFiles {
    held: Vec<(Path, ConflictFile)>,
}

impl Model for ConflictFiles {
    ghost use Rattle.std.specs.Prelude.{List, ℕ};
    ghost use Rattle.stage_index.specs.declared.conflict.ConflictFile.{ConflictFile};

    ghost Value = { List (List ℕ × ConflictFile) };

    ghost view = { λ x. x.held.items };
}

impl ConflictFiles {
    pub fn from_vec(held: Vec<(Path, ConflictFile)>) -> ConflictFiles
        ensures { result ≡ held.items }
    {
        ConflictFiles { held }
    }

    pub fn as_slice(&self) -> &[(Path, ConflictFile)]
        ensures { result.now ≡ self.now }
    {
        &self.held
    }

    pub fn into_vec(self) -> Vec<(Path, ConflictFile)>
        ensures { result.items ≡ self }
    {
        self.held
    }
}
