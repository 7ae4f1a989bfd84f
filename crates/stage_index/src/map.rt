//! The index that has a map's entries.

ghost use Rattle.std.specs.Prelude.{◌≡◌, ◌<◌, ◌^◌, IfOk, length};
ghost use Rattle.index_file.specs.Entries.{IsInOrder, IsIndex};
ghost use Rattle.index_file.specs.Index.{indexed};
ghost use Rattle.stage_index.specs.Stages.{map_of};

use index_file::IndexEntry;
use seq_base::{Entry, Path, PathMap};
use std::alloc::{AllocError, Global};

/// The entry of a path, merged.
fn merged(path: Path, entry: Entry) -> IndexEntry
    ensures { result ≡ record { path = path; stage = 0; mode = entry.mode; id = entry.id } }
{
    IndexEntry {
        path,
        stage: 0,
        mode: entry.mode,
        id: entry.id,
    }
}

fn copied(alloc: Global, map: &PathMap) -> Result<Vec<IndexEntry>, AllocError>
    ensures { IfOk result (λ entries. entries.items ≡ indexed map.now) }
{
    let mut entries = Vec::new(alloc);
    let mut n = 0;
    while let Some((path, entry)) = map.at(n) {
        let _length = map.len();
        entries.push(merged(path.copy()?, entry))?;
        n += 1;
    }
    Ok(entries)
}

/// The map's entries, each merged (git-read-tree(1)).
pub fn from_map(alloc: Global, map: &PathMap) -> Result<Vec<IndexEntry>, AllocError>
    ensures indexed { IfOk result (λ entries. entries.items ≡ indexed map.now) }

    // They follow from `indexed`.
    ensures order { IfOk result (λ entries. IsInOrder entries.items) }
    ensures index { IfOk result (λ entries. length map.now < 2 ^ 32 → IsIndex entries.items) }
    ensures map { IfOk result (λ entries. map_of entries.items ≡ map.now) }
{
    let _length = map.len();
    let entries = copied(alloc, map)?;
    Ok(entries)
}
