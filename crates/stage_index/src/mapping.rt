//! The map of an index.

ghost use Rattle.std.specs.Prelude.{◌≡◌, ◌≢◌, IfOk};
ghost use Rattle.std.specs.List.{AllByRecursion};
ghost use Rattle.index_file.specs.Entries.{IsInOrder};
ghost use Rattle.stage_index.specs.Mapping.{GivesMap, IsClashOf, mapped, with_entry as with_entry_of};
ghost use Rattle.stage_index.specs.Stages.{map_of};

use crate::fault::StageFault;
use index_file::IndexEntry;
use seq_base::{Entry, InsertFault, Mode, Path, PathMap};
use std::alloc::Global;

/// That the path clashes, if it can be copied.
fn clash(path: &Path) -> StageFault
    ensures { IsClashOf path.now result }
{
    match path.copy() {
        Ok(path) => StageFault::Clash { path },
        Err(_) => StageFault::Memory,
    }
}

/// The map with a further entry.
fn with_entry(map: PathMap, entry: &IndexEntry) -> Result<PathMap, StageFault>
    requires { entry.now.mode ≢ Mode.Folder }
    ensures { GivesMap (λ map. map) result (with_entry_of map entry.now) }
{
    let mut map = map;
    if entry.stage != 0 {
        return Err(StageFault::Unmerged {
            path: entry.path.copy()?,
        });
    }
    let row = Entry {
        mode: entry.mode,
        id: entry.id,
    };
    match map.insert(entry.path.copy()?, row) {
        Ok(()) => Ok(map),
        Err(InsertFault::Clash { .. }) => Err(clash(&entry.path)),
        Err(InsertFault::Memory) => Err(StageFault::Memory),
    }
}

/// The map of entries, which are all merged (git-write-tree(1)). The first that is not is Unmerged, and one whose path would be a folder
/// of an earlier one, or lies below it, is Clash.
#[tactic(auto, unfolding(crate::specs::Mapping::with_entries))]
pub fn to_map(alloc: Global, entries: &[IndexEntry]) -> Result<PathMap, StageFault>
    requires { AllByRecursion (λ e. e.mode ≢ Mode.Folder) entries.now }
    ensures gives { GivesMap (λ map. map) result (mapped entries.now) }

    // It follows from `gives`.
    ensures map { IsInOrder entries.now → IfOk result (λ map. map ≡ map_of entries.now) }
{
    let mut map = PathMap::new(alloc);
    let mut rest = entries;
    while let [entry, after @ ..] = rest {
        map = with_entry(map, entry)?;
        rest = after;
    }
    Ok(map)
}
