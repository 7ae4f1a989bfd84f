//! The paths of a tree's entries.

ghost use Rattle.std.specs.Prelude.{◌≡◌, IfErr, IfOk};
ghost use Rattle.object_text.specs.TreeMaps.{below};
ghost use Rattle.object_text.specs.Trees.{IsTreeOrder};
ghost use Rattle.seq_base.specs.Paths.{IsPath, IsPathFaultOrMemory};
ghost use Rattle.path_trees.specs.Faults.{path_fault_at};
ghost use Rattle.path_trees.specs.Rows.{GivesRows, IsFolder};

use crate::fault::TreeFault;
use object_text::TreeEntry;
use seq_base::{Entry, Id, Path, PathFault};
use std::alloc::Global;

/// The path of a name below a folder, or why it is none.
fn path_below(alloc: Global, folder: &[u8], name: &[u8]) -> Result<Path, PathFault>
    requires { IsFolder folder.now }
    ensures ok { IfOk result (λ path. (path ≡ below folder.now name.now) × IsPath (below folder.now name.now)) }
    ensures fault { IfErr result (IsPathFaultOrMemory (below folder.now name.now)) }
{
    if folder.is_empty() {
        Path::new(alloc, name)
    } else {
        Path::below(alloc, folder, name)
    }
}

/// What is answered of a tree with an entry whose path is none.
fn fault_of_path(id: Id, fault: PathFault) -> TreeFault
    ensures { result ≡ path_fault_at id fault }
{
    match fault {
        PathFault::Empty => TreeFault::BadObject { id },
        PathFault::TooLong { .. } => TreeFault::BadObject { id },
        PathFault::NotUtf8 { .. } => TreeFault::BadObject { id },
        PathFault::BadPart { .. } => TreeFault::BadObject { id },
        PathFault::Memory => TreeFault::Memory,
    }
}

/// What the entries of a tree have at their paths below a folder, the last entry first. All the paths are judged.
pub fn rows_of(
    alloc: Global,
    folder: &[u8],
    entries: Vec<TreeEntry>,
    id: Id,
) -> Result<Vec<(Path, Entry)>, TreeFault>
    requires folder { IsFolder folder.now }
    requires order { IsTreeOrder entries.items }
    ensures { GivesRows folder.now id entries.items result }
{
    let mut entries = entries;
    let mut rows = Vec::new(alloc);
    'rows: while let Some(e) = entries.pop() {
        match path_below(alloc, folder, e.name.as_slice()) {
            Ok(path) => rows.push((
                path,
                Entry {
                    mode: e.mode,
                    id: e.id,
                },
            ))?,
            Err(fault) => return Err(fault_of_path(id, fault)),
        }
    }
    Ok(rows)
}
