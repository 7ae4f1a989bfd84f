//! The map of a tree.

ghost use Rattle.std.specs.Prelude.{◌≡◌, [], IfErr, OnOk};
ghost use Rattle.object_text.specs.TreeMaps.{is_folder as is_folder_mode, map_at, map_below};
ghost use Rattle.seq_outside.specs.Seen.{Reads};
ghost use Rattle.path_trees.specs.Faults.{tree_cause};
ghost use Rattle.path_trees.specs.Reads.{Blames, Gives};
ghost use Rattle.path_trees.specs.Rows.{HasAdded, IsFolder};

use crate::fault::TreeFault;
use crate::rows::rows_of;
use crate::tree::tree_of;
use seq_base::{Entry, Id, Mode, Path, PathMap};
use seq_outside::Store;
use std::alloc::Global;

fn is_folder(mode: Mode) -> bool
    ensures { result ≡ is_folder_mode mode }
{
    match mode {
        Mode::Folder => true,
        Mode::File | Mode::Exec | Mode::Link | Mode::Gitlink => false,
    }
}

/// Adds what a tree has below a folder, at most so many trees deep.
fn add_tree<S: Store>(
    alloc: Global,
    store: &mut S,
    depth: u32,
    folder: &[u8],
    id: Id,
    out: &mut Vec<(Path, Entry)>,
) -> Result<(), TreeFault>
    requires { IsFolder folder.now }
    ensures adds { OnOk result (HasAdded S.told folder.now out.old.items out.new.items (map_below depth (S.seen store.old).content folder.now id)) }
    ensures fault { S.told → IfErr result (λ e. Blames (S.seen store.old).content e (map_below depth (S.seen store.old).content folder.now id)) }
    ensures reads { Reads S.told tree_cause result (S.seen store.old) (S.seen store.new) }
{
    if depth == 0 {
        return Err(TreeFault::Depth);
    }
    let entries = tree_of(alloc, store, id)?;
    let mut rows = rows_of(alloc, folder, entries, id)?;
    'rows: while let Some((path, entry)) = rows.pop() {
        if is_folder(entry.mode) {
            add_tree(alloc, store, depth - 1, path.bytes(), entry.id, out)?;
        } else {
            out.push((path, entry))?;
        }
    }
    Ok(())
}

/// The map of a tree: what it and the trees below it have at their paths (git-ls-tree(1), `-r`). Of the objects that are met,
/// a tree before its subtrees and in the order of entries, the first that is no tree, cannot be read, or has an entry whose path
/// is none is BadObject, or TooLarge where its content passes the limit; a tree below 256 others is Depth.
#[tactic(auto, unfolding(object_text::specs::TreeMaps::map_at))]
pub fn read_map<S: Store>(alloc: Global, store: &mut S, tree: Id) -> Result<PathMap, TreeFault>
    ensures gives { S.told → Gives (λ map. map) (S.seen store.old).content result (map_at (S.seen store.old).content tree) }
    ensures reads { Reads S.told tree_cause result (S.seen store.old) (S.seen store.new) }
{
    let mut entries = Vec::new(alloc);
    add_tree(alloc, store, 256, &[], tree, &mut entries)?;
    Ok(PathMap::from_entries(entries))
}
