//! Writing the trees of a map.

ghost use Rattle.std.specs.Prelude.{◌≡◌, ◌==◌, ◌↔◌, ◌≤◌, IfOk, IsErrOf, Ok, OnOk, length, map as each, true};
ghost use Rattle.std.specs.List.{AllByRecursion, position};
ghost use Rattle.object_text.specs.TreeMaps.{is_too_deep as is_too_deep_map, map_at, root_of, tree_id, tree_object, trees_of};
ghost use Rattle.object_text.specs.Trees.{HaveIds, IsTreeOrder};
ghost use Rattle.objects.specs.Named.{is_object_place};
ghost use Rattle.objects.specs.Puts.{object_put};
ghost use Rattle.seq_outside.specs.Seen.{Writes};
ghost use Rattle.seq_outside.specs.Store.{KeepsFiles, StaysOutside};
ghost use Rattle.path_trees.specs.Faults.{tree_cause};
ghost use Rattle.path_trees.specs.Puts.{AllPut, GoesOnBehind, HasPut, cut, folder_put, trees_put};
ghost use Rattle.path_trees.specs.Puts.{count_inside as count_inside_folder};

use crate::chain::is_too_deep;
use crate::fault::{TreeFault, put_fault};
use object_text::{Kind, TreeEntry, tree_text};
use objects::put;
use seq_base::{Bytes, Entry, Id, Mode, Path, PathMap};
use seq_outside::Store;
use std::alloc::{AllocError, Global};

/// Puts the tree of these entries, and answers its id.
fn put_tree<S: Store>(alloc: Global, store: &mut S, entries: &[TreeEntry]) -> Result<Id, TreeFault>
    requires { IsTreeOrder entries.now }
    ensures put { S.told → HasPut result (object_put (tree_object entries.now) (S.seen store.old).content) (S.seen store.new).content }
    ensures root { IfOk result (λ id. id ≡ tree_id entries.now) }
    ensures ids { OnOk result (HaveIds entries.now) }
    ensures depth { IsErrOf result TreeFault.Depth → ⊥ }
    ensures keeps { S.told → KeepsFiles (S.seen store.old).content (S.seen store.new).content }
    ensures elsewhere { S.told → StaysOutside is_object_place (S.seen store.old).content (S.seen store.new).content }
    ensures writes { Writes S.told tree_cause result (S.seen store.old) (S.seen store.new) }
{
    let text = tree_text(alloc, entries)?;
    match put(alloc, store, Kind::Tree, &text) {
        Ok(id) => Ok(id),
        Err(fault) => Err(put_fault(fault)),
    }
}

fn entry(alloc: Global, mode: Mode, name: &[u8], id: Id) -> Result<TreeEntry, AllocError>
    ensures { IfOk result (λ entry. entry ≡ record { mode = mode; name = name.now; id = id }) }
{
    let name = Bytes::from_vec(Vec::from_slice(alloc, name)?);
    Ok(TreeEntry { mode, name, id })
}

/// Where the first part of a path ends, unless it is the last.
fn slash_at(path: &[u8]) -> Option<usize>
    ensures { result ≡ position (λ b. b == 47) path.now }
{
    path.iter().position(|b| *b == b'/')
}

/// How many of the first rows stand in the folder of this name with its slash.
fn count_inside(rows: &[(Path, Entry)], skip: usize, folder: &[u8]) -> usize
    requires { AllByRecursion (λ e. skip ≤ length e.0) rows.now }
    ensures count { result ≡ count_inside_folder folder.now (cut skip rows.now) }
    ensures within { result ≤ length rows.now }
{
    let mut count = 0;
    let mut rest = rows;
    while let [row, after @ ..] = rest {
        if !row.0.bytes()[skip..].starts_with(folder) {
            return count;
        }
        count += 1;
        rest = after;
    }
    count
}

/// Puts the trees of a folder whose own path has so many bytes, its slash among them: those of its subfolders in their order, and
/// its own behind them, whose id it answers.
fn put_folder<S: Store>(
    alloc: Global,
    store: &mut S,
    rows: &[(Path, Entry)],
    skip: usize,
) -> Result<Id, TreeFault>
    requires { GoesOnBehind skip rows.now }
    ensures put { S.told → HasPut result (folder_put (cut skip rows.now) (S.seen store.old).content) (S.seen store.new).content }
    ensures root { IfOk result (λ id. id ≡ root_of (cut skip rows.now)) }
    ensures ids { OnOk result (AllByRecursion (λ e. length e.1.id ≡ 20) rows.now) }
    ensures depth { IsErrOf result TreeFault.Depth → ⊥ }
    ensures keeps { S.told → KeepsFiles (S.seen store.old).content (S.seen store.new).content }
    ensures elsewhere { S.told → StaysOutside is_object_place (S.seen store.old).content (S.seen store.new).content }
    ensures writes { Writes S.told tree_cause result (S.seen store.old) (S.seen store.new) }
{
    let mut entries = Vec::new(alloc);
    let mut rest = rows;
    while let [row, after @ ..] = rest {
        let path = &row.0.bytes()[skip..];
        match slash_at(path) {
            None => {
                entries.push(entry(alloc, row.1.mode, path, row.1.id)?)?;
                rest = after;
            }
            Some(at) => {
                let (inside, others) = rest.split_at(count_inside(rest, skip, &path[..at + 1]));
                let id = put_folder(alloc, store, inside, skip + at + 1)?;
                entries.push(entry(alloc, Mode::Folder, &path[..at], id)?)?;
                rest = others;
            }
        }
    }
    put_tree(alloc, store, &entries)
}

/// Puts the trees of a map, one for each folder, a folder after its subfolders and the root last, and answers the root's id
/// (git-write-tree(1)), whose map is the map again. Depth where a path has more than 256 parts, which is judged first; else, of the
/// first tree that is not put, TooLarge where its content is larger than an object may be, BadObject where another text stands in its
/// file, and Blocked where another file is in its way. Then the trees that were put before stay: who wants none of them writes into a
/// draft. Whatever ends it, each file that stood is as it was.
pub fn write_map<S: Store>(alloc: Global, store: &mut S, map: &PathMap) -> Result<Id, TreeFault>
    ensures trees { S.told → HasPut result (trees_put map.now (S.seen store.old).content) (S.seen store.new).content }
    ensures root { IfOk result (λ id. id ≡ root_of map.now) }
    ensures depth { IsErrOf result TreeFault.Depth ↔ (is_too_deep_map map.now ≡ true) }
    ensures objects { S.told → OnOk result (AllPut (S.seen store.old).content (each tree_object (trees_of map.now)) (S.seen store.new).content) }
    ensures reads { S.told → IfOk result (λ root. map_at (S.seen store.new).content root ≡ Ok map.now) }
    ensures keeps { S.told → KeepsFiles (S.seen store.old).content (S.seen store.new).content }
    ensures elsewhere { S.told → StaysOutside is_object_place (S.seen store.old).content (S.seen store.new).content }
    ensures writes { Writes S.told tree_cause result (S.seen store.old) (S.seen store.new) }
{
    let rows = map.entries();
    if is_too_deep(rows) {
        return Err(TreeFault::Depth);
    }
    put_folder(alloc, store, rows, 0)
}
