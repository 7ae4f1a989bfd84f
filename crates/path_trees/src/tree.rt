//! The entries of a tree.

ghost use Rattle.std.specs.Prelude.{◌≡◌, IfOk};
ghost use Rattle.object_text.specs.Store.{entries_if_tree, tree_at};
ghost use Rattle.object_text.specs.Trees.{IsTreeOrder};
ghost use Rattle.seq_outside.specs.Seen.{Reads};
ghost use Rattle.path_trees.specs.Faults.{tree_cause};
ghost use Rattle.path_trees.specs.Reads.{GivesEntries, GivesTree};

use crate::fault::{TreeFault, fault_at};
use object_text::{Kind, Object, TextFault, TreeEntry, parse_tree};
use objects::get;
use seq_base::Id;
use seq_outside::Store;
use std::alloc::Global;

/// The entries of an object, where it is a tree.
fn entries_of(alloc: Global, object: &Object, id: Id) -> Result<Vec<TreeEntry>, TreeFault>
    ensures gives { GivesEntries id result (entries_if_tree object.now.kind object.now.bytes) }
    ensures order { IfOk result (λ entries. IsTreeOrder entries.items) }
{
    match object.kind {
        Kind::Tree => match parse_tree(alloc, object.bytes.as_slice()) {
            Ok(entries) => Ok(entries),
            Err(TextFault::Memory) => Err(TreeFault::Memory),
            Err(TextFault::Bad { .. }) => Err(TreeFault::BadObject { id }),
            Err(TextFault::Parents { .. }) => unreachable!(),
        },
        Kind::Blob | Kind::Commit | Kind::Tag => Err(TreeFault::BadObject { id }),
    }
}

/// The entries of the tree of an id.
pub fn tree_of<S: Store>(alloc: Global, store: &mut S, id: Id) -> Result<Vec<TreeEntry>, TreeFault>
    ensures gives { S.told → GivesTree (S.seen store.old).content id result (tree_at (S.seen store.old).content id) }
    ensures order { IfOk result (λ entries. IsTreeOrder entries.items) }
    ensures reads { Reads S.told tree_cause result (S.seen store.old) (S.seen store.new) }
{
    match get(alloc, store, id) {
        Ok(object) => entries_of(alloc, &object, id),
        Err(fault) => Err(fault_at(id, fault)),
    }
}
