//! Commits and maps of trees, by their ids.

ghost use Rattle.std.specs.Prelude.{◌≡◌, IfOk};
ghost use Rattle.object_text.specs.Commits.{IsCommitValue};
ghost use Rattle.objects.specs.Named.{commit_named};
ghost use Rattle.path_trees.specs.Named.{commit_map as commit_map_of, map_named};
ghost use Rattle.seq_model.specs.Refusing.{denied_file};
ghost use Rattle.seq_outside.specs.Halts.{Gives, for_reason, halt_cause};
ghost use Rattle.seq_outside.specs.Seen.{Reads};

use crate::halt::file_halt;
use object_text::Commit;
use objects::read_commit;
use path_trees::{read_commit_map, read_tree_map};
use seq_base::{Id, PathMap};
use seq_model::Denial;
use seq_outside::{Halt, Store};
use std::alloc::Global;

/// The commit of an id, with no tag in between. BadObject, or Limit, where it cannot be read.
pub fn commit_of<S: Store>(alloc: Global, id: Id, store: &mut S) -> Result<Commit, Halt<Denial>>
    ensures gives { S.told → Gives (λ c. c) result (for_reason denied_file (commit_named (S.seen store.old).content id)) }
    ensures value { IfOk result IsCommitValue }
    ensures reads { Reads S.told halt_cause result (S.seen store.old) (S.seen store.new) }
{
    match read_commit(alloc, store, id) {
        Ok(commit) => Ok(commit),
        Err(halt) => Err(file_halt(halt)),
    }
}

/// The map of a tree. BadObject, or Limit, of the first tree that cannot be read.
pub fn tree_map<S: Store>(alloc: Global, tree: Id, store: &mut S) -> Result<PathMap, Halt<Denial>>
    ensures gives { S.told → Gives (λ m. m) result (for_reason denied_file (map_named (S.seen store.old).content tree)) }
    ensures reads { Reads S.told halt_cause result (S.seen store.old) (S.seen store.new) }
{
    match read_tree_map(alloc, store, tree) {
        Ok(map) => Ok(map),
        Err(halt) => Err(file_halt(halt)),
    }
}

/// The map of a commit's tree.
pub fn commit_map<S: Store>(alloc: Global, id: Id, store: &mut S) -> Result<PathMap, Halt<Denial>>
    ensures gives { S.told → Gives (λ m. m) result (for_reason denied_file (commit_map_of (S.seen store.old).content id)) }
    ensures reads { Reads S.told halt_cause result (S.seen store.old) (S.seen store.new) }
{
    match read_commit_map(alloc, store, id) {
        Ok(map) => Ok(map),
        Err(halt) => Err(file_halt(halt)),
    }
}
