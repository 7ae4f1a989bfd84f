//! The map of a tree and of a commit's tree, and the writing of a map's trees, where it is told what is lacked.

ghost use Rattle.std.specs.Prelude.{◌≡◌, IfOk};
ghost use Rattle.object_text.specs.TreeMaps.{root_of};
ghost use Rattle.seq_outside.specs.Halts.{Gives, halt_cause};
ghost use Rattle.seq_outside.specs.Seen.{Reads, Writes};
ghost use Rattle.seq_outside.specs.Store.{KeepsFiles, StaysOutside};
ghost use Rattle.seq_outside.specs.Turns.{Turns};
ghost use Rattle.path_trees.specs.Halts.{halt_of_put, halt_of_read};
ghost use Rattle.path_trees.specs.Named.{commit_map, map_named};
ghost use Rattle.objects.specs.Named.{is_object_place};
ghost use Rattle.path_trees.specs.Puts.{trees_put};

use crate::fault::TreeFault;
use crate::read::read_map;
use crate::write::write_map;
use objects::read_commit;
use seq_base::{Id, PathMap};
use seq_outside::{Halt, Lack, LimitWhat, Store};
use std::alloc::Global;

fn over(what: LimitWhat, number: u64) -> Halt<Lack>
    ensures { result ≡ Halt.Stops (Lack.Limit what number) }
{
    Halt::Stops(Lack::Limit { what, number })
}

fn read_halt(fault: TreeFault) -> Halt<Lack>
    ensures { result ≡ halt_of_read fault }
{
    match fault {
        TreeFault::BadObject { id } => Halt::Stops(Lack::Object { id }),
        TreeFault::TooLarge { length } => over(LimitWhat::ObjectBytes, length),
        TreeFault::Depth => over(LimitWhat::TreeDepth, 257),
        TreeFault::Blocked { .. } => Halt::Fault,
        TreeFault::Fault => Halt::Fault,
        TreeFault::Memory => Halt::Memory,
    }
}

/// The map of a tree. Of the objects that are met, the first that is no tree or cannot be read is Object, or Limit where it is too
/// large; a tree below 256 others is Limit.
#[tactic(auto, using(crate::proofs::Naming::map_ok, crate::proofs::Naming::map_err))]
pub fn read_tree_map<S: Store>(alloc: Global, store: &mut S, id: Id) -> Result<PathMap, Halt<Lack>>
    ensures gives { S.told → Gives (λ m. m) result (map_named (S.seen store.old).content id) }
    ensures reads { Reads S.told halt_cause result (S.seen store.old) (S.seen store.new) }
{
    match read_map(alloc, store, id) {
        Ok(map) => Ok(map),
        Err(fault) => Err(read_halt(fault)),
    }
}

/// The map of a commit's tree.
#[tactic(auto, unfolding(crate::specs::Named::commit_map))]
pub fn read_commit_map<S: Store>(
    alloc: Global,
    store: &mut S,
    id: Id,
) -> Result<PathMap, Halt<Lack>>
    ensures gives { S.told → Gives (λ m. m) result (commit_map (S.seen store.old).content id) }
    ensures reads { Reads S.told halt_cause result (S.seen store.old) (S.seen store.new) }
{
    let commit = read_commit(alloc, store, id)?;
    read_tree_map(alloc, store, commit.tree)
}

fn put_halt(fault: TreeFault) -> Halt<Lack>
    ensures { result ≡ halt_of_put fault }
{
    match fault {
        TreeFault::BadObject { id } => Halt::Stops(Lack::Place { id }),
        TreeFault::TooLarge { length } => over(LimitWhat::ObjectBytes, length),
        TreeFault::Depth => over(LimitWhat::TreeDepth, 257),
        TreeFault::Blocked { path } => Halt::Stops(Lack::Way { path }),
        TreeFault::Fault => Halt::Fault,
        TreeFault::Memory => Halt::Memory,
    }
}

/// Puts the trees of a map, and answers the root's id (git-write-tree(1)). Limit where a tree lies below 256 others, which is judged
/// first; else, of the first tree that is not put, Limit where it is too large, Place where another text stands in its file, and Way
/// where another file is in its way. The trees that were put before stay, and whatever ends it, so does each file that stood.
#[tactic(auto, using(crate::proofs::Naming::not_put, crate::proofs::Naming::put_halts))]
pub fn write_trees<S: Store>(alloc: Global, store: &mut S, map: &PathMap) -> Result<Id, Halt<Lack>>
    ensures turns { S.told → Turns (λ id. id) result (trees_put map.now (S.seen store.old).content) (S.seen store.new).content }
    ensures id { IfOk result (λ id. id ≡ root_of map.now) }
    ensures keeps { S.told → KeepsFiles (S.seen store.old).content (S.seen store.new).content }
    ensures elsewhere { S.told → StaysOutside is_object_place (S.seen store.old).content (S.seen store.new).content }
    ensures writes { Writes S.told halt_cause result (S.seen store.old) (S.seen store.new) }
{
    match write_map(alloc, store, map) {
        Ok(id) => Ok(id),
        Err(fault) => Err(put_halt(fault)),
    }
}
