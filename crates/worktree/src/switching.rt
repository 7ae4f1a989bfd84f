//! Index and files, switched to another map.

ghost use Rattle.std.specs.Prelude.{◌≡◌, ◌<◌, ◌^◌, IfOk, length};
ghost use Rattle.index_file.specs.Entries.{IsInOrder};
ghost use Rattle.seq_outside.specs.Halts.{Gives, halt_cause};
ghost use Rattle.seq_outside.specs.Seen.{Reads, Writes, store_cause};
ghost use Rattle.seq_outside.specs.Turns.{Turns};
ghost use Rattle.stage_index.specs.Switching.{first_obstructed as first_obstructed_in};
ghost use Rattle.worktree.specs.Own.{OthersStay, UnrelatedStay};
ghost use Rattle.worktree.specs.Switches.{IsSwitchFront, switched, switched_clear, unobstructed};

use crate::make::make_writes;
use crate::obstacle::first_obstructed;
use crate::writes::clear_writes;
use index_file::IndexEntry;
use seq_base::{Bytes, Path, PathMap};
use seq_outside::{Halt, Lack, Store, StoreError};
use stage_index::from_map;
use std::alloc::Global;

/// The least path of the map that would be written where an untracked file is in its way: at the path, in the place of one of its
/// folders, or below it (git-read-tree(1), "Two Tree Merge").
pub fn obstructed_path<S: Store>(
    alloc: Global,
    store: &mut S,
    from: &[IndexEntry],
    to: &PathMap,
) -> Result<Option<Path>, StoreError>
    requires order { IsInOrder from.now }
    requires few { length to.now < 2 ^ 32 }
    ensures found { S.told → IfOk result (λ found. found ≡ first_obstructed_in (S.seen store.old).content from.now to.now) }
    ensures reads { Reads S.told store_cause result (S.seen store.old) (S.seen store.new) }
{
    let index = from_map(alloc, to)?;
    first_obstructed(alloc, store, from, &index)
}

/// Stops at the least path in whose way an untracked file is.
#[tactic(auto, unfolding(crate::specs::Switches::unobstructed))]
fn stop_obstructed<S: Store>(
    alloc: Global,
    store: &mut S,
    from: &[IndexEntry],
    to: &PathMap,
) -> Result<(), Halt<Lack>>
    requires order { IsInOrder from.now }
    requires few { length to.now < 2 ^ 32 }
    ensures gives { S.told → Gives (λ x. x) result (unobstructed (S.seen store.old).content from.now to.now) }
    ensures reads { Reads S.told halt_cause result (S.seen store.old) (S.seen store.new) }
{
    match obstructed_path(alloc, store, from, to)? {
        Some(path) => {
            let path = Bytes::from_vec(path.bytes().to_vec(alloc)?);
            Err(Halt::Stops(Lack::Way { path }))
        }
        None => Ok(()),
    }
}

/// Switches index and files from what an index tracks to a map, where `obstructed_path` is None: what is tracked no longer is
/// removed, then the index is written, then the files, in path order. All blobs are read before anything changes. The first that is
/// missing, damaged or of another kind is Object, and one that is too large Limit. A blocked put is Way, and those before it have been
/// made. Whatever ends it, a front of the writes was made.
#[tactic(auto, unfolding(crate::specs::Switches::switched_clear), using(crate::proofs::Owning::own_none, crate::proofs::Unrelated::unrelated_stay))]
pub fn switch_clear<S: Store>(
    alloc: Global,
    store: &mut S,
    from: &[IndexEntry],
    to: &PathMap,
) -> Result<(), Halt<Lack>>
    requires order { IsInOrder from.now }
    requires few { length to.now < 2 ^ 32 }
    ensures turns { S.told → Turns (λ x. x) result (switched_clear from.now to.now (S.seen store.old).content) (S.seen store.new).content }
    ensures front { S.told → IsSwitchFront from.now to.now (S.seen store.old).content (S.seen store.new).content }
    ensures unrelated { S.told → UnrelatedStay from.now to.now (S.seen store.old).content (S.seen store.new).content }
    ensures elsewhere { S.told → OthersStay (S.seen store.old).content (S.seen store.new).content }
    ensures writes { Writes S.told halt_cause result (S.seen store.old) (S.seen store.new) }
{
    let writes = clear_writes(alloc, store, from, to)?;
    make_writes(alloc, store, writes)
}

/// Switches index and files from what an index tracks to a map (git-read-tree(1), "Two Tree Merge"; git-switch(1)). The least path
/// that would be written where an untracked file is in its way is Way, and nothing has changed. Else it is `switch_clear`, whose own Way
/// may come behind some of its writes.
#[tactic(auto, unfolding(crate::specs::Switches::switched), using(crate::proofs::Unrelated::unrelated_stay))]
pub fn switch<S: Store>(
    alloc: Global,
    store: &mut S,
    from: &[IndexEntry],
    to: &PathMap,
) -> Result<(), Halt<Lack>>
    requires order { IsInOrder from.now }
    requires few { length to.now < 2 ^ 32 }
    ensures turns { S.told → Turns (λ x. x) result (switched from.now to.now (S.seen store.old).content) (S.seen store.new).content }
    ensures front { S.told → IsSwitchFront from.now to.now (S.seen store.old).content (S.seen store.new).content }
    ensures unrelated { S.told → UnrelatedStay from.now to.now (S.seen store.old).content (S.seen store.new).content }
    ensures elsewhere { S.told → OthersStay (S.seen store.old).content (S.seen store.new).content }
    ensures writes { Writes S.told halt_cause result (S.seen store.old) (S.seen store.new) }
{
    stop_obstructed(alloc, store, from, to)?;
    switch_clear(alloc, store, from, to)
}
