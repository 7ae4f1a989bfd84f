//! Writes as data, and their making in a store.

ghost use Rattle.std.specs.List.{AllByRecursion};
ghost use Rattle.std.specs.Prelude.{◌≡◌, true, IfOk, IsErrOf, OnOk, option_map};
ghost use Rattle.seq_outside.specs.Drafts.{is_draft};
ghost use Rattle.seq_outside.specs.Seen.{MakesFront, Writes, store_cause};
ghost use Rattle.seq_base.specs.World.{World};
ghost use Rattle.seq_outside.specs.Slots.{HaveObjects, SlotHasPath, SlotLeaves, all_chosen, chosen as chosen_in, kept};
ghost use Rattle.seq_outside.specs.Writes.{HasStorePath, IsFront, IsOnTheWay, WriteLeaves, are_free, left_by, objects_first, path_of, written};
ghost use Rattle.seq_outside.specs.Writes.{is_of_objects as is_of_objects_in};

use crate::store::{Store, StoreError};
use seq_base::{Bytes, lies_below};
use std::alloc::{AllocError, Global};

/// A change of one file.
#[derive(Debug, Drop)]
pub enum Write {
    /// The file gets these bytes.
    Put { path: Bytes, bytes: Bytes },
    /// The file is removed, if it is there.
    Remove { path: Bytes },
}

impl Write {
    /// The file that is changed.
    pub fn path(&self) -> &[u8]
        ensures { result.now ≡ path_of self.now }
    {
        match self {
            Write::Put { path, .. } | Write::Remove { path } => path.as_slice(),
        }
    }

    /// What the write leaves of its file.
    pub fn bytes(&self, alloc: Global) -> Result<Option<Vec<u8>>, AllocError>
        ensures { IfOk result (λ found. option_map (λ bytes. bytes.items) found ≡ left_by self.now) }
    {
        match self {
            Write::Put { bytes, .. } => Ok(Some(bytes.as_slice().to_vec(alloc)?)),
            Write::Remove { .. } => Ok(None),
        }
    }
}

/// Whether the write is of an object's file, or makes room for such files.
fn is_of_objects(write: &Write) -> bool
    ensures { result ≡ is_of_objects_in write.now }
{
    match write {
        Write::Put { path, .. } => lies_below(b".git/objects", path.as_slice()),
        Write::Remove { path } => {
            lies_below(b".git/objects", path.as_slice())
                || lies_below(path.as_slice(), b".git/objects/")
        }
    }
}

fn make<S: Store>(alloc: Global, store: &mut S, write: &Write) -> Result<(), StoreError>
    requires { HasStorePath write.now }
    ensures leaves { S.told → WriteLeaves result (S.seen store.old).content write.now (S.seen store.new).content }
    ensures writes { Writes S.told store_cause result (S.seen store.old) (S.seen store.new) }
{
    match write {
        Write::Put { path, bytes } => store.put(alloc, path.as_slice(), bytes.as_slice()),
        Write::Remove { path } => {
            let _was_there = store.remove(alloc, path.as_slice())?;
            Ok(())
        }
    }
}

/// The write of a slot, if it is of objects, or if it is not.
fn chosen(slot: &Option<Write>, of_objects: bool) -> Option<&Write>
    ensures { option_map (λ write. write.now) result ≡ chosen_in of_objects slot.now }
{
    match slot {
        Some(write) if is_of_objects(write) == of_objects => Some(write),
        _ => None,
    }
}

/// Makes the write of a slot, if it is of objects, or if it is not.
fn make_chosen<S: Store>(
    alloc: Global,
    store: &mut S,
    slot: &Option<Write>,
    of_objects: bool,
) -> Result<(), StoreError>
    requires { SlotHasPath slot.now }
    ensures leaves { S.told → SlotLeaves result (S.seen store.old).content (chosen_in of_objects slot.now) (S.seen store.new).content }
    ensures writes { Writes S.told store_cause result (S.seen store.old) (S.seen store.new) }
{
    match chosen(slot, of_objects) {
        Some(write) => make(alloc, store, write),
        None => Ok(()),
    }
}

/// Makes the writes that are of objects, or those that are not, in their order, up to the first that fails.
fn make_part<S: Store>(
    alloc: Global,
    store: &mut S,
    slots: &[Option<Write>],
    of_objects: bool,
) -> Result<(), StoreError>
    requires { AllByRecursion HasStorePath (kept slots.now) }
    ensures done { S.told → OnOk result ((S.seen store.new).content ≡ written (S.seen store.old).content (all_chosen of_objects slots.now)) }
    ensures front { S.told → IsFront (S.seen store.old).content (all_chosen of_objects slots.now) (S.seen store.new).content }
    ensures free { S.told → are_free (S.seen store.old).content (all_chosen of_objects slots.now) ≡ true → IsErrOf result StoreError.Blocked → ⊥ }
    ensures writes { Writes S.told store_cause result (S.seen store.old) (S.seen store.new) }
{
    let mut rest = slots;
    while let [slot, after @ ..] = rest {
        make_chosen(alloc, store, slot, of_objects)?;
        rest = after;
    }
    Ok(())
}

/// Makes the writes that are of objects.
fn make_objects<S: Store>(
    alloc: Global,
    store: &mut S,
    slots: &[Option<Write>],
) -> Result<(), StoreError>
    requires { is_draft (kept slots.now) ≡ true }
    ensures done { S.told → OnOk result (HaveObjects (S.seen store.old).content slots.now (S.seen store.new).content) }
    ensures front { S.told → IsFront (S.seen store.old).content (objects_first (kept slots.now)) (S.seen store.new).content }
    ensures on_the_way { S.told → MakesFront (S.seen store.old) (kept slots.now) (S.seen store.new) }
    ensures free { S.told → are_free (S.seen store.old).content (kept slots.now) ≡ true → IsErrOf result StoreError.Blocked → ⊥ }
    ensures writes { Writes S.told store_cause result (S.seen store.old) (S.seen store.new) }
{
    make_part(alloc, store, slots, true)
}

/// Makes the writes that are not of objects. What is said holds where those of objects have been made.
fn make_others<S: Store>(
    alloc: Global,
    store: &mut S,
    slots: &[Option<Write>],
) -> Result<(), StoreError>
    requires { is_draft (kept slots.now) ≡ true }
    ensures done { S.told → (w : World) → HaveObjects w slots.now (S.seen store.old).content
        → OnOk result ((S.seen store.new).content ≡ written w (kept slots.now)) }
    ensures front { S.told → (w : World) → HaveObjects w slots.now (S.seen store.old).content
        → IsFront w (objects_first (kept slots.now)) (S.seen store.new).content }
    ensures on_the_way { S.told → (w : World) → HaveObjects w slots.now (S.seen store.old).content
        → IsOnTheWay w (written w (kept slots.now)) (S.seen store.new).content }
    ensures free { S.told → (w : World) → HaveObjects w slots.now (S.seen store.old).content
        → are_free w (kept slots.now) ≡ true → IsErrOf result StoreError.Blocked → ⊥ }
    ensures writes { Writes S.told store_cause result (S.seen store.old) (S.seen store.new) }
{
    make_part(alloc, store, slots, false)
}

/// Makes the writes, those of objects before all others, up to the first that fails.
pub(crate) fn make_all<S: Store>(
    alloc: Global,
    store: &mut S,
    slots: &[Option<Write>],
) -> Result<(), StoreError>
    requires { is_draft (kept slots.now) ≡ true }
    ensures done { S.told → OnOk result ((S.seen store.new).content ≡ written (S.seen store.old).content (kept slots.now)) }
    ensures front { S.told → IsFront (S.seen store.old).content (objects_first (kept slots.now)) (S.seen store.new).content }
    ensures on_the_way { S.told → MakesFront (S.seen store.old) (kept slots.now) (S.seen store.new) }
    ensures free { S.told → are_free (S.seen store.old).content (kept slots.now) ≡ true → IsErrOf result StoreError.Blocked → ⊥ }
    ensures writes { Writes S.told store_cause result (S.seen store.old) (S.seen store.new) }
{
    make_objects(alloc, store, slots)?;
    make_others(alloc, store, slots)
}
