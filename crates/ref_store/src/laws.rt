//! What the steps of `specs/` come to in plain words. Each law is the contract of a function that does nothing.

ghost use Rattle.std.specs.FinMap as map;
ghost use Rattle.std.specs.Prelude.{◌≡◌, ◌≢◌, Err, List, None, Ok, Option, Some, false, true, ℕ};
ghost use Rattle.std.specs.Str.{bytes_eq};
ghost use Rattle.ref_store.specs.Changes.{UpdateIs, deleted, is_barred, is_there};
ghost use Rattle.ref_store.specs.Moves.{LeavesIfOk, head_moved, moved_name};
ghost use Rattle.ref_text.specs.Heads.{IsHeadValue};
ghost use Rattle.ref_store.specs.Paths.{KeepsOthers};
ghost use Rattle.ref_store.specs.Values.{HasValue, head_at, packed_at, value_at};
ghost use Rattle.ref_store.specs.declared.fault.RefFault.{RefFault};
ghost use Rattle.ref_store.specs.declared.fault.RefFault.TheVariants.{BadHead, Blocked, Moved};
ghost use Rattle.ref_text.specs.Refs.{IsWritable, RefAt, delete_ref, head_name, log_path, move_head, packed_path, ref_path, set_ref};
ghost use Rattle.ref_text.specs.declared.head.Head.TheVariants.{Branch, Detached};
ghost use Rattle.seq_base.specs.Ids.{IsId};
ghost use Rattle.seq_base.specs.RefNames.{IsRefName};
ghost use Rattle.seq_base.specs.World.{World, is_blocked};

use ref_text::{Head, LogLine};
use seq_base::{Bytes, Id};

/// Where the steps do not stop, they leave what git-update-ref(1) leaves, and they do not stop where nothing is in the way of a
/// branch, its log and that of HEAD, or of a detached HEAD and its log.
pub fn head_is_moved(head: &Head, id: Id, line: &LogLine)
    ghost w: { World }
    ensures leaves { LeavesIfOk (head_moved head.now id line.now w) (move_head w head.now id line.now) }
    ensures goes { IsHeadValue head.now → IsWritable w (moved_name head.now) → is_blocked w (log_path head_name) ≡ false
        → head_moved head.now id line.now w ≡ (Ok tt, move_head w head.now id line.now) }
{}

/// The value of a name is what its files and the packed refs say, at most one; a missing HEAD is bad, whatever is packed.
#[tactic(auto, using(crate::proofs::Named::value_laws))]
pub fn value_is_told(name: &[u8])
    ghost w: { World }
    ensures told { (value : Option (List ℕ)) → HasValue w name.now value → RefAt w name.now value }
    ensures found { (value : Option (List ℕ)) → (name.now ≡ head_name → map.get w (ref_path head_name) ≢ None)
        → RefAt w name.now value → HasValue w name.now value }
    ensures one { (a : Option (List ℕ)) (b : Option (List ℕ)) → RefAt w name.now a → RefAt w name.now b → a ≡ b }
    ensures missing { map.get w (ref_path head_name) ≡ None → value_at w head_name ≡ Err BadHead }
{}

/// A ref that was set has that value, and so have HEAD's branch and HEAD where HEAD was moved. Every other name keeps its value, or
/// its fault, unless it leads through the file that was changed.
#[tactic(auto, using(crate::proofs::Named::set_steps))]
pub fn set_ref_keeps_other_values(name: &[u8], id: &[u8], line: &LogLine)
    ghost w: { World }
    requires name { IsRefName name.now }
    requires id { IsId id.now }
    ensures value { HasValue (set_ref w name.now id.now line.now) name.now (Some id.now) }
    ensures branch { bytes_eq name.now head_name ≡ false → HasValue (move_head w (Branch name.now) id.now line.now) name.now (Some id.now) }
    ensures head { bytes_eq name.now head_name ≡ false → head_at w ≡ Ok (Branch name.now)
        → HasValue (move_head w (Branch name.now) id.now line.now) head_name (Some id.now) }
    ensures detached { (old : List ℕ) → HasValue (move_head w (Detached old) id.now line.now) head_name (Some id.now) }
    ensures others { KeepsOthers w (set_ref w name.now id.now line.now) name.now }
    ensures unmoved { KeepsOthers w (move_head w (Branch name.now) id.now line.now) name.now }
{}

/// A deleted name has no value, and every other name keeps its value, or its fault, unless it leads through the file that was removed.
/// The steps leave what git-update-ref(1) leaves.
#[tactic(auto, using(crate::proofs::Named::delete_steps))]
pub fn delete_keeps_other_values(name: &[u8], refs: &[(Bytes, Id)])
    ghost w: { World }
    requires name { IsRefName name.now }
    requires packed { packed_at w ≡ Ok refs.now }
    ensures value { bytes_eq name.now head_name ≡ false → HasValue (delete_ref w refs.now name.now) name.now None }
    ensures others { KeepsOthers w (delete_ref w refs.now name.now) name.now }
    ensures steps { is_blocked w packed_path ≡ false → deleted name.now w ≡ (Ok (is_there w refs.now name.now), delete_ref w refs.now name.now) }
{}

/// A ref is set exactly where it has the value that is expected and is writable; else the fault of its value is answered, or Moved, or
/// Blocked, in this order.
#[tactic(auto, using(crate::proofs::Updating::updates))]
pub fn update_is_exact(name: &[u8], expected: &Option<Id>, id: &[u8], line: &LogLine)
    ghost w: { World }
    requires name { IsRefName name.now }
    ensures sets { HasValue w name.now expected.now → IsWritable w name.now
        → UpdateIs w name.now expected.now id.now line.now (Ok tt, set_ref w name.now id.now line.now) }
    ensures fails { (why : RefFault) → value_at w name.now ≡ Err why → UpdateIs w name.now expected.now id.now line.now (Err why, w) }
    ensures moved { (found : Option (List ℕ)) → HasValue w name.now found → found ≢ expected.now
        → UpdateIs w name.now expected.now id.now line.now (Err (Moved found), w) }
    ensures blocked { HasValue w name.now expected.now → is_barred w name.now ≡ true
        → UpdateIs w name.now expected.now id.now line.now (Err (Blocked name.now), w) }
{}
