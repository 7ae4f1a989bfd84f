//! What the definitions of `specs/` come to in plain words. Each law is the contract of a function that does nothing.

ghost use Rattle.std.specs.Prelude.{◌≡◌, ◌≢◌, ◌⊎◌, List, None, Option, Some, ℕ};
ghost use Rattle.std.specs.FinMap as map;
ghost use Rattle.seq_base.specs.Ids.{HasIdWidth};
ghost use Rattle.seq_base.specs.RefNames.{IsRefName};
ghost use Rattle.seq_base.specs.World.{World};
ghost use Rattle.ref_text.specs.Packed.{IsPacked, packed_text as text_of_refs};
ghost use Rattle.ref_text.specs.Refs.{PackedAt, RefAt, delete_ref, log_path, packed_path, ref_path, set_ref};

use crate::log::LogLine;
use seq_base::{Bytes, Id};

/// A ref that was set has that value, and no other path but its log's has changed. Every name has the value that it had, or that of
/// the ref, to which its file leads.
#[tactic(auto, using(crate::proofs::RefLaws::set_laws))]
pub fn set_ref_has_value(name: &[u8], id: &[u8], line: &LogLine)
    ghost w: { World }
    requires name { IsRefName name.now }
    requires id { HasIdWidth id.now }
    ensures value { RefAt (set_ref w name.now id.now line.now) name.now (Some id.now) }
    ensures elsewhere { (path : List ℕ) → path ≢ ref_path name.now → path ≢ log_path name.now
        → map.get (set_ref w name.now id.now line.now) path ≡ map.get w path }
    ensures others { (other : List ℕ) (value : Option (List ℕ)) → IsRefName other → RefAt w other value
        → RefAt (set_ref w name.now id.now line.now) other value ⊎ RefAt (set_ref w name.now id.now line.now) other (Some id.now) }
{}

/// A deleted name has no value, loose or packed, and no path but its own and that of the packed refs has changed.
#[tactic(auto, using(crate::proofs::RefLaws::delete_laws))]
pub fn deleted_name_has_no_value(name: &[u8], refs: &[(Bytes, Id)])
    ghost w: { World }
    requires name { IsRefName name.now }
    requires packed { PackedAt w refs.now }
    ensures value { RefAt (delete_ref w refs.now name.now) name.now None }
    ensures elsewhere { (path : List ℕ) → path ≢ ref_path name.now → path ≢ packed_path
        → map.get (delete_ref w refs.now name.now) path ≡ map.get w path }
{}

/// The text that is written of the refs of some text spells these refs, and a text spells no others beside its own.
#[tactic(auto, using(crate::proofs::PackedLoops::written_again))]
pub fn packed_refs_read_back(text: &[u8], refs: &[(Bytes, Id)], others: &[(Bytes, Id)])
    requires { IsPacked refs.now text.now }
    ensures written { IsPacked refs.now (text_of_refs refs.now) }
    ensures alone { IsPacked others.now text.now → others.now ≡ refs.now }
{}
