//! What holds of the files of a stop and of their removal. Each of these functions does nothing: its clause is the law.

ghost use Rattle.std.specs.Prelude.{◌≡◌, ℕ, ◌<◌, List, None, length, take, false};
ghost use Rattle.std.specs.FinMap as map;
ghost use Rattle.seq_base.specs.World.{World};
ghost use Rattle.seq_outside.specs.Writes.{written};
ghost use Rattle.state_text.specs.Places.{in_step_path};
ghost use Rattle.state_text.specs.Stops.{KeepsInStep, behind_end, behind_stop, end_writes, has_file, stop_writes};

use crate::verb::Verb;
use seq_base::Bytes;

/// Behind a stop each path has what the stop says of it, a file of an earlier one is gone, and so is `in-step`; all else is as before.
/// Until the last write is made `in-step` stands as it did.
#[tactic(auto, using(crate::proofs::StopLaws::stop_laws))]
pub fn stop_leaves_its_files(verb: Verb, files: &[(Bytes, Bytes)], found: &[Bytes])
    ghost w: { World }
    requires { has_file files.now (in_step_path verb) ≡ false }
    ensures behind { (path : List ℕ) → map.get (written w (stop_writes verb files.now found.now)) path ≡ behind_stop verb files.now found.now w path }
    ensures in_step { KeepsInStep verb (stop_writes verb files.now found.now) w }
{}

/// Behind the end of a list nothing that was found is left. Until the last removal `in-step` stands as it did.
#[tactic(auto, using(crate::proofs::StopLaws::end_laws))]
pub fn end_leaves_no_file(verb: Verb, found: &[Bytes])
    ghost w: { World }
    ensures behind { (path : List ℕ) → map.get (written w (end_writes verb found.now)) path ≡ behind_end verb found.now w path }
    ensures in_step { KeepsInStep verb (end_writes verb found.now) w }
{}
