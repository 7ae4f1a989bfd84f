//! What holds of the files of a stopped list and of what is read of them. Each of these functions does nothing: its clause is the law.

ghost use Rattle.seq_base.specs.World.{World};
ghost use Rattle.state_found.specs.Found.{IsLeftBehind, IsPaused, IsQuiet};
ghost use Rattle.state_found.specs.Left.{IsStopOver, IsWhole, Stands, behind_stop_of};
ghost use Rattle.state_found.specs.Reads.{IsReadBack};
ghost use Rattle.state_text.specs.declared.control.Left.{Left};

use seq_base::Bytes;
use state_text::Control;

/// The files of a control are read back as that control.
pub fn files_are_read_back(control: &Control)
    ghost w: { World }
    requires whole { IsWhole control.now }
    requires stands { Stands w control.now }
    ensures { IsReadBack w control.now }
{}

/// What the writes of a stop leave is read as its control, whatever else they write that no reader looks at, where each file of an
/// earlier stop was found.
pub fn stop_leaves_what_is_read(control: &Control, more: &[(Bytes, Bytes)], found: &[Bytes])
    ghost w: { World }
    requires whole { IsWhole control.now }
    requires over { IsStopOver w control.now.verb more.now found.now }
    ensures { IsReadBack (behind_stop_of control.now more.now found.now w) control.now }
{}

/// An edit of files between two invocations, which touches none of a stopped list's but the todo of a rebase, leaves what is read of the
/// list, with what the todo then says is left.
pub fn edits_leave_what_is_read(control: &Control)
    ghost before: { World }
    requires { IsPaused before control.now }
    ensures { (after : World) (left : Left) → IsQuiet before after → IsLeftBehind control.now.verb after control.now left
        → IsReadBack after (record control.now { left = left }) }
{}
