//! The laws.

ghost use Rattle.reading.specs.Laws.{AreKept, Compose, FilesAreKept, GoesOn, IsApart, IsMeant, IsRead, LinesApart, NoneIsLeft, StandsOn, StandsThrough, StepsApart, StopTogether};
ghost use Rattle.reading.specs.Opening.{Checks};
ghost use Rattle.line_steps.specs.declared.setting.Setting.{Setting};
ghost use Rattle.reading.specs.Lists.{AreMeant};
ghost use Rattle.state_text.specs.declared.options.Options.{Options};
ghost use Rattle.reading.specs.Standing.{TellsByFiles};

use seq_outside::{Clock, Spawner, Store};

/// The parts of a turn compose, whatever comes after them.
pub fn parts_compose<S: Store, P: Spawner<S>, C: Clock, X, Y>()
    ensures goes { Compose P.ran C.ticked X Y }
    ensures stops { StopTogether P.ran C.ticked X Y }
{}

/// What a turn did is what the reading makes of what was seen in it, and the reading asks for just that.
pub fn turn_is_read<S: Store, P: Spawner<S>, C: Clock>()
    ensures { IsRead P.ran C.ticked }
{}

/// The reading over a tape and a further turn is that over the tape, gone on with.
pub fn reading_goes_on()
    ghost checks: { Checks }
    ensures { GoesOn checks }
{}

/// A process that goes on with the control that it finds in its files answers what one uninterrupted reading over all turns gives. A turn that is
/// denied is none.
pub fn turn_is_meant()
    ghost checks: { Checks }
    ensures { IsMeant checks }
{}

/// Where a reading has stopped, its world has the files of its control.
pub fn stop_is_kept()
    ghost checks: { Checks }
    ensures { AreKept checks }
{}

/// At a stop each path has what the files of the control say of it, and no other file of a list is there; at the end none is left.
pub fn files_are_the_controls()
    ensures kept { FilesAreKept }
    ensures left { NoneIsLeft }
{}

/// A turn that is denied is none: the store stands where it stood. One that is heard leaves it at the reading over one turn more.
pub fn turn_leaves_it_there()
    ghost checks: { Checks }
    ensures { StandsOn checks }
{}

/// What the files of a list tell is told by these alone, and its todo may be edited.
pub fn files_tell()
    ensures { TellsByFiles }
{}

/// Whatever is changed between invocations, but for the files of the list, the store stands where it stood. The todo may be edited.
pub fn edits_leave_it_there()
    ensures { StandsThrough }
{}

/// A list of invocations, each of which answers as what it finds is gone on with, answers what one uninterrupted reading over all turns gives,
/// whatever is done between them but to the files of the list. The todo may be edited.
pub fn list_is_meant()
    ghost checks: { Checks }
    ensures { AreMeant checks }
{}

/// In worlds that are alike but for the files of a list, what a line reads of HEAD, of commits, maps and the index is the same; and steps
/// that end alike in such worlds do so one after another.
pub fn files_are_not_looked_at<P, E, X, Y>()
    ensures reads { IsApart }
    ensures steps { StepsApart P E X Y }
{}

/// `break`, `noop`, `drop` and `exec`, and what comes before each line, look at no file of a list.
pub fn lines_look_at_no_file()
    ensures { (setting : Setting) → (options : Options) → LinesApart setting options }
{}
