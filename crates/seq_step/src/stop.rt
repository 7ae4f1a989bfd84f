//! Stops.

ghost use Rattle.std.specs.Prelude.{◌≡◌};
ghost use Rattle.line_steps.specs.Places.{blocked as blocked_by, blocked_at as blocked_at_by, lacked_at as lacked_at_by};
ghost use Rattle.line_steps.specs.Places.{reason_of as reason_of_lack, stop_of as stop_of_kind};
ghost use Rattle.seq_model.specs.Refusing.{told_by};

use line_steps::Stop;
use seq_base::Id;
use seq_model::{Reason, StopKind};
use seq_outside::{Halt, Lack};

/// A stop without more.
pub fn stop_of(kind: StopKind) -> Stop
    ensures { result ≡ stop_of_kind kind }
{
    Stop {
        kind,
        put_back: false,
        pending: None,
        commit: None,
        failed: false,
    }
}

/// The line is put back.
pub fn blocked(why: Reason) -> Stop
    ensures { result ≡ blocked_by why }
{
    Stop {
        kind: StopKind::Blocked(why),
        put_back: true,
        pending: None,
        commit: None,
        failed: false,
    }
}

/// The line of a commit is put back.
pub fn blocked_at(id: Id, why: Reason) -> Stop
    ensures { result ≡ blocked_at_by id why }
{
    Stop {
        kind: StopKind::Blocked(why),
        put_back: true,
        pending: None,
        commit: Some(id),
        failed: false,
    }
}

pub fn reason_of(lack: Lack) -> Reason
    ensures { result ≡ reason_of_lack lack }
{
    match lack {
        Lack::Object { id } => Reason::BadObject { id },
        Lack::Limit { what, number } => Reason::Limit { what, number },
        Lack::Way { path } => Reason::WouldOverwrite { path },
        Lack::Place { id } => Reason::BadObject { id },
    }
}

/// The line of a commit lacks something, and is put back.
pub fn lacked_at(id: Id, lack: Lack) -> Stop
    ensures { result ≡ lacked_at_by id lack }
{
    blocked_at(id, reason_of(lack))
}

pub fn reason_halt(halt: Halt<Lack>) -> Halt<Reason>
    ensures { result ≡ told_by reason_of_lack halt }
{
    match halt {
        Halt::Stops(lack) => Halt::Stops(reason_of(lack)),
        Halt::Fault => Halt::Fault,
        Halt::Memory => Halt::Memory,
    }
}

pub fn blocked_halt(halt: Halt<Reason>) -> Halt<Stop>
    ensures { result ≡ told_by blocked_by halt }
{
    match halt {
        Halt::Stops(why) => Halt::Stops(blocked(why)),
        Halt::Fault => Halt::Fault,
        Halt::Memory => Halt::Memory,
    }
}

pub fn blocked_halt_at(id: Id, halt: Halt<Reason>) -> Halt<Stop>
    ensures { result ≡ told_by (blocked_at_by id) halt }
{
    match halt {
        Halt::Stops(why) => Halt::Stops(blocked_at(id, why)),
        Halt::Fault => Halt::Fault,
        Halt::Memory => Halt::Memory,
    }
}

pub fn lacked_halt_at(id: Id, halt: Halt<Lack>) -> Halt<Stop>
    ensures { result ≡ told_by (lacked_at_by id) halt }
{
    match halt {
        Halt::Stops(lack) => Halt::Stops(lacked_at(id, lack)),
        Halt::Fault => Halt::Fault,
        Halt::Memory => Halt::Memory,
    }
}
