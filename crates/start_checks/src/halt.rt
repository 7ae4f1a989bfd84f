//! What is refused where something is lacked.

ghost use Rattle.std.specs.Prelude.{◌≡◌};
ghost use Rattle.seq_model.specs.Refusing.{denied_file as denied_file_of, denied_git as denied_git_of, denied_put as denied_put_of, told_by};

use seq_model::{Denial, Refusal};
use seq_outside::{Halt, Lack};

fn denied_file(lack: Lack) -> Denial
    ensures { result ≡ denied_file_of lack }
{
    match lack {
        Lack::Object { id } => Denial::Refused(Refusal::BadObject { id }),
        Lack::Limit { what, number } => Denial::Limit { what, number },
        Lack::Way { path } => Denial::Refused(Refusal::WouldOverwrite { path }),
        Lack::Place { id } => Denial::Refused(Refusal::BadObject { id }),
    }
}

fn denied_git(lack: Lack) -> Denial
    ensures { result ≡ denied_git_of lack }
{
    match lack {
        Lack::Object { id } => Denial::Refused(Refusal::BadObject { id }),
        Lack::Limit { what, number } => Denial::Limit { what, number },
        Lack::Way { .. } => Denial::Refused(Refusal::NotBuilt),
        Lack::Place { .. } => Denial::Refused(Refusal::NotBuilt),
    }
}

fn denied_put(lack: Lack) -> Denial
    ensures { result ≡ denied_put_of lack }
{
    match lack {
        Lack::Object { id } => Denial::Refused(Refusal::BadObject { id }),
        Lack::Limit { what, number } => Denial::Limit { what, number },
        Lack::Way { .. } => Denial::Refused(Refusal::NotBuilt),
        Lack::Place { id } => Denial::Refused(Refusal::BadObject { id }),
    }
}

/// What objects that are read, and files of the worktree that are written, lack.
pub fn file_halt(halt: Halt<Lack>) -> Halt<Denial>
    ensures { result ≡ told_by denied_file_of halt }
{
    match halt {
        Halt::Stops(lack) => Halt::Stops(denied_file(lack)),
        Halt::Fault => Halt::Fault,
        Halt::Memory => Halt::Memory,
    }
}

/// What files of `.git` that are written lack.
pub fn git_halt(halt: Halt<Lack>) -> Halt<Denial>
    ensures { result ≡ told_by denied_git_of halt }
{
    match halt {
        Halt::Stops(lack) => Halt::Stops(denied_git(lack)),
        Halt::Fault => Halt::Fault,
        Halt::Memory => Halt::Memory,
    }
}

/// What objects and files of `.git` that are put, and are told by their ids, lack.
pub fn put_halt(halt: Halt<Lack>) -> Halt<Denial>
    ensures { result ≡ told_by denied_put_of halt }
{
    match halt {
        Halt::Stops(lack) => Halt::Stops(denied_put(lack)),
        Halt::Fault => Halt::Fault,
        Halt::Memory => Halt::Memory,
    }
}
