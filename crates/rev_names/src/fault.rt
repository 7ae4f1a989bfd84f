//! Why a word names no commit.

ghost use Rattle.std.specs.Prelude.{◌≡◌, IfOk};
ghost use Rattle.rev_names.specs.Faults.{bad_limit as bad_limit_of, bad_object as bad_object_of, bad_ref as bad_ref_of, told_of};

use ref_store::RefFault;
use seq_base::{Bytes, Id};
use seq_outside::{Halt, Lack, LimitWhat};
use std::alloc::{AllocError, Global};

/// Why a word names no commit.
#[derive(Drop)]
pub enum RevFault {
    /// No ref has the name, and no object an id that begins so.
    NoSuch,
    /// The ids of several objects begin so: the first two, in byte order.
    Ambiguous { first: Id, second: Id },
    /// The object is a blob or a tree, or a tag behind sixteen others.
    NotACommit,
    /// The commit has no such parent.
    NoParent,
    /// The log of the ref has no such entry, or is no reflog.
    NoLogEntry,
    /// The word has no form that names a commit.
    Form,
    /// An object that the word leads to is missing or damaged, or is no commit where one is needed.
    BadObject { id: Id },
    /// An object has a content of more than 67,108,864 bytes.
    TooLarge { length: u64 },
    /// A commit has more than 16 parents.
    Parents { count: u64 },
    /// The file of the ref is none of a ref, or leads on too often; HEAD, and `packed-refs`, where these decide and are none.
    BadRef { name: Bytes },
}

fn named(alloc: Global, name: &[u8]) -> Result<RevFault, AllocError>
    ensures { IfOk result (λ fault. fault ≡ RevFault.BadRef name.now) }
{
    let name = Bytes::from_vec(name.to_vec(alloc)?);
    Ok(RevFault::BadRef { name })
}

/// The fault of a ref whose value or log was not read.
pub fn bad_ref(alloc: Global, fault: RefFault) -> Result<RevFault, AllocError>
    ensures { IfOk result (λ bad. bad ≡ bad_ref_of fault) }
{
    match fault {
        RefFault::BadHead => named(alloc, b"HEAD"),
        RefFault::BadRef { name } => Ok(RevFault::BadRef { name }),
        RefFault::BadPacked { .. } => named(alloc, b"packed-refs"),
        RefFault::BadLog { .. } => Ok(RevFault::NoLogEntry),
        RefFault::Moved { .. } => Ok(RevFault::NoSuch),
        RefFault::Blocked { name } => Ok(RevFault::BadRef { name }),
    }
}

fn bad_limit(what: LimitWhat, number: u64) -> RevFault
    ensures { result ≡ bad_limit_of what number }
{
    match what {
        LimitWhat::Parents => RevFault::Parents { count: number },
        LimitWhat::ObjectBytes
        | LimitWhat::TreeDepth
        | LimitWhat::IndexEntries
        | LimitWhat::TodoLines
        | LimitWhat::TodoBytes
        | LimitWhat::Labels
        | LimitWhat::Commits
        | LimitWhat::Jobs => RevFault::TooLarge { length: number },
    }
}

fn bad_object(lack: Lack) -> RevFault
    ensures { result ≡ bad_object_of lack }
{
    match lack {
        Lack::Object { id } => RevFault::BadObject { id },
        Lack::Limit { what, number } => bad_limit(what, number),
        Lack::Way { path } => RevFault::BadRef { name: path },
        Lack::Place { id } => RevFault::BadObject { id },
    }
}

/// The halt of an object that was not read.
pub fn object_halt(halt: Halt<Lack>) -> Halt<RevFault>
    ensures { result ≡ told_of bad_object_of halt }
{
    match halt {
        Halt::Stops(lack) => Halt::Stops(bad_object(lack)),
        Halt::Fault => Halt::Fault,
        Halt::Memory => Halt::Memory,
    }
}
