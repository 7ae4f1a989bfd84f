//! Why a tree has no map, or a map no trees.

ghost use Rattle.std.specs.Prelude.{◌≡◌};
ghost use Rattle.objects.specs.Causes.{IsPutFault};
ghost use Rattle.path_trees.specs.Faults.{fault_at as fault_of_object, put_fault_at};
ghost use Rattle.path_trees.specs.declared.fault.TreeFault.TheVariants.{Memory};

use objects::ObjectFault;
use seq_base::{Bytes, Id};
use std::alloc::{AllocError, AllocFailed};
use thiserror::Error;

/// Why a tree has no map, or a map no trees.
#[derive(Debug, Drop, Error)]
pub enum TreeFault {
    /// The first object that is no tree, or is a tree that holds a path that is none; of trees to be put, the first in whose file
    /// another text stands.
    #[error("the object is no tree")]
    BadObject { id: Id },
    /// That object has a content that is larger than an object may be.
    #[error("an object has at most 67108864 bytes, and this has {length}")]
    TooLarge { length: u64 },
    /// A tree lies deeper than 256 trees on a chain, or would.
    #[error("trees are at most 256 deep")]
    Depth,
    /// Of trees to be put, the first whose file has another in its way.
    #[error("a file stands in a folder's place, or a folder in a file's")]
    Blocked { path: Bytes },
    #[error("the store failed")]
    Fault,
    #[error("out of memory")]
    Memory,
}

impl From<AllocError> for TreeFault {
    ghost from_gives = { λ _ fault. fault ≡ Memory };

    fn from(_: AllocError) -> TreeFault {
        TreeFault::Memory
    }
}

impl<T: Drop> From<AllocFailed<T>> for TreeFault {
    ghost from_gives = { λ _ fault. fault ≡ Memory };

    fn from(_: AllocFailed<T>) -> TreeFault {
        TreeFault::Memory
    }
}

/// What is answered of an object that was not read.
pub fn fault_at(id: Id, fault: ObjectFault) -> TreeFault
    ensures { result ≡ fault_of_object id fault }
{
    match fault {
        ObjectFault::Missing => TreeFault::BadObject { id },
        ObjectFault::TooLarge { length } => TreeFault::TooLarge { length },
        ObjectFault::WrongHash { .. } => TreeFault::BadObject { id },
        ObjectFault::BadText { .. } => TreeFault::BadObject { id },
        ObjectFault::Collision { .. } => TreeFault::BadObject { id },
        ObjectFault::Blocked { .. } => TreeFault::Fault,
        ObjectFault::Fault => TreeFault::Fault,
        ObjectFault::Memory => TreeFault::Memory,
    }
}

/// What is answered of a tree that was not put.
pub fn put_fault(fault: ObjectFault) -> TreeFault
    requires { IsPutFault fault }
    ensures { result ≡ put_fault_at fault }
{
    match fault {
        ObjectFault::TooLarge { length: count } => TreeFault::TooLarge { length: count },
        ObjectFault::WrongHash { id, .. } => TreeFault::BadObject { id },
        ObjectFault::Collision { id, .. } => TreeFault::BadObject { id },
        ObjectFault::Blocked { path } => TreeFault::Blocked { path },
        ObjectFault::Fault => TreeFault::Fault,
        ObjectFault::Memory => TreeFault::Memory,
        ObjectFault::Missing | ObjectFault::BadText { .. } => unreachable!(),
    }
}
