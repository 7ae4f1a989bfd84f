//! Children: programs that are run.

ghost use Rattle.std.specs.Prelude.{◌≡◌, IsErrOf};
ghost use Rattle.seq_outside.specs.Child.{HasChildCause, Noted, Runs, Spawns};
ghost use Rattle.seq_outside.specs.Seen.{HasFault, Lasts};

use crate::Store;
use seq_base::Bytes;
use std::alloc::Global;
use std::marker::Model;
use thiserror::Error;

/// How a child ended.
#[derive(Clone, Copy, Debug, PartialEq, Eq)]
pub enum Exit {
    Code(u8),
    /// It was ended by a signal.
    Killed,
}

/// Why a child gave no exit.
#[derive(Clone, Copy, Debug, PartialEq, Eq, Drop, Error)]
pub enum ChildError {
    #[error("a child could not be run")]
    Failed,
    /// The store failed before a child was run.
    #[error("the repository's files could not be written")]
    Store,
    #[error("out of memory")]
    Memory,
}

/// The words of a command line, the program's name first. Contracts see their list.
#[derive(Debug, Drop)]
pub struct Words {
    held: Vec<Bytes>,
}

impl Model for Words {
    ghost use Rattle.std.specs.Prelude.{List, ℕ};

    ghost Value = { List (List ℕ) };

    ghost view = { λ words. words.held.items };
}

impl Words {
    pub fn from_vec(words: Vec<Bytes>) -> Words
        ensures { result ≡ words.items }
    {
        Words { held: words }
    }

    pub fn as_slice(&self) -> &[Bytes]
        ensures { result.now ≡ self.now }
    {
        &self.held
    }

    pub fn into_vec(self) -> Vec<Bytes>
        ensures { result.items ≡ self }
    {
        self.held
    }
}

/// What a child is to run, and what it reads on its standard input.
#[derive(Debug, Drop)]
pub struct Job {
    pub words: Words,
    pub input: Bytes,
}

/// Runs children over a store. What it tells is a relation per call: a concrete one gives it the meaning of its answers
/// still to come and of its log.
pub trait Spawner<S: Store> {
    /// From the one spawner to the other this was noted: a job was handed in over a content, ended so, and left that, and the
    /// store's count of faults rose in the call or did not.
    ghost ran: { Self → Noted → Self → Type 0 };

    /// What is seen of it.
    ghost seen: { Self → Spawns };

    /// Starts a child at the root, waits for it and answers its exit. What the store then holds, also where the call failed or
    /// memory ran out, is what the child left.
    fn run(&mut self, alloc: Global, store: &mut S, job: &Job) -> Result<Exit, ChildError>
        ensures runs { Runs S.told ran job.now self.old (S.seen store.old) result self.new (S.seen store.new) }
        ensures cause { HasChildCause result (seen self.old) (seen self.new) }
        ensures store { Lasts (S.seen store.old) (S.seen store.new) }
        ensures store_failed { IsErrOf result ChildError.Store → HasFault S.told (S.seen store.old) (S.seen store.new) };
}
