//! How an invocation ends.

ghost use Rattle.std.specs.Prelude.{◌≡◌};
ghost use Rattle.seq_model.specs.Status.{status_of};

use crate::refusal::Refusal;
use crate::stop::StopKind;
use crate::usage::UsageFault;
use seq_base::{Id, Path};
use seq_outside::LimitWhat;
use std::marker::Model;

/// Paths in an outcome. Contracts see their list.
#[derive(Debug, Drop)]
pub struct Paths {
    held: Vec<Path>,
}

impl Model for Paths {
    ghost use Rattle.std.specs.Prelude.{List, ℕ};

    ghost Value = { List (List ℕ) };

    ghost view = { λ paths. paths.held.items };
}

impl Paths {
    pub fn from_vec(paths: Vec<Path>) -> Paths
        ensures { result ≡ paths.items }
    {
        Paths { held: paths }
    }

    pub fn as_slice(&self) -> &[Path]
        ensures { result.now ≡ self.now }
    {
        &self.held
    }

    pub fn into_vec(self) -> Vec<Path>
        ensures { result.items ≡ self }
    {
        self.held
    }
}

/// How an invocation ends.
#[derive(Drop)]
pub enum Outcome {
    /// All lines were used, or the other command was done. `head` is the commit that HEAD then names.
    Done { head: Option<Id> },
    /// A list stops before its end. `paths` are the unmerged ones at a conflict, and none otherwise.
    Stopped { kind: StopKind, paths: Paths },
    Usage(UsageFault),
    Refused(Refusal),
    /// The store failed in this call.
    StoreFault,
    /// A child could not be run in this call.
    ChildFault,
    /// What was to be printed could not be written.
    OutputFault,
    /// A quantity passes its limit.
    Limit { what: LimitWhat, number: u64 },
    /// Memory ran out.
    Memory,
}

impl Outcome {
    /// The exit status: 0 done, 1 stopped, 2 usage, 3 refused, 5 to 9 for a fault of the store, of a child or of the output, a
    /// limit, and want of memory. Status 4 is not used.
    pub fn status(&self) -> u8
        ensures { result ≡ status_of self.now }
    {
        match self {
            Outcome::Done { .. } => 0,
            Outcome::Stopped { .. } => 1,
            Outcome::Usage(_) => 2,
            Outcome::Refused(_) => 3,
            Outcome::StoreFault => 5,
            Outcome::ChildFault => 6,
            Outcome::OutputFault => 7,
            Outcome::Limit { .. } => 8,
            Outcome::Memory => 9,
        }
    }
}
