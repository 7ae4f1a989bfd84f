//! What the words of the command line ask for.

ghost use Rattle.std.specs.Prelude.{◌≡◌};

use crate::verb::Action;
use seq_base::Bytes;
use state_text::{Options, Verb};
use std::marker::Model;

/// Values that the words give. Contracts see their list.
#[derive(Debug, Drop)]
pub struct Values {
    held: Vec<Bytes>,
}

impl Model for Values {
    ghost use Rattle.std.specs.Prelude.{List, ℕ};

    ghost Value = { List (List ℕ) };

    ghost view = { λ values. values.held.items };
}

impl Values {
    pub fn from_vec(values: Vec<Bytes>) -> Values
        ensures { result ≡ values.items }
    {
        Values { held: values }
    }

    pub fn as_slice(&self) -> &[Bytes]
        ensures { result.now ≡ self.now }
    {
        &self.held
    }
}

/// A list that is to be started.
#[derive(Debug, Drop)]
pub struct StartWords {
    pub verb: Verb,
    pub options: Options,
    /// The upstream of a rebase, or what is picked or reverted.
    pub revs: Values,
    pub onto: Option<Bytes>,
    pub interactive: bool,
    /// `--rebase-merges`
    pub merges: bool,
    pub autosquash: bool,
    pub update_refs: bool,
    /// The commands of `-x`, in the order given.
    pub execs: Values,
}

/// A command that works on files, the index or objects alone.
#[derive(Debug, Drop)]
pub enum PlumbWords {
    Init,
    Add { paths: Values },
    Rm { paths: Values },
    Commit { amend: bool, message: Bytes },
    Status,
    Cat { word: Bytes },
}

/// What the words of the command line ask for.
#[derive(Debug, Drop)]
pub enum Command {
    Start(StartWords),
    Act(Verb, Action),
    Plumb(PlumbWords),
}
