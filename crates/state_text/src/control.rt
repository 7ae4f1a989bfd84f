//! What a stopped list is.

use crate::lists::{Chain, IdPairs, Ids, Labels, Lines, RefUpdates};
use crate::options::Options;
use crate::stop_word::StopWord;
use crate::verb::Verb;
use ident_text::Ident;
use seq_base::{Bytes, Id};

/// What is left of the todo: its lines, or bytes that are none.
#[derive(Debug, Drop)]
pub enum Left {
    Lines(Lines),
    Raw(Bytes),
}

/// A ref that an `update-ref` line names: the value that it has to have at the end, and the one that it gets.
#[derive(Debug, Drop)]
pub struct RefUpdate {
    pub name: Bytes,
    pub expected: Option<Id>,
    pub new: Option<Id>,
}

/// How a pending commit is made: beside HEAD, in its place, or with a second parent.
#[derive(Clone, Copy, Debug, PartialEq, Eq)]
pub enum Form {
    New,
    Amend,
    Merge(Id),
}

/// A commit that is still to be made.
#[derive(Debug, Drop)]
pub struct Pending {
    pub form: Form,
    /// Whether the editor is to see its message.
    pub edit: bool,
    /// Who wrote it, where that is not who commits.
    pub author: Option<Ident>,
    pub encoding: Option<Bytes>,
    pub message: Bytes,
}

/// A stopped list: all that the next process is told.
#[derive(Debug, Drop)]
pub struct Control {
    pub verb: Verb,
    pub options: Options,
    /// The branch that is rebased, or None where HEAD was detached.
    pub head_name: Option<Bytes>,
    /// Where HEAD was at the start.
    pub orig: Id,
    pub onto: Id,
    pub done: Lines,
    pub left: Left,
    /// The todo as it was made.
    pub backup: Bytes,
    /// The labels that were set, in this order.
    pub labels: Labels,
    pub updates: RefUpdates,
    pub rewritten: IdPairs,
    /// Commits that will be paired with HEAD when the chain is closed.
    pub waiting: Ids,
    pub chain: Chain,
    pub stop: StopWord,
    /// The commit that HEAD had when the list stopped.
    pub stopped_head: Id,
    /// The commit of the line at which it stopped.
    pub stopped_commit: Option<Id>,
    pub pending: Option<Pending>,
}
