//! A commit that is to be made, and one that was.

use ident_text::Ident;
use object_text::Ids;
use seq_base::{Bytes, Id};

/// What the hook `prepare-commit-msg` is told of a message (githooks(5)).
#[derive(Clone, Copy, Debug, PartialEq, Eq)]
pub enum Source {
    Message,
    /// Of a merge.
    Merge,
    /// Of a squash chain.
    Squash,
}

/// A commit that is to be made.
#[derive(Drop)]
pub struct Making {
    pub tree: Id,
    pub parents: Ids,
    /// Who wrote the change and when. Where there is none it is the committer.
    pub author: Option<Ident>,
    pub encoding: Option<Bytes>,
    /// The message, before hooks and an editor see it.
    pub message: Bytes,
    /// The message is the text of a squash chain.
    pub chain: bool,
    /// The message is edited, and the hooks `pre-commit` and `commit-msg` are asked.
    pub edit: bool,
    pub source: Source,
}

/// A commit that was made.
#[derive(Drop)]
pub struct Made {
    pub id: Id,
    /// Who committed it and when, as it stands in the commit.
    pub ident: Bytes,
    pub subject: Bytes,
}
