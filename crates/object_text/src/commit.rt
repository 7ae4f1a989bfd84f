//! Commits.

ghost use Rattle.std.specs.Prelude.{◌≡◌, ◌≤◌, IfOk, length};
ghost use Rattle.grammar.specs.Gives.{Gives};
ghost use Rattle.grammar.specs.Grammar.{IsReading};
ghost use Rattle.object_text.specs.Commits.{IsCommit, IsCommitValue};
ghost use Rattle.object_text.specs.Faults.{IsCommitFault};
ghost use Rattle.object_text.specs.ReadCommits.{people_from, parents_from, commit_from};

use crate::fault::TextFault;
use crate::header::{author_line_of, committer_line_of, has_parent, parent_line_of, tree_line_of};
use crate::headers::tail_of;
use grammar::ReadError;
use seq_base::{Bytes, Id};
use std::alloc::Global;
use std::marker::Model;

/// Ids that a struct keeps. Contracts see their list.
#[derive(Debug, Drop)]
pub struct Ids {
    held: Vec<Id>,
}

impl Model for Ids {
    ghost use Rattle.std.specs.Prelude.{List, ℕ};

    ghost Value = { List (List ℕ) };

    ghost view = { λ a. a.held.items };
}

impl Ids {
    pub fn from_vec(ids: Vec<Id>) -> Ids
        ensures { result ≡ ids.items }
    {
        Ids { held: ids }
    }

    pub fn as_slice(&self) -> &[Id]
        ensures { result.now ≡ self.now }
    {
        &self.held
    }

    pub fn into_vec(self) -> Vec<Id>
        ensures { result.items ≡ self }
    {
        self.held
    }
}

/// A commit. Of the headers behind the committer only the encoding is kept, without the word `encoding` and as it stands: where the
/// header goes on in further lines, they are in it, each behind its line feed.
#[derive(Debug, Drop)]
pub struct Commit {
    pub tree: Id,
    pub parents: Ids,
    /// Who wrote the change and when, as it stands in the text.
    pub author: Bytes,
    /// Who made the commit and when, as it stands in the text.
    pub committer: Bytes,
    pub encoding: Option<Bytes>,
    pub message: Bytes,
}

/// The commit, from what stands behind its parents.
#[tactic(auto, unfolding(crate::specs::ReadCommits::people_from))]
fn people_of(alloc: Global, tree: Id, parents: Vec<Id>, bytes: &[u8]) -> Result<Commit, ReadError>
    ensures { Gives (λ c. c) result (people_from tree parents.items bytes.now) }
{
    let (author, rest) = author_line_of(bytes)?;
    let (committer, rest) = committer_line_of(rest)?;
    let tail = tail_of(alloc, rest)?;
    Ok(Commit {
        tree,
        parents: Ids::from_vec(parents),
        author: Bytes::from_vec(Vec::from_slice(alloc, author)?),
        committer: Bytes::from_vec(Vec::from_slice(alloc, committer)?),
        encoding: tail.encoding,
        message: tail.message,
    })
}

/// The commit, from what stands behind its tree.
fn parents_of(alloc: Global, tree: Id, bytes: &[u8]) -> Result<Commit, ReadError>
    ensures { Gives (λ c. c) result (parents_from tree bytes.now) }
{
    let mut parents = Vec::new(alloc);
    let mut rest = bytes;
    while has_parent(rest) {
        match parent_line_of(rest) {
            Ok(found) => {
                parents.push(found.0)?;
                rest = found.1;
            }
            Err(e) => return Err(e),
        }
    }
    people_of(alloc, tree, parents, rest)
}

#[tactic(auto, unfolding(crate::specs::ReadCommits::commit_from))]
fn commit_of(alloc: Global, bytes: &[u8]) -> Result<Commit, ReadError>
    ensures { Gives (λ c. c) result (commit_from bytes.now) }
{
    match tree_line_of(bytes) {
        Ok((tree, rest)) => parents_of(alloc, tree, rest),
        Err(e) => Err(e),
    }
}

/// The commit whose content the bytes are, all of the bytes. Headers other than those of its fields are read over.
pub fn parse_commit(alloc: Global, bytes: &[u8]) -> Result<Commit, TextFault>
    ensures read { IsReading (λ c. c) (IsCommitFault bytes.now) IsCommit bytes.now result }
    ensures few { IfOk result (λ c. length c.parents ≤ 16) }
    // So that it can be written again.
    ensures value { IfOk result IsCommitValue }
{
    match commit_of(alloc, bytes) {
        Ok(commit) => {
            let count = commit.parents.as_slice().len();
            if count > 16 {
                return Err(TextFault::Parents {
                    count: count as u64,
                });
            }
            Ok(commit)
        }
        Err(ReadError::Memory) => Err(TextFault::Memory),
        Err(ReadError::Stopped { left }) => Err(TextFault::Bad {
            at: (bytes.len() - left) as u64,
        }),
    }
}
