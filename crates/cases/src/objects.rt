//! Objects, in cases and in answers.

use crate::answer::Answer;
use crate::fault::CaseFault;
use object_text::{Commit, Kind};
use std::alloc::AllocError;

pub fn kind_of(word: &str) -> Result<Kind, CaseFault> {
    match word {
        "blob" => Ok(Kind::Blob),
        "tree" => Ok(Kind::Tree),
        "commit" => Ok(Kind::Commit),
        "tag" => Ok(Kind::Tag),
        _ => Err(CaseFault::Form),
    }
}

pub fn kind_word(kind: Kind) -> &'static [u8] {
    match kind {
        Kind::Blob => b"blob",
        Kind::Tree => b"tree",
        Kind::Commit => b"commit",
        Kind::Tag => b"tag",
    }
}

/// The fields of a commit, each behind its name.
pub fn put_commit(out: &mut Answer, commit: &Commit) -> Result<(), AllocError> {
    out.word(b"tree")?;
    out.id(commit.tree)?;
    for parent in commit.parents.as_slice() {
        out.word(b"parent")?;
        out.id(*parent)?;
    }
    out.named(b"author", commit.author.as_slice())?;
    out.named(b"committer", commit.committer.as_slice())?;
    if let Some(encoding) = &commit.encoding {
        out.named(b"encoding", encoding.as_slice())?;
    }
    out.named(b"message", commit.message.as_slice())
}
