//! The files that a store holds, and which of them a call changed.

ghost use Rattle.seq_memory.specs.Files.{is_content as is_content_of};
ghost use Rattle.std.specs.Prelude.{IfOk, IsTrue};

use crate::answer::Answer;
use crate::case::Case;
use crate::fault::CaseFault;
use seq_base::{Bytes, Id};
use seq_memory::is_content;
use sha1::Sha1;
use std::alloc::{AllocError, Global};

/// COUNT, and as many files, each a path and its text.
pub fn files_of(case: &mut Case<'_>) -> Result<Vec<(Bytes, Bytes)>, CaseFault>
    ensures { IfOk result (λ files. IsTrue (is_content_of files.items)) }
{
    let count = case.fields.number()?;
    let mut files = Vec::new(case.alloc);
    for _ in 0..count {
        let path = case.fields.owned()?;
        let text = case.fields.owned()?;
        files.push((path, text))?;
    }
    if !is_content(&files) {
        return Err(CaseFault::Value);
    }
    Ok(files)
}

fn text_at<'a>(files: &'a [(Bytes, Bytes)], path: &[u8]) -> Option<&'a [u8]> {
    for file in files {
        if file.0.as_slice() == path {
            return Some(file.1.as_slice());
        }
    }
    None
}

/// The path of an object's file.
fn object_file(alloc: Global, id: Id) -> Result<Vec<u8>, AllocError> {
    let digits = id.hex(alloc)?;
    let mut path = Vec::from_slice(alloc, b".git/objects/")?;
    path.extend_from_slice(&digits[..2])?;
    path.push(b'/')?;
    path.extend_from_slice(&digits[2..])?;
    Ok(path)
}

/// A file with this text: of an object's file, whose name says what it holds, the id alone.
fn put_file(alloc: Global, out: &mut Answer, path: &[u8], text: &[u8]) -> Result<(), AllocError> {
    let id = Id::from_bytes(Sha1::digest(text));
    if object_file(alloc, id)?.as_slice() == path {
        out.word(b"object")?;
        return out.id(id);
    }
    out.named(b"put", path)?;
    out.bytes(text)
}

/// The files that are new or have another text, in the order of their paths, and then those that are there no longer.
pub fn put_changes(
    alloc: Global,
    out: &mut Answer,
    before: &[(Bytes, Bytes)],
    after: &[(Bytes, Bytes)],
) -> Result<(), AllocError> {
    for (path, text) in after {
        if text_at(before, path.as_slice()) != Some(text.as_slice()) {
            put_file(alloc, out, path.as_slice(), text.as_slice())?;
        }
    }
    for (path, _) in before {
        if text_at(after, path.as_slice()).is_none() {
            out.named(b"removed", path.as_slice())?;
        }
    }
    Ok(())
}
