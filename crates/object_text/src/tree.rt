//! Trees.

ghost use Rattle.std.specs.Prelude.{◌≡◌, ◌++◌, IfOk, length};
ghost use Rattle.grammar.specs.Gives.{Gives};
ghost use Rattle.grammar.specs.Grammar.{IsReading};
ghost use Rattle.object_text.specs.Faults.{IsTextFault};
ghost use Rattle.object_text.specs.Trees.{entry_text, IsTreeOrder, IsTree};
ghost use Rattle.object_text.specs.ReadTrees.{tree_from};
ghost use Rattle.seq_base.specs.Ids.{HasIdWidth};

use crate::fault::TextFault;
use crate::tree_name::entry_of;
use grammar::ReadError;
use seq_base::{Bytes, Id, Mode};
use std::alloc::{AllocError, Global};

/// An entry of a tree.
#[derive(Debug, Drop)]
pub struct TreeEntry {
    pub mode: Mode,
    pub name: Bytes,
    pub id: Id,
}

fn put_entry(out: &mut Vec<u8>, entry: &TreeEntry) -> Result<(), AllocError>
    ensures text { IfOk result (λ _. out.new.items ≡ out.old.items ++ entry_text entry.now) }
    ensures id { HasIdWidth entry.now.id }
{
    let id = entry.id.bytes();
    let mode: &[u8] = match entry.mode {
        Mode::File => b"100644",
        Mode::Exec => b"100755",
        Mode::Link => b"120000",
        Mode::Gitlink => b"160000",
        Mode::Folder => b"40000",
    };
    out.extend_from_slice(mode)?;
    out.push(b' ')?;
    out.extend_from_slice(entry.name.as_slice())?;
    out.push(0)?;
    out.extend_from_slice(id)?;
    Ok(())
}

/// The content of the tree of these entries: for each `<octal mode> SP <name> NUL <20 bytes>`.
pub fn tree_text(alloc: Global, entries: &[TreeEntry]) -> Result<Vec<u8>, AllocError>
    requires { IsTreeOrder entries.now }
    ensures { IfOk result (λ text. IsTree entries.now text.items) }
{
    let mut out = Vec::new(alloc);
    for entry in entries {
        put_entry(&mut out, entry)?;
    }
    Ok(out)
}

fn entries_of(alloc: Global, bytes: &[u8]) -> Result<Vec<TreeEntry>, ReadError>
    ensures { Gives (λ v. v.items) result (tree_from bytes.now) }
{
    let mut entries = Vec::new(alloc);
    let mut rest = bytes;
    while !rest.is_empty() {
        match entry_of(alloc, &entries, rest) {
            Ok((entry, after)) => {
                entries.push(entry)?;
                rest = after;
            }
            Err(e) => return Err(e),
        }
    }
    Ok(entries)
}

/// The entries whose tree the bytes are, all of the bytes: their modes are the five that Git writes, their names are distinct and valid
/// parts of paths, and they are in order, a folder's name compared as if it ended in `/`.
pub fn parse_tree(alloc: Global, bytes: &[u8]) -> Result<Vec<TreeEntry>, TextFault>
    ensures { IsReading (λ v. v.items) (IsTextFault IsTree bytes.now) IsTree bytes.now result }
{
    match entries_of(alloc, bytes) {
        Ok(entries) => Ok(entries),
        Err(ReadError::Memory) => Err(TextFault::Memory),
        Err(ReadError::Stopped { left }) => Err(TextFault::Bad {
            at: (bytes.len() - left) as u64,
        }),
    }
}
