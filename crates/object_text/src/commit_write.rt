//! Writing commits.

ghost use Rattle.std.specs.Prelude.{◌≡◌, ◌++◌, IfOk, [], ◌∷◌, codes};
ghost use Rattle.std.specs.List.{AllByRecursion, flat_map};
ghost use Rattle.hex.specs.Hex.{encode_lower};
ghost use Rattle.seq_base.specs.Ids.{SpellsId};
ghost use Rattle.object_text.specs.Commits.{line, encoding_text, commit_text as text_of_commit, IsCommit, IsCommitValue};

use crate::commit::Commit;
use seq_base::{Bytes, Id};
use std::alloc::{AllocError, Global};

fn put_line(out: &mut Vec<u8>, key: &[u8], value: &[u8]) -> Result<(), AllocError>
    ensures { IfOk result (λ _. out.new.items ≡ out.old.items ++ line (key.now ++ value.now)) }
{
    out.extend_from_slice(key)?;
    out.extend_from_slice(value)?;
    out.push(b'\n')?;
    Ok(())
}

#[tactic(auto, using(crate::proofs::CommitValues::spells_lower))]
fn put_id(alloc: Global, out: &mut Vec<u8>, key: &[u8], id: &Id) -> Result<(), AllocError>
    ensures text { IfOk result (λ _. out.new.items ≡ out.old.items ++ line (key.now ++ encode_lower id.now)) }
    ensures spelled { IfOk result (λ _. SpellsId id.now (encode_lower id.now)) }
{
    let digits = id.hex(alloc)?;
    put_line(out, key, &digits)
}

fn put_parents(alloc: Global, out: &mut Vec<u8>, parents: &[Id]) -> Result<(), AllocError>
    ensures text { IfOk result (λ _. out.new.items
        ≡ out.old.items ++ flat_map (λ parent. line (codes "parent " ++ encode_lower parent)) parents.now) }
    ensures spelled { IfOk result (λ _. AllByRecursion (λ parent. SpellsId parent (encode_lower parent)) parents.now) }
{
    for parent in parents {
        put_id(alloc, out, b"parent ", parent)?;
    }
    Ok(())
}

fn put_encoding(out: &mut Vec<u8>, encoding: &Option<Bytes>) -> Result<(), AllocError>
    ensures { IfOk result (λ _. out.new.items ≡ out.old.items ++ encoding_text encoding.now) }
{
    match encoding {
        None => Ok(()),
        Some(value) => put_line(out, b"encoding ", value.as_slice()),
    }
}

fn put_message(out: &mut Vec<u8>, message: &[u8]) -> Result<(), AllocError>
    ensures { IfOk result (λ _. out.new.items ≡ out.old.items ++ 10 ∷ message.now) }
{
    out.push(b'\n')?;
    out.extend_from_slice(message)?;
    Ok(())
}

fn put_together(alloc: Global, commit: &Commit) -> Result<Vec<u8>, AllocError>
    ensures text { IfOk result (λ text. text.items ≡ text_of_commit commit.now) }
    ensures tree { IfOk result (λ _. SpellsId commit.now.tree (encode_lower commit.now.tree)) }
    ensures parents { IfOk result (λ _. AllByRecursion (λ parent. SpellsId parent (encode_lower parent)) commit.now.parents) }
{
    let parents = commit.parents.as_slice();
    let author = commit.author.as_slice();
    let committer = commit.committer.as_slice();
    let message = commit.message.as_slice();
    let mut out = Vec::new(alloc);
    put_id(alloc, &mut out, b"tree ", &commit.tree)?;
    put_parents(alloc, &mut out, parents)?;
    put_line(&mut out, b"author ", author)?;
    put_line(&mut out, b"committer ", committer)?;
    put_encoding(&mut out, &commit.encoding)?;
    put_message(&mut out, message)?;
    Ok(out)
}

/// The content of a commit, with the ids in lower case and no further header but the encoding.
pub fn commit_text(alloc: Global, commit: &Commit) -> Result<Vec<u8>, AllocError>
    requires { IsCommitValue commit.now }
    ensures text { IfOk result (λ text. text.items ≡ text_of_commit commit.now) }
    ensures commit { IfOk result (λ text. IsCommit commit.now text.items) }
{
    let text = put_together(alloc, commit)?;
    Ok(text)
}
