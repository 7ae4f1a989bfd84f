//! The refs that the end of a list writes.

ghost use Rattle.std.specs.List.{AllByRecursion};
ghost use Rattle.std.specs.Prelude.{◌≡◌, ◌∷◌, ◌++◌, [], codes, map, IfOk, OnOk, Some};
ghost use Rattle.hex.specs.Hex.{encode_lower};
ghost use Rattle.reading.specs.Ending.{branch_ref as branch_ref_of, end_refs as end_refs_of, update_ref as update_ref_of};
ghost use Rattle.ref_text.specs.Logs.{IsMessage};
ghost use Rattle.seq_base.specs.RefNames.{IsRefName};
ghost use Rattle.seq_lines.specs.Refs.{AreEndRefs, HasBranch, IsEndRef, NameRefs};

use reading::EndRef;
use seq_base::{Bytes, Id};
use state_text::{Control, RefUpdate};
use std::alloc::{AllocError, Global};

fn copy_of(alloc: Global, text: &[u8]) -> Result<Bytes, AllocError>
    ensures { IfOk result (λ copy. copy ≡ text.now) }
{
    Ok(Bytes::from_vec(text.to_vec(alloc)?))
}

fn update_ref(alloc: Global, update: &RefUpdate) -> Result<EndRef, AllocError>
    requires { IsRefName update.now.name }
    ensures is { IfOk result (λ r. r ≡ update_ref_of update.now) }
    ensures value { IfOk result IsEndRef }
{
    Ok(EndRef {
        name: update.name.clone()?,
        expected: update.expected,
        new: update.new,
        message: copy_of(alloc, b"rewritten during rebase")?,
        is_update: true,
    })
}

/// What the log of the branch is told.
#[tactic(auto, using(crate::proofs::Messages::finish_is_message))]
fn finish_message(alloc: Global, name: &[u8], onto: Id) -> Result<Bytes, AllocError>
    requires { IsRefName name.now }
    ensures text { IfOk result (λ m. m ≡ codes "rebase (finish): " ++ name.now ++ codes " onto " ++ encode_lower onto) }
    ensures message { IfOk result IsMessage }
{
    let mut message = b"rebase (finish): ".to_vec(alloc)?;
    message.extend_from_slice(name)?;
    message.extend_from_slice(b" onto ")?;
    message.extend_from_slice(&onto.hex(alloc)?)?;
    Ok(Bytes::from_vec(message))
}

fn branch_ref(
    alloc: Global,
    control: &Control,
    head: Id,
    name: &Bytes,
) -> Result<EndRef, AllocError>
    requires { IsRefName name.now }
    ensures is { IfOk result (λ r. r ∷ [] ≡ branch_ref_of control.now head (Some name.now)) }
    ensures value { IfOk result IsEndRef }
{
    Ok(EndRef {
        name: name.clone()?,
        expected: Some(control.orig),
        new: Some(head),
        message: finish_message(alloc, name.as_slice(), control.onto)?,
        is_update: false,
    })
}

fn push_branch(
    alloc: Global,
    control: &Control,
    head: Id,
    refs: &mut Vec<EndRef>,
) -> Result<(), AllocError>
    requires branch { HasBranch control.now }
    requires refs { AreEndRefs refs.old.items }
    ensures is { OnOk result (refs.new.items ≡ refs.old.items ++ branch_ref_of control.now head control.now.head_name) }
    ensures value { OnOk result (AreEndRefs refs.new.items) }
{
    match &control.head_name {
        Some(name) => {
            let branch = branch_ref(alloc, control, head, name)?;
            refs.push(branch)?;
            Ok(())
        }
        None => Ok(()),
    }
}

fn push_updates(
    alloc: Global,
    updates: &[RefUpdate],
    refs: &mut Vec<EndRef>,
) -> Result<(), AllocError>
    requires updates { NameRefs updates.now }
    requires refs { AreEndRefs refs.old.items }
    ensures is { OnOk result (refs.new.items ≡ refs.old.items ++ map update_ref_of updates.now) }
    ensures value { OnOk result (AreEndRefs refs.new.items) }
{
    let mut rest = updates;
    while let [update, after @ ..] = rest {
        let found = update_ref(alloc, update)?;
        refs.push(found)?;
        rest = after;
    }
    Ok(())
}

/// The branch that is rebased first, then those of the `update-ref` lines.
pub fn end_refs(
    alloc: Global,
    control: &Control,
    head: Id,
    updates: &[RefUpdate],
) -> Result<Vec<EndRef>, AllocError>
    requires branch { HasBranch control.now }
    requires updates { NameRefs updates.now }
    ensures is { IfOk result (λ refs. refs.items ≡ end_refs_of control.now head updates.now) }
    ensures value { IfOk result (λ refs. AreEndRefs refs.items) }
{
    let mut refs = Vec::new(alloc);
    push_branch(alloc, control, head, &mut refs)?;
    push_updates(alloc, updates, &mut refs)?;
    Ok(refs)
}
