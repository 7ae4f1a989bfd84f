//! Update-ref lines.

ghost use Rattle.std.specs.Prelude.{◌≡◌, ◌++◌, [], IfOk, OnOk, false, map};
ghost use Rattle.std.specs.List.Sorted.{IsPermutation, IsSorted};
ghost use Rattle.merge_base.specs.Graphs.{is_among};
ghost use Rattle.todo_plan.specs.Groups.{if_any};
ghost use Rattle.todo_plan.specs.Told.{rev_of, rev_of_merge};
ghost use Rattle.todo_plan.specs.UpdateRefs.{HasUpdateRefs, behind_each, branch_at, by_name, update_lines, without_updates};

use crate::groups::{begins, goes_on};
use seq_base::{Bytes, Id};
use std::alloc::{AllocError, Global};
use todo_text::{Line, MergeHow};

/// Puts a line `update-ref NAME` behind the group that has the commit of the branch, for each of the branches, each a name and a commit: a group
/// is a pick or a merge and the squash and fixup lines that stand behind it, and its branches come in byte order. A branch whose commit
/// has no line gets none (git-rebase(1), "--update-refs").
pub fn add_update_refs(
    alloc: Global,
    lines: Vec<Line>,
    refs: &[(Bytes, Id)],
) -> Result<Vec<Line>, AllocError>
    ensures todo { IfOk result (λ all. HasUpdateRefs refs.now lines.items all.items) }
    // All other lines stay, in their order.
    ensures others { IfOk result (λ all. without_updates all.items ≡ without_updates lines.items) }
{
    let branches = in_order(branches_of(alloc, refs)?)?;
    with_updates(alloc, lines, &branches)
}

fn bytes_of(alloc: Global, bytes: &[u8]) -> Result<Bytes, AllocError>
    ensures { IfOk result (λ copy. copy ≡ bytes.now) }
{
    Ok(Bytes::from_vec(Vec::from_slice(alloc, bytes)?))
}

/// Each branch with the hex digits of its commit.
fn branches_of(alloc: Global, refs: &[(Bytes, Id)]) -> Result<Vec<(Bytes, Bytes)>, AllocError>
    ensures { IfOk result (λ branches. branches.items ≡ map branch_at refs.now) }
{
    let mut branches = Vec::new(alloc);
    for (name, id) in refs {
        let hex = Bytes::from_vec(id.hex(alloc)?);
        branches.push((bytes_of(alloc, name.as_slice())?, hex))?;
    }
    Ok(branches)
}

fn in_order(mut branches: Vec<(Bytes, Bytes)>) -> Result<Vec<(Bytes, Bytes)>, AllocError>
    ensures same { IfOk result (λ sorted. IsPermutation branches.items sorted.items) }
    ensures order { IfOk result (λ sorted. IsSorted by_name sorted.items) }
{
    branches.sort()?;
    Ok(branches)
}

fn is_among(revs: &[Bytes], rev: &Bytes) -> bool
    ensures { result ≡ is_among revs.now rev.now }
{
    revs.contains(rev)
}

fn push_updates(
    alloc: Global,
    branches: &[(Bytes, Bytes)],
    revs: &[Bytes],
    lines: &mut Vec<Line>,
) -> Result<(), AllocError>
    ensures { OnOk result (lines.new.items ≡ lines.old.items ++ update_lines branches.now revs.now) }
{
    for (name, hex) in branches {
        if is_among(revs, hex) {
            lines.push(Line::UpdateRef {
                name: bytes_of(alloc, name.as_slice())?,
            })?;
        }
    }
    Ok(())
}

fn push_if(
    alloc: Global,
    wanted: bool,
    branches: &[(Bytes, Bytes)],
    revs: &[Bytes],
    lines: &mut Vec<Line>,
) -> Result<(), AllocError>
    ensures { OnOk result (lines.new.items ≡ lines.old.items ++ if_any wanted (update_lines branches.now revs.now)) }
{
    if wanted {
        return push_updates(alloc, branches, revs, lines);
    }
    Ok(())
}

fn push_merge_rev(alloc: Global, how: &MergeHow, revs: &mut Vec<Bytes>) -> Result<(), AllocError>
    ensures { OnOk result (revs.new.items ≡ revs.old.items ++ rev_of_merge how.now) }
{
    match how {
        MergeHow::Plain => Ok(()),
        MergeHow::Keep { rev } => Ok(revs.push(bytes_of(alloc, rev.as_slice())?)?),
        MergeHow::Reword { rev } => Ok(revs.push(bytes_of(alloc, rev.as_slice())?)?),
    }
}

/// Adds the commit that a line is about.
fn push_rev(alloc: Global, line: &Line, revs: &mut Vec<Bytes>) -> Result<(), AllocError>
    ensures { OnOk result (revs.new.items ≡ revs.old.items ++ rev_of line.now) }
{
    match line {
        Line::Pick { rev, .. } => Ok(revs.push(bytes_of(alloc, rev.as_slice())?)?),
        Line::Merge { how, .. } => push_merge_rev(alloc, how, revs),
        Line::Exec { .. }
        | Line::Break
        | Line::Noop
        | Line::Label { .. }
        | Line::Reset { .. }
        | Line::UpdateRef { .. } => Ok(()),
    }
}

fn with_updates(
    alloc: Global,
    lines: Vec<Line>,
    branches: &[(Bytes, Bytes)],
) -> Result<Vec<Line>, AllocError>
    ensures { IfOk result (λ all. all.items ≡ behind_each branches.now false [] lines.items) }
{
    let mut all = Vec::new(alloc);
    let mut revs = Vec::new(alloc);
    let mut inside = false;
    for line in lines {
        let goes_on = goes_on(&line);
        push_if(alloc, inside && !goes_on, branches, &revs, &mut all)?;
        if !goes_on {
            revs.clear();
        }
        push_rev(alloc, &line, &mut revs)?;
        inside = begins(&line) || inside && goes_on;
        all.push(line)?;
    }
    push_if(alloc, inside, branches, &revs, &mut all)?;
    Ok(all)
}
