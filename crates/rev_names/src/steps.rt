//! Steps from a commit to those before it.

ghost use Rattle.std.specs.Prelude.{◌≡◌, ◌≤◌};
ghost use Rattle.rev_names.specs.Commits.{ancestor_at as ancestor_at_of, commit_behind as commit_behind_of, parent_at as parent_at_of, step_to as step_to_of, steps_to as steps_to_of};
ghost use Rattle.seq_outside.specs.Halts.{Gives, halt_cause};
ghost use Rattle.seq_outside.specs.Seen.{Reads};

use crate::commit::{FoundCommit, commit_within, found_at};
use crate::fault::RevFault;
use rev_text::Step;
use seq_base::Id;
use seq_outside::{Halt, Store};
use std::alloc::Global;

/// A parent, counted from 1.
#[tactic(auto, unfolding(crate::specs::Commits::parent_at))]
fn parent_at<S: Store>(
    alloc: Global,
    store: &mut S,
    parents: &[Id],
    number: u64,
) -> Result<FoundCommit, Halt<RevFault>>
    requires { 1 ≤ number }
    ensures gives { S.told → Gives (λ found. found) result (parent_at_of (S.seen store.old).content parents.now number) }
    ensures reads { Reads S.told halt_cause result (S.seen store.old) (S.seen store.new) }
{
    match parents.get((number - 1) as usize) {
        Some(parent) => found_at(alloc, store, *parent),
        None => Err(Halt::Stops(RevFault::NoParent)),
    }
}

/// So many times the first parent.
#[tactic(auto, using(crate::proofs::Ancestors::ancestor_steps))]
fn ancestor_at<S: Store>(
    alloc: Global,
    store: &mut S,
    from: FoundCommit,
    number: u64,
) -> Result<FoundCommit, Halt<RevFault>>
    ensures gives { S.told → Gives (λ found. found) result (ancestor_at_of number (S.seen store.old).content from) }
    ensures reads { Reads S.told halt_cause result (S.seen store.old) (S.seen store.new) }
{
    let mut found = from;
    let mut left = number;
    while left > 0 {
        found = parent_at(alloc, store, found.commit.parents.as_slice(), 1)?;
        left -= 1;
    }
    Ok(found)
}

#[tactic(auto, unfolding(crate::specs::Commits::step_to))]
fn step_to<S: Store>(
    alloc: Global,
    store: &mut S,
    from: FoundCommit,
    step: Step,
) -> Result<FoundCommit, Halt<RevFault>>
    ensures gives { S.told → Gives (λ found. found) result (step_to_of (S.seen store.old).content from step) }
    ensures reads { Reads S.told halt_cause result (S.seen store.old) (S.seen store.new) }
{
    match step {
        Step::Parent { number } => {
            if number == 0 {
                return Ok(from);
            }
            parent_at(alloc, store, from.commit.parents.as_slice(), number)
        }
        Step::Ancestor { number } => ancestor_at(alloc, store, from, number),
    }
}

#[tactic(auto, unfolding(crate::specs::Commits::steps_to))]
fn steps_to<S: Store>(
    alloc: Global,
    store: &mut S,
    from: FoundCommit,
    steps: &[Step],
) -> Result<FoundCommit, Halt<RevFault>>
    ensures gives { S.told → Gives (λ found. found) result (steps_to_of (S.seen store.old).content from steps.now) }
    ensures reads { Reads S.told halt_cause result (S.seen store.old) (S.seen store.new) }
{
    let mut found = from;
    let mut rest = steps;
    while let [step, after @ ..] = rest {
        found = step_to(alloc, store, found, *step)?;
        rest = after;
    }
    Ok(found)
}

/// The commit that an object leads to, through at most sixteen tags, and steps from there.
#[tactic(auto, unfolding(crate::specs::Commits::commit_behind))]
pub fn commit_behind<S: Store>(
    alloc: Global,
    store: &mut S,
    id: Id,
    steps: &[Step],
) -> Result<Id, Halt<RevFault>>
    ensures gives { S.told → Gives (λ id. id) result (commit_behind_of (S.seen store.old).content id steps.now) }
    ensures reads { Reads S.told halt_cause result (S.seen store.old) (S.seen store.new) }
{
    let found = commit_within(alloc, store, 16, id)?;
    let last = steps_to(alloc, store, found, steps)?;
    Ok(last.id)
}
