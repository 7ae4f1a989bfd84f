//! What stands in a repository that a pick does not take yet.

ghost use Rattle.std.specs.Prelude.{◌≡◌, map};
ghost use Rattle.std.specs.List.{AllByRecursion};
ghost use Rattle.seq_base.specs.StorePaths.{IsStorePath};
ghost use Rattle.seq_model.specs.Unbuilt.{lacks, lacks_all, lacks_below, only_built, untaken_paths};
ghost use Rattle.seq_outside.specs.Seen.{Reads};
ghost use Rattle.seq_outside.specs.Halts.{Gives, halt_cause};

use seq_model::{Denial, Refusal, refused};
use seq_outside::{Halt, Store};
use std::alloc::Global;

/// Refuses where a file stands below the path.
#[tactic(auto, unfolding(seq_model::specs::Unbuilt::lacks_below))]
fn refuse_below<S: Store>(alloc: Global, path: &[u8], store: &mut S) -> Result<(), Halt<Denial>>
    requires { IsStorePath path.now }
    ensures gives { S.told → Gives (λ x. x) result (lacks_below (S.seen store.old).content path.now) }
    ensures reads { Reads S.told halt_cause result (S.seen store.old) (S.seen store.new) }
{
    let below = store.list(alloc, path)?;
    if below.is_empty() {
        Ok(())
    } else {
        Err(refused(Refusal::NotBuilt))
    }
}

/// Refuses where a file stands at the path or below it.
#[tactic(auto, unfolding(seq_model::specs::Unbuilt::lacks))]
fn refuse_at<S: Store>(alloc: Global, path: &[u8], store: &mut S) -> Result<(), Halt<Denial>>
    requires { IsStorePath path.now }
    ensures gives { S.told → Gives (λ x. x) result (lacks (S.seen store.old).content path.now) }
    ensures reads { Reads S.told halt_cause result (S.seen store.old) (S.seen store.new) }
{
    if let Some(_text) = store.get(alloc, path)? {
        return Err(refused(Refusal::NotBuilt));
    }
    refuse_below(alloc, path, store)
}

/// Refuses where a file stands at one of the paths or below it.
#[tactic(auto, unfolding(seq_model::specs::Unbuilt::lacks_all))]
fn refuse_any<S: Store>(alloc: Global, paths: &[&[u8]], store: &mut S) -> Result<(), Halt<Denial>>
    requires { AllByRecursion (λ path. IsStorePath path.now) paths.now }
    ensures gives { S.told → Gives (λ x. x) result (lacks_all (S.seen store.old).content (map (λ path. path.now) paths.now)) }
    ensures reads { Reads S.told halt_cause result (S.seen store.old) (S.seen store.new) }
{
    let mut rest = paths;
    while let [path, after @ ..] = rest {
        refuse_at(alloc, path, store)?;
        rest = after;
    }
    Ok(())
}

/// Refuses where a command is in progress.
fn refuse_untaken<S: Store>(alloc: Global, store: &mut S) -> Result<(), Halt<Denial>>
    ensures gives { S.told → Gives (λ x. x) result (lacks_all (S.seen store.old).content untaken_paths) }
    ensures reads { Reads S.told halt_cause result (S.seen store.old) (S.seen store.new) }
{
    let paths: [&[u8]; 6] = [
        b".git/rebase-merge",
        b".git/sequencer",
        b".git/rebase-apply",
        b".git/CHERRY_PICK_HEAD",
        b".git/REVERT_HEAD",
        b".git/MERGE_HEAD",
    ];
    refuse_any(alloc, &paths, store)
}

/// Refuses where something stands that is not taken yet.
#[tactic(auto, unfolding(seq_model::specs::Unbuilt::only_built))]
pub fn refuse_unbuilt<S: Store>(alloc: Global, store: &mut S) -> Result<(), Halt<Denial>>
    ensures gives { S.told → Gives (λ x. x) result (only_built (S.seen store.old).content) }
    ensures reads { Reads S.told halt_cause result (S.seen store.old) (S.seen store.new) }
{
    refuse_untaken(alloc, store)?;
    refuse_below(alloc, b".git/hooks", store)
}
