//! Back to HEAD's map, where a line is blocked after its switch.

ghost use Rattle.std.specs.Prelude.{◌≡◌, ◌<◌, ◌^◌, IfOk, OnOk, length};
ghost use Rattle.child_steps.specs.Causes.{NeverStops};
ghost use Rattle.index_file.specs.Entries.{IsInOrder};
ghost use Rattle.line_steps.specs.Heads.{index_found as index_found_at};
ghost use Rattle.line_steps.specs.Picks.{back_if, is_blocked_kind};
ghost use Rattle.line_steps.specs.Writing.{back_from, entries_or_none as entries_or_none_of, reset_over as reset_over_of};
ghost use Rattle.seq_outside.specs.Halts.{halt_cause};
ghost use Rattle.seq_outside.specs.Seen.{Reads, Writes};

use crate::head::index_found;
use index_file::IndexEntry;
use line_steps::Stop;
use seq_base::PathMap;
use seq_model::StopKind;
use seq_outside::{Halt, Store};
use stage_index::from_map;
use std::alloc::Global;
use worktree::reset_hard;

/// The entries of the index; none where it cannot be read.
fn entries_or_none<S: Store>(alloc: Global, store: &mut S) -> Result<Vec<IndexEntry>, Halt<Stop>>
    ensures gives { S.told → IfOk result (λ v. v.items ≡ entries_or_none_of (index_found_at (S.seen store.old).content)) }
    ensures order { IfOk result (λ v. IsInOrder v.items) }
    ensures never_stops { NeverStops result }
    ensures reads { Reads S.told halt_cause result (S.seen store.old) (S.seen store.new) }
{
    match index_found(alloc, store) {
        Ok(entries) => Ok(entries),
        Err(Halt::Stops(_why)) => Ok(Vec::new(alloc)),
        Err(Halt::Fault) => Err(Halt::Fault),
        Err(Halt::Memory) => Err(Halt::Memory),
    }
}

/// Resets index and files to a map, over the paths of an index, as far as that can be done.
fn reset_over<S: Store>(
    alloc: Global,
    from: &[IndexEntry],
    ours: &PathMap,
    store: &mut S,
) -> Result<(), Halt<Stop>>
    requires order { IsInOrder from.now }
    requires few { length ours.now < 2 ^ 32 }
    ensures back { S.told → OnOk result ((S.seen store.new).content ≡ reset_over_of from.now ours.now (S.seen store.old).content) }
    ensures never_stops { NeverStops result }
    ensures writes { Writes S.told halt_cause result (S.seen store.old) (S.seen store.new) }
{
    match reset_hard(alloc, store, from, ours) {
        Ok(()) => Ok(()),
        Err(Halt::Stops(_lack)) => Ok(()),
        Err(Halt::Fault) => Err(Halt::Fault),
        Err(Halt::Memory) => Err(Halt::Memory),
    }
}

/// Resets index and files to HEAD's map, over the paths of the map that was switched to and of the index.
#[tactic(auto, unfolding(line_steps::specs::Writing::back_from))]
fn go_back<S: Store>(
    alloc: Global,
    to: &PathMap,
    ours: &PathMap,
    store: &mut S,
) -> Result<(), Halt<Stop>>
    requires few { length ours.now < 2 ^ 32 }
    ensures back { S.told → OnOk result ((S.seen store.new).content ≡ back_from to.now ours.now (S.seen store.old).content) }
    ensures never_stops { NeverStops result }
    ensures writes { Writes S.told halt_cause result (S.seen store.old) (S.seen store.new) }
{
    let index = entries_or_none(alloc, store)?;
    let entries = from_map(alloc, to)?;
    reset_over(alloc, &entries, ours, store)?;
    reset_over(alloc, &index, ours, store)?;
    Ok(())
}

fn is_blocked(kind: &StopKind) -> bool
    ensures { result ≡ is_blocked_kind kind.now }
{
    match kind {
        StopKind::Conflict => false,
        StopKind::Edit => false,
        StopKind::Break => false,
        StopKind::ExecFailed { .. } => false,
        StopKind::ExecDirty { .. } => false,
        StopKind::Empty { .. } => false,
        StopKind::HookRefused { .. } => false,
        StopKind::EditorFailed { .. } => false,
        StopKind::EmptyMessage => false,
        StopKind::DriverBroken { .. } => false,
        StopKind::Blocked(_) => true,
        StopKind::TodoBad { .. } => false,
        StopKind::RefMoved { .. } => false,
    }
}

/// Where a line is blocked that has switched index and files, these go back to HEAD's map.
pub fn go_back_if<S: Store>(
    alloc: Global,
    to: &PathMap,
    ours: &PathMap,
    stop: &Stop,
    store: &mut S,
) -> Result<(), Halt<Stop>>
    requires few { length ours.now < 2 ^ 32 }
    ensures back { S.told → OnOk result ((S.seen store.new).content ≡ back_if (back_from to.now ours.now) stop.now (S.seen store.old).content) }
    ensures never_stops { NeverStops result }
    ensures writes { Writes S.told halt_cause result (S.seen store.old) (S.seen store.new) }
{
    if is_blocked(&stop.kind) {
        return go_back(alloc, to, ours, store);
    }
    Ok(())
}
