//! The line `pick`.

ghost use Rattle.std.specs.Prelude.{◌≡◌, IfOk};
ghost use Rattle.child_steps.specs.Causes.{HasStepCause};
ghost use Rattle.child_steps.specs.Children.{spot_of};
ghost use Rattle.line_steps.specs.Picks.{at_broken as at_broken_of, commit_does, goes_forward as goes_forward_to, merge_does, merge_with};
ghost use Rattle.line_steps.specs.Picks.{named_does, pick_does, picked_does, picks, unless_empty};
ghost use Rattle.seq_outside.specs.Doing.{stops};
ghost use Rattle.seq_outside.specs.Follows.{Follows};
ghost use Rattle.seq_step.specs.Causes.{HasLineCause, IsBroken, stop_failed};
ghost use Rattle.seq_step.specs.Finding.{IsPicked, IsPicking, picked_is, picking_is, sides_is};
ghost use Rattle.line_steps.specs.Making.{commits_by, makers};
ghost use Rattle.seq_step.specs.Keeping.{Keeps};
ghost use Rattle.seq_step.specs.Settings.{MayCommit};

use crate::committing::commit;
use crate::conflict::conflict;
use crate::finding::{Picked, Picking, Sides, find_found, find_picked, find_sides};
use crate::forwarding::forward;
use crate::merging::merge_step;
use crate::pending::stop_pending;
use crate::switching::is_same;
use content_merge::{Merged, Texts};
use line_steps::{Place, Setting, Stop};
use seq_base::{Bytes, Id, Path, PathMap};
use seq_model::StopKind;
use seq_outside::{Clock, Exit, Halt, Spawner, Store};
use state_text::{Empty, Options};
use std::alloc::{AllocError, Global};

/// The line is put back where a driver broke.
fn at_broken(
    alloc: Global,
    pick: &Picked,
    path: &Path,
    exit: Exit,
    failed: bool,
) -> Result<Stop, AllocError>
    ensures { IfOk result (λ stop. stop ≡ at_broken_of (picked_is pick.now) path.now exit failed) }
{
    let path = Bytes::from_vec(path.bytes().to_vec(alloc)?);
    Ok(Stop {
        kind: StopKind::DriverBroken { path, exit },
        put_back: true,
        pending: None,
        commit: Some(pick.id),
        failed,
    })
}

/// The line is put back, and the list stops.
#[tactic(auto, using(crate::proofs::Halting::stopped_so))]
fn stop_broken<S: Store, P: Spawner<S>, C: Clock>(
    alloc: Global,
    pick: &Picked,
    path: &Path,
    exit: Exit,
    failed: bool,
    place: &mut Place,
    store: &mut S,
    spawner: &mut P,
    clock: &mut C,
) -> Result<(), Halt<Stop>>
    ensures follows { S.told → Follows P.ran C.ticked spawner.old clock.old spawner.new clock.new (λ x. x)
        (stops (at_broken_of (picked_is pick.now) path.now exit failed))
        (spot_of (S.seen store.old) place.old) result (spot_of (S.seen store.new) place.new) }
    ensures kept { IsBroken failed result (S.seen store.old) (S.seen store.new) (P.seen spawner.old) (P.seen spawner.new) }
    ensures keeps { Keeps place.old result place.new }
{
    let stop = at_broken(alloc, pick, path, exit, failed)?;
    Err(Halt::Stops(stop))
}

/// The merged map is committed, unless that makes an empty commit and such are dropped or stop the list.
fn commit_unless_empty<S: Store, P: Spawner<S>, C: Clock>(
    alloc: Global,
    setting: &Setting,
    options: &Options,
    at: &Picking,
    sides: &Sides,
    map: &PathMap,
    texts: &Texts,
    place: &mut Place,
    store: &mut S,
    spawner: &mut P,
    clock: &mut C,
) -> Result<(), Halt<Stop>>
    requires setting { MayCommit setting.now }
    requires at { IsPicking at.now }
    ensures follows { S.told → Follows P.ran C.ticked spawner.old clock.old spawner.new clock.new (λ x. x)
        (unless_empty options.now (sides_is at.now sides.now) map.now (picked_is at.now.pick)
        (commit_does commits_by setting.now options.now.edit (picking_is at.now) map.now texts.now))
        (spot_of (S.seen store.old) place.old) result (spot_of (S.seen store.new) place.new) }
    ensures cause { HasStepCause S.told stop_failed result (S.seen store.old) (S.seen store.new) (P.seen spawner.old) (P.seen spawner.new) }
    ensures keeps { Keeps place.old result place.new }
{
    if !is_same(alloc, map, &at.found.ours)? {
        return commit(
            alloc,
            setting,
            options.edit,
            at,
            map,
            texts,
            place,
            store,
            spawner,
            clock,
        );
    }
    if is_same(alloc, &sides.base, &sides.theirs)? {
        return commit(
            alloc,
            setting,
            options.edit,
            at,
            map,
            texts,
            place,
            store,
            spawner,
            clock,
        );
    }
    match options.empty {
        Empty::Drop => Ok(()),
        Empty::Keep => commit(
            alloc,
            setting,
            options.edit,
            at,
            map,
            texts,
            place,
            store,
            spawner,
            clock,
        ),
        Empty::Stop => {
            let kind = StopKind::Empty { id: at.pick.id };
            stop_pending(alloc, kind, true, &at.pick, place, store, spawner, clock)
        }
    }
}

/// The commit's change is merged, by the three maps.
#[tactic(auto, unfolding(line_steps::specs::Picks::merge_with))]
fn merge_sides<S: Store, P: Spawner<S>, C: Clock>(
    alloc: Global,
    setting: &Setting,
    options: &Options,
    at: &Picking,
    sides: &Sides,
    place: &mut Place,
    store: &mut S,
    spawner: &mut P,
    clock: &mut C,
) -> Result<(), Halt<Stop>>
    requires setting { MayCommit setting.now }
    requires at { IsPicking at.now }
    ensures follows { S.told → Follows P.ran C.ticked spawner.old clock.old spawner.new clock.new (λ x. x)
        (merge_with makers setting.now options.now (picking_is at.now) (sides_is at.now sides.now))
        (spot_of (S.seen store.old) place.old) result (spot_of (S.seen store.new) place.new) }
    ensures cause { HasLineCause stop_failed result (S.seen store.old) (S.seen store.new) (P.seen spawner.old) (P.seen spawner.new) }
    ensures keeps { Keeps place.old result place.new }
{
    let merged = merge_step(alloc, setting, at, sides, place, store, spawner, clock)?;
    match &merged {
        Merged::Clean { map, texts } => commit_unless_empty(
            alloc, setting, options, at, sides, map, texts, place, store, spawner, clock,
        ),
        Merged::Conflict {
            index,
            files,
            texts,
        } => conflict(alloc, at, index, files, texts, place, store, spawner, clock),
        Merged::Broken { path, exit, failed } => stop_broken(
            alloc, &at.pick, path, *exit, *failed, place, store, spawner, clock,
        ),
    }
}

/// The commit's change is merged into HEAD's map.
#[tactic(auto, unfolding(line_steps::specs::Picks::merge_does))]
fn merge<S: Store, P: Spawner<S>, C: Clock>(
    alloc: Global,
    setting: &Setting,
    options: &Options,
    at: &Picking,
    place: &mut Place,
    store: &mut S,
    spawner: &mut P,
    clock: &mut C,
) -> Result<(), Halt<Stop>>
    requires setting { MayCommit setting.now }
    requires at { IsPicking at.now }
    ensures follows { S.told → Follows P.ran C.ticked spawner.old clock.old spawner.new clock.new (λ x. x)
        (merge_does makers setting.now options.now (picking_is at.now))
        (spot_of (S.seen store.old) place.old) result (spot_of (S.seen store.new) place.new) }
    ensures cause { HasLineCause stop_failed result (S.seen store.old) (S.seen store.new) (P.seen spawner.old) (P.seen spawner.new) }
    ensures keeps { Keeps place.old result place.new }
{
    let sides = find_sides(alloc, at, store)?;
    merge_sides(
        alloc, setting, options, at, &sides, place, store, spawner, clock,
    )
}

/// The commit's only parent is HEAD, and such a commit need not be made anew.
fn goes_forward(options: &Options, head: Id, parent: Option<Id>) -> bool
    ensures { result ≡ goes_forward_to options.now head parent }
{
    match parent {
        Some(parent) => options.ff && parent.bytes() == head.bytes(),
        None => false,
    }
}

#[tactic(auto, using(crate::proofs::Causing::as_line))]
fn pick_by<S: Store, P: Spawner<S>, C: Clock>(
    alloc: Global,
    setting: &Setting,
    options: &Options,
    at: &Picking,
    place: &mut Place,
    store: &mut S,
    spawner: &mut P,
    clock: &mut C,
) -> Result<(), Halt<Stop>>
    requires setting { MayCommit setting.now }
    requires at { IsPicking at.now }
    ensures follows { S.told → Follows P.ran C.ticked spawner.old clock.old spawner.new clock.new (λ x. x)
        (picks makers setting.now options.now (picking_is at.now))
        (spot_of (S.seen store.old) place.old) result (spot_of (S.seen store.new) place.new) }
    ensures cause { HasLineCause stop_failed result (S.seen store.old) (S.seen store.new) (P.seen spawner.old) (P.seen spawner.new) }
    ensures keeps { Keeps place.old result place.new }
{
    if goes_forward(options, at.head, at.pick.parent) {
        return forward(alloc, setting, at, place, store, spawner, clock);
    }
    merge(alloc, setting, options, at, place, store, spawner, clock)
}

/// Picks a commit onto HEAD.
#[tactic(auto, unfolding(line_steps::specs::Picks::picked_does))]
fn pick_commit<S: Store, P: Spawner<S>, C: Clock>(
    alloc: Global,
    setting: &Setting,
    options: &Options,
    head: Id,
    pick: Picked,
    place: &mut Place,
    store: &mut S,
    spawner: &mut P,
    clock: &mut C,
) -> Result<(), Halt<Stop>>
    requires setting { MayCommit setting.now }
    requires pick { IsPicked pick }
    ensures follows { S.told → Follows P.ran C.ticked spawner.old clock.old spawner.new clock.new (λ x. x)
        (picked_does makers setting.now options.now head (picked_is pick))
        (spot_of (S.seen store.old) place.old) result (spot_of (S.seen store.new) place.new) }
    ensures cause { HasLineCause stop_failed result (S.seen store.old) (S.seen store.new) (P.seen spawner.old) (P.seen spawner.new) }
    ensures keeps { Keeps place.old result place.new }
{
    let found = find_found(alloc, pick.id, head, store)?;
    let at = Picking { head, found, pick };
    pick_by(alloc, setting, options, &at, place, store, spawner, clock)
}

#[tactic(auto, unfolding(line_steps::specs::Picks::named_does))]
fn pick_named<S: Store, P: Spawner<S>, C: Clock>(
    alloc: Global,
    setting: &Setting,
    options: &Options,
    rev: &[u8],
    head: Id,
    place: &mut Place,
    store: &mut S,
    spawner: &mut P,
    clock: &mut C,
) -> Result<(), Halt<Stop>>
    requires setting { MayCommit setting.now }
    ensures follows { S.told → Follows P.ran C.ticked spawner.old clock.old spawner.new clock.new (λ x. x)
        (named_does makers setting.now options.now rev.now head)
        (spot_of (S.seen store.old) place.old) result (spot_of (S.seen store.new) place.new) }
    ensures cause { HasLineCause stop_failed result (S.seen store.old) (S.seen store.new) (P.seen spawner.old) (P.seen spawner.new) }
    ensures keeps { Keeps place.old result place.new }
{
    let pick = find_picked(alloc, rev, store)?;
    pick_commit(
        alloc, setting, options, head, pick, place, store, spawner, clock,
    )
}

/// Picks the commit that a line names onto HEAD (git-rebase(1), "--empty"; git-cherry-pick(1)). HEAD goes forward to a commit whose only parent it
/// is at, where the options allow it. Else the commit's change is merged: a conflict is left in index and files and stops the list; a commit that
/// becomes empty goes by the option; and the commit is made with its hooks and its editor.
#[tactic(auto, unfolding(line_steps::specs::Picks::pick_does))]
pub fn pick<S: Store, P: Spawner<S>, C: Clock>(
    alloc: Global,
    setting: &Setting,
    options: &Options,
    rev: &[u8],
    place: &mut Place,
    store: &mut S,
    spawner: &mut P,
    clock: &mut C,
) -> Result<(), Halt<Stop>>
    requires setting { MayCommit setting.now }
    ensures follows { S.told → Follows P.ran C.ticked spawner.old clock.old spawner.new clock.new (λ x. x)
        (pick_does makers setting.now options.now rev.now)
        (spot_of (S.seen store.old) place.old) result (spot_of (S.seen store.new) place.new) }
    ensures cause { HasLineCause stop_failed result (S.seen store.old) (S.seen store.new) (P.seen spawner.old) (P.seen spawner.new) }
    ensures keeps { Keeps place.old result place.new }
{
    let head = place.head;
    pick_named(
        alloc, setting, options, rev, head, place, store, spawner, clock,
    )
}
