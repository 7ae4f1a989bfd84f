//! The merge of a line.

ghost use Rattle.std.specs.Prelude.{◌≡◌, ◌≤◌, IfOk, None, true};
ghost use Rattle.std.specs.Option.{option_map};
ghost use Rattle.seq_outside.specs.Causes.{Rose};
ghost use Rattle.seq_outside.specs.Follows.{Follows};
ghost use Rattle.driver_pool.specs.Drives.{drivers_end};
ghost use Rattle.content_merge.specs.Causes.{HasMergeCause, IsStill, StaysStill, is_unrun};
ghost use Rattle.content_merge.specs.Merging.{HoldsIndex, IsSound, at_world, merge_does, merge_with};

use crate::jobs::{read_drivers, read_jobs};
use crate::merged::{Merged, merged_with};
use config_text::Config;
use driver_pool::{DriverEnd, DriverJob, PoolFault, run_drivers};
use seq_base::{Bytes, PathMap};
use seq_outside::{Clock, Halt, Lack, Spawner, Store};
use std::alloc::Global;
use tree_merge::{Planned, whole_plan};

/// Runs the drivers of a merge: how each ended, or none where one of them could not be run.
fn drive<S: Store, P: Spawner<S>, C: Clock>(
    alloc: Global,
    store: &mut S,
    spawner: &mut P,
    _clock: &C,
    jobs: &[DriverJob],
    width: u8,
) -> Result<Option<Vec<DriverEnd>>, Halt<Lack>>
    requires { (1 ≤ width) × (width ≤ 16) }
    ensures follows { S.told → Follows P.ran C.ticked spawner.old _clock.now spawner.new _clock.now (λ ends. option_map (λ v. v.items) ends) (drivers_end jobs.now)
        (at_world (S.seen store.old).content) result (at_world (S.seen store.new).content) }
    ensures cause { HasMergeCause result (S.seen store.old) (S.seen store.new) (P.seen spawner.old) (P.seen spawner.new) }
    ensures still { IsStill P.ran spawner.old spawner.new (StaysStill result (S.seen store.old) (S.seen store.new)) }
    ensures unrun { IfOk result (λ ends. ends ≡ None → Rose (P.seen spawner.old).faults (P.seen spawner.new).faults) }
{
    match run_drivers(alloc, store, spawner, jobs, width) {
        Ok(ends) => Ok(Some(ends)),
        Err(PoolFault::Child) => Ok(None),
        Err(PoolFault::Fault) => Err(Halt::Fault),
        Err(PoolFault::Blocked) => Err(Halt::Fault),
        Err(PoolFault::Memory) => Err(Halt::Memory),
    }
}

/// Merges by a plan and the drivers of its paths.
#[tactic(auto, unfolding(crate::specs::Merging::merge_with), using(crate::proofs::Driving::cause_later, crate::proofs::Driving::still_later))]
fn merge_rows<S: Store, P: Spawner<S>, C: Clock>(
    alloc: Global,
    store: &mut S,
    spawner: &mut P,
    clock: &C,
    rows: &[Planned],
    drivers: &[Option<Bytes>],
    width: u8,
) -> Result<Merged, Halt<Lack>>
    requires sound { IsSound rows.now }
    requires width { (1 ≤ width) × (width ≤ 16) }
    ensures follows { S.told → Follows P.ran C.ticked spawner.old clock.now spawner.new clock.now (λ merged. merged) (merge_with rows.now drivers.now)
        (at_world (S.seen store.old).content) result (at_world (S.seen store.new).content) }
    ensures cause { HasMergeCause result (S.seen store.old) (S.seen store.new) (P.seen spawner.old) (P.seen spawner.new) }
    ensures still { IsStill P.ran spawner.old spawner.new (StaysStill result (S.seen store.old) (S.seen store.new)) }
    ensures unrun { IfOk result (λ merged. is_unrun merged ≡ true → Rose (P.seen spawner.old).faults (P.seen spawner.new).faults) }
    ensures index { IfOk result HoldsIndex }
{
    let jobs = read_jobs(alloc, store, rows, drivers)?;
    let ends = drive(alloc, store, spawner, clock, &jobs, width)?;
    Ok(merged_with(alloc, rows, drivers, ends)?)
}

/// Merges three maps, of which `ours` is HEAD's (git-merge(1), "TRUE MERGE"; gitattributes(5), "Performing a three-way merge"): a path
/// that one side alone changed has what that side has, and the contents that both changed are merged by the driver that rule files and
/// settings name, as child number K over its own three files. Rule files are those of HEAD's map and `.git/info/attributes`, read in
/// path order and for each path the strongest first; then the blobs of the drivers' jobs are read, in path order, and of each base, ours and
/// theirs. The first that is missing, damaged or no blob is Object, and one that is too large Limit, and nothing has changed. Then the
/// drivers are run, at most `width` at once. None of their files is left unless the store failed. No blob is put: what it answers tells the
/// texts of new ones.
///
/// The clock is not looked at: it stands here so that the call can be said as a step of a list.
#[tactic(auto, unfolding(crate::specs::Merging::merge_does), using(crate::proofs::Indexes::plan_sound, crate::proofs::Driving::cause_later, crate::proofs::Driving::still_later))]
pub fn merge<S: Store, P: Spawner<S>, C: Clock>(
    alloc: Global,
    store: &mut S,
    spawner: &mut P,
    clock: &C,
    config: &Config,
    base: &PathMap,
    ours: &PathMap,
    theirs: &PathMap,
    width: u8,
) -> Result<Merged, Halt<Lack>>
    requires { (1 ≤ width) × (width ≤ 16) }
    ensures follows { S.told → Follows P.ran C.ticked spawner.old clock.now spawner.new clock.now (λ merged. merged) (merge_does config.now base.now ours.now theirs.now)
        (at_world (S.seen store.old).content) result (at_world (S.seen store.new).content) }
    ensures cause { HasMergeCause result (S.seen store.old) (S.seen store.new) (P.seen spawner.old) (P.seen spawner.new) }
    ensures still { IsStill P.ran spawner.old spawner.new (StaysStill result (S.seen store.old) (S.seen store.new)) }
    ensures unrun { IfOk result (λ merged. is_unrun merged ≡ true → Rose (P.seen spawner.old).faults (P.seen spawner.new).faults) }
    ensures index { IfOk result HoldsIndex }
{
    let _base = base.len();
    let _ours = ours.len();
    let _theirs = theirs.len();
    let plan = whole_plan(alloc, base, ours, theirs)?;
    let rows = plan.paths.as_slice();
    let drivers = read_drivers(alloc, store, config, ours, rows)?;
    merge_rows(alloc, store, spawner, clock, rows, &drivers, width)
}
