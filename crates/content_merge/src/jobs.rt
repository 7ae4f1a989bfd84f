//! The drivers of a merge, and what they are handed.

ghost use Rattle.std.specs.Prelude.{◌≡◌, []};
ghost use Rattle.seq_outside.specs.Halts.{Gives, halt_cause};
ghost use Rattle.seq_outside.specs.Seen.{Reads};
ghost use Rattle.content_merge.specs.Fates.{is_content as is_content_choice, wants_end as wants_end_of};
ghost use Rattle.content_merge.specs.Jobs.{driver_at, job_of, row_driver as row_driver_of, version_of, with_drivers, with_job, with_jobs};

use crate::drivers::path_driver;
use crate::rule_files::read_rule_files;
use config_text::Config;
use driver_pool::{DriverJob, command};
use seq_base::{Bytes, Entry, Path, PathMap};
use seq_outside::{Halt, Lack, Store};
use std::alloc::Global;
use tree_merge::{Choice, Planned};
use worktree::read_blob;

fn is_content(choice: &Choice) -> bool
    ensures { result ≡ is_content_choice choice.now }
{
    match choice {
        Choice::Take(_) => false,
        Choice::Content { .. } => true,
        Choice::Conflict { .. } => false,
    }
}

/// Whether a driver is run for a path of a plan, if it has one.
fn wants_end(row: &Planned) -> bool
    ensures { result ≡ wants_end_of row.now }
{
    is_content(&row.choice) && !row.clash
}

/// The template of a path's driver, if it has one that is run.
#[tactic(auto, unfolding(crate::specs::Jobs::driver_at))]
fn read_driver<S: Store>(
    alloc: Global,
    store: &mut S,
    config: &Config,
    head: &PathMap,
    path: &Path,
) -> Result<Option<Bytes>, Halt<Lack>>
    ensures gives { S.told → Gives (λ driver. driver) result (driver_at (S.seen store.old).content config.now head.now path.now) }
    ensures reads { Reads S.told halt_cause result (S.seen store.old) (S.seen store.new) }
{
    let files = read_rule_files(alloc, store, head, path)?;
    match path_driver(alloc, config, &files, path)? {
        Some(template) => Ok(Some(Bytes::from_vec(template))),
        None => Ok(None),
    }
}

#[tactic(auto, unfolding(crate::specs::Jobs::row_driver))]
fn row_driver<S: Store>(
    alloc: Global,
    store: &mut S,
    config: &Config,
    head: &PathMap,
    row: &Planned,
) -> Result<Option<Bytes>, Halt<Lack>>
    ensures gives { S.told → Gives (λ driver. driver) result (row_driver_of (S.seen store.old).content config.now head.now row.now) }
    ensures reads { Reads S.told halt_cause result (S.seen store.old) (S.seen store.new) }
{
    if !wants_end(row) {
        return Ok(None);
    }
    read_driver(alloc, store, config, head, &row.path)
}

/// The template of the driver of each path of a plan, in the plan's order; none where no contents are to be merged, or no driver is run.
#[tactic(auto, unfolding(crate::specs::Jobs::with_drivers))]
pub fn read_drivers<S: Store>(
    alloc: Global,
    store: &mut S,
    config: &Config,
    head: &PathMap,
    rows: &[Planned],
) -> Result<Vec<Option<Bytes>>, Halt<Lack>>
    ensures gives { S.told → Gives (λ drivers. drivers.items) result (with_drivers (S.seen store.old).content config.now head.now [] rows.now) }
    ensures reads { Reads S.told halt_cause result (S.seen store.old) (S.seen store.new) }
{
    let mut drivers = Vec::new(alloc);
    let mut rest = rows;
    while let [row, after @ ..] = rest {
        drivers.push(row_driver(alloc, store, config, head, row)?)?;
        rest = after;
    }
    Ok(drivers)
}

/// A version of a file, which is empty where there is none.
#[tactic(auto, unfolding(crate::specs::Jobs::version_of))]
fn read_version<S: Store>(
    alloc: Global,
    store: &mut S,
    entry: &Option<Entry>,
) -> Result<Bytes, Halt<Lack>>
    ensures gives { S.told → Gives (λ bytes. bytes) result (version_of (S.seen store.old).content entry.now) }
    ensures reads { Reads S.told halt_cause result (S.seen store.old) (S.seen store.new) }
{
    let Some(entry) = entry else {
        return Ok(Bytes::from_vec(Vec::new(alloc)));
    };
    read_blob(alloc, store, entry.id)
}

/// The job of a path whose contents a driver merges, by its number and the driver's template. The ancestor's version is read first,
/// then ours, then theirs: the first that is missing, damaged or no blob is Object, and one that is too large Limit.
#[tactic(auto, unfolding(crate::specs::Jobs::job_of))]
fn read_job<S: Store>(
    alloc: Global,
    store: &mut S,
    row: &Planned,
    template: &[u8],
    number: u64,
) -> Result<DriverJob, Halt<Lack>>
    ensures gives { S.told → Gives (λ job. job) result (job_of (S.seen store.old).content row.now template.now number) }
    ensures reads { Reads S.told halt_cause result (S.seen store.old) (S.seen store.new) }
{
    let base = read_version(alloc, store, &row.base)?;
    let ours = read_version(alloc, store, &row.ours)?;
    let theirs = read_version(alloc, store, &row.theirs)?;
    Ok(DriverJob {
        path: row.path.copy()?,
        command: Bytes::from_vec(command(alloc, template, &row.path, number)?),
        base,
        ours,
        theirs,
    })
}

/// Adds the job of a path, if it has a driver.
#[tactic(auto, unfolding(crate::specs::Jobs::with_job))]
fn push_job<S: Store>(
    alloc: Global,
    store: &mut S,
    row: &Planned,
    driver: &Option<Bytes>,
    jobs: &mut Vec<DriverJob>,
) -> Result<(), Halt<Lack>>
    ensures gives { S.told → Gives (λ _. jobs.new.items) result (with_job (S.seen store.old).content jobs.old.items row.now driver.now) }
    ensures reads { Reads S.told halt_cause result (S.seen store.old) (S.seen store.new) }
{
    let Some(template) = driver else {
        return Ok(());
    };
    let number = jobs.len() as u64 + 1;
    jobs.push(read_job(alloc, store, row, template.as_slice(), number)?)?;
    Ok(())
}

/// The jobs of the drivers of a plan, numbered from 1 in the plan's order.
#[tactic(auto, unfolding(crate::specs::Jobs::with_jobs))]
pub fn read_jobs<S: Store>(
    alloc: Global,
    store: &mut S,
    rows: &[Planned],
    drivers: &[Option<Bytes>],
) -> Result<Vec<DriverJob>, Halt<Lack>>
    ensures gives { S.told → Gives (λ jobs. jobs.items) result (with_jobs (S.seen store.old).content [] rows.now drivers.now) }
    ensures reads { Reads S.told halt_cause result (S.seen store.old) (S.seen store.new) }
{
    let mut jobs = Vec::new(alloc);
    let mut rest = rows;
    let mut driven = drivers;
    while let [row, after @ ..] = rest {
        let [driver, others @ ..] = driven else {
            return Ok(jobs);
        };
        push_job(alloc, store, row, driver, &mut jobs)?;
        rest = after;
        driven = others;
    }
    Ok(jobs)
}
