//! Drivers are run, one after another.

ghost use Rattle.std.specs.Prelude.{◌≡◌, ◌≤◌, IsErrOf, OnOk, IfOk};
ghost use Rattle.std.specs.FinMap as map;
ghost use Rattle.driver_pool.specs.Files.{file_of, with_files, without_files};
ghost use Rattle.driver_pool.specs.Pools.{DrivesBy, HasPoolCause, IsDriven, RunsDrivers, end_behind, end_of, end_with as end_with_of, ended_as, pool_cause};
ghost use Rattle.driver_pool.specs.declared.files.Version.TheVariants.{Ours};
ghost use Rattle.seq_outside.specs.Seen.{Reads, Writes};

use crate::end::{DriverEnd, PoolFault};
use crate::files::{Version, file_path};
use crate::job::DriverJob;
use child_jobs::exec_job;
use seq_base::Bytes;
use seq_outside::{ChildError, Exit, Spawner, Store};
use std::alloc::Global;

fn put_version<S: Store>(
    alloc: Global,
    store: &mut S,
    number: u64,
    version: Version,
    bytes: &[u8],
) -> Result<(), PoolFault>
    ensures put { S.told → OnOk result ((S.seen store.new).content ≡ map.insert (S.seen store.old).content (file_of number version) bytes.now) }
    ensures no_child { IsErrOf result PoolFault.Child → ⊥ }
    ensures writes { Writes S.told pool_cause result (S.seen store.old) (S.seen store.new) }
{
    let path = file_path(alloc, number, version)?;
    store.put(alloc, path.as_slice(), bytes)?;
    Ok(())
}

fn put_files<S: Store>(
    alloc: Global,
    store: &mut S,
    number: u64,
    job: &DriverJob,
) -> Result<(), PoolFault>
    ensures put { S.told → OnOk result ((S.seen store.new).content ≡ with_files number job.now (S.seen store.old).content) }
    ensures no_child { IsErrOf result PoolFault.Child → ⊥ }
    ensures writes { Writes S.told pool_cause result (S.seen store.old) (S.seen store.new) }
{
    put_version(alloc, store, number, Version::Base, job.base.as_slice())?;
    put_version(alloc, store, number, Version::Ours, job.ours.as_slice())?;
    put_version(alloc, store, number, Version::Theirs, job.theirs.as_slice())
}

fn remove_version<S: Store>(
    alloc: Global,
    store: &mut S,
    number: u64,
    version: Version,
) -> Result<(), PoolFault>
    ensures removed { S.told → OnOk result ((S.seen store.new).content ≡ map.remove (S.seen store.old).content (file_of number version)) }
    ensures no_child { IsErrOf result PoolFault.Child → ⊥ }
    ensures not_blocked { IsErrOf result PoolFault.Blocked → ⊥ }
    ensures writes { Writes S.told pool_cause result (S.seen store.old) (S.seen store.new) }
{
    let path = file_path(alloc, number, version)?;
    store.remove(alloc, path.as_slice())?;
    Ok(())
}

/// What two calls come to: a fault of the store before all, else what the first came to.
fn both(first: Result<(), PoolFault>, second: Result<(), PoolFault>) -> Result<(), PoolFault>
    ensures { result ≡ ended_as first second }
{
    match (first, second) {
        (Err(PoolFault::Fault), _) => Err(PoolFault::Fault),
        (_, Err(PoolFault::Fault)) => Err(PoolFault::Fault),
        (Err(fault), _) => Err(fault),
        (Ok(()), second) => second,
    }
}

/// Removes the files of a job. Each is removed even where another could not be.
fn remove_files<S: Store>(alloc: Global, store: &mut S, number: u64) -> Result<(), PoolFault>
    ensures removed { S.told → OnOk result ((S.seen store.new).content ≡ without_files number (S.seen store.old).content) }
    ensures no_child { IsErrOf result PoolFault.Child → ⊥ }
    ensures not_blocked { IsErrOf result PoolFault.Blocked → ⊥ }
    ensures writes { Writes S.told pool_cause result (S.seen store.old) (S.seen store.new) }
{
    let base = remove_version(alloc, store, number, Version::Base);
    let ours = remove_version(alloc, store, number, Version::Ours);
    let theirs = remove_version(alloc, store, number, Version::Theirs);
    both(both(base, ours), theirs)
}

fn read_ours<S: Store>(
    alloc: Global,
    store: &mut S,
    number: u64,
) -> Result<Option<Bytes>, PoolFault>
    ensures found { S.told → IfOk result (λ found. found ≡ map.get (S.seen store.old).content (file_of number Ours)) }
    ensures no_child { IsErrOf result PoolFault.Child → ⊥ }
    ensures not_blocked { IsErrOf result PoolFault.Blocked → ⊥ }
    ensures reads { Reads S.told pool_cause result (S.seen store.old) (S.seen store.new) }
{
    let path = file_path(alloc, number, Version::Ours)?;
    match store.get(alloc, path.as_slice())? {
        Some(bytes) => Ok(Some(Bytes::from_vec(bytes))),
        None => Ok(None),
    }
}

fn end_with(code: u8, text: Option<Bytes>) -> DriverEnd
    ensures { result ≡ end_with_of code text }
{
    match text {
        None => DriverEnd::Broken(Exit::Code(code)),
        Some(text) if code == 0 => DriverEnd::Clean(text),
        Some(text) => DriverEnd::Conflict(text),
    }
}

fn read_end<S: Store>(
    alloc: Global,
    store: &mut S,
    number: u64,
    exit: Exit,
) -> Result<DriverEnd, PoolFault>
    ensures end { S.told → IfOk result (λ end. end ≡ end_of exit (map.get (S.seen store.old).content (file_of number Ours))) }
    ensures no_child { IsErrOf result PoolFault.Child → ⊥ }
    ensures not_blocked { IsErrOf result PoolFault.Blocked → ⊥ }
    ensures reads { Reads S.told pool_cause result (S.seen store.old) (S.seen store.new) }
{
    let Exit::Code(code) = exit else {
        return Ok(DriverEnd::Broken(exit));
    };
    if code >= 128 {
        return Ok(DriverEnd::Broken(exit));
    }
    let text = read_ours(alloc, store, number)?;
    Ok(end_with(code, text))
}

/// Runs a driver over its files, which stay.
fn run_child<S: Store, P: Spawner<S>>(
    alloc: Global,
    store: &mut S,
    spawner: &mut P,
    number: u64,
    job: &DriverJob,
) -> Result<DriverEnd, PoolFault>
    ensures drives { DrivesBy (λ w. w) S.told P.ran number job.now spawner.old (S.seen store.old) result spawner.new (S.seen store.new) }
    ensures cause { HasPoolCause S.told result (S.seen store.old) (S.seen store.new) (P.seen spawner.old) (P.seen spawner.new) }
{
    put_files(alloc, store, number, job)?;
    let child = exec_job(alloc, job.command.as_slice())?;
    match spawner.run(alloc, store, &child) {
        Ok(exit) => read_end(alloc, store, number, exit),
        Err(ChildError::Failed) => Err(PoolFault::Child),
        Err(ChildError::Store) => Err(PoolFault::Fault),
        Err(ChildError::Memory) => Err(PoolFault::Memory),
    }
}

/// What a driver came to, once its files were to be removed: a fault of the store before all.
fn behind(
    end: Result<DriverEnd, PoolFault>,
    removed: Result<(), PoolFault>,
) -> Result<DriverEnd, PoolFault>
    ensures { result ≡ end_behind end removed }
{
    match (end, removed) {
        (Err(PoolFault::Fault), _) => Err(PoolFault::Fault),
        (_, Err(fault)) => Err(fault),
        (end, Ok(())) => end,
    }
}

/// Runs a driver, and removes its files whatever it came to.
fn run_driver<S: Store, P: Spawner<S>>(
    alloc: Global,
    store: &mut S,
    spawner: &mut P,
    number: u64,
    job: &DriverJob,
) -> Result<DriverEnd, PoolFault>
    ensures drives { IsDriven S.told P.ran number job.now spawner.old (S.seen store.old) result spawner.new (S.seen store.new) }
    ensures cause { HasPoolCause S.told result (S.seen store.old) (S.seen store.new) (P.seen spawner.old) (P.seen spawner.new) }
{
    let end = run_child(alloc, store, spawner, number, job);
    let removed = remove_files(alloc, store, number);
    behind(end, removed)
}

/// Runs the drivers of a merge, one after another: job number K, counted from 1, is handed its three files while it runs, and they
/// are removed behind it, also where its child could not be run. The ends are in the order of the jobs. A fault of the store comes
/// before one of the spawner, and both end it at once.
#[tactic(auto, using(crate::proofs::Running::begins, crate::proofs::Running::ends_at))]
pub fn run_drivers<S: Store, P: Spawner<S>>(
    alloc: Global,
    store: &mut S,
    spawner: &mut P,
    jobs: &[DriverJob],
    _width: u8,
) -> Result<Vec<DriverEnd>, PoolFault>
    requires { (1 ≤ _width) × (_width ≤ 16) }
    ensures runs { RunsDrivers S.told P.ran jobs.now spawner.old (S.seen store.old) result spawner.new (S.seen store.new) }
    ensures cause { HasPoolCause S.told result (S.seen store.old) (S.seen store.new) (P.seen spawner.old) (P.seen spawner.new) }
{
    let mut ends = Vec::new(alloc);
    let mut number = 1;
    let mut rest = jobs;
    while let [job, after @ ..] = rest {
        match run_driver(alloc, store, spawner, number, job) {
            Ok(end) => {
                let Ok(()) = ends.push(end) else {
                    return Err(PoolFault::Memory);
                };
            }
            Err(fault) => return Err(fault),
        }
        number += 1;
        rest = after;
    }
    Ok(ends)
}
