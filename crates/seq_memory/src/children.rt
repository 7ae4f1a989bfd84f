//! What the spawners in memory share: a job is noted, and the writes of its child are made.

ghost use Rattle.std.specs.List.{AllByRecursion};
ghost use Rattle.std.specs.Prelude.{◌≡◌, ◌+◌, ◌∷◌, ◌++◌, [], IfOk, OnErr, OnOk, Some, None, false, true, vec_len};
ghost use Rattle.seq_base.specs.StorePaths.{IsStorePath};
ghost use Rattle.seq_outside.specs.Seen.{Goes};
ghost use Rattle.seq_outside.specs.Store.{StaysElsewhere, StaysOutside};
ghost use Rattle.seq_memory.specs.Children.{LeavesIfWell, changed, is_written, noted_as, written};

use crate::answer::Noted;
use seq_base::Bytes;
use seq_outside::{Job, Store, StoreError, Words};
use std::alloc::{AllocError, Global};

fn copy_of_bytes(alloc: Global, bytes: &Bytes) -> Result<Bytes, AllocError>
    ensures { IfOk result (λ copy. copy ≡ bytes.now) }
{
    Ok(Bytes::from_vec(Vec::from_slice(alloc, bytes.as_slice())?))
}

fn copy_of_words(alloc: Global, words: &[Bytes]) -> Result<Words, AllocError>
    ensures { IfOk result (λ copy. copy ≡ words.now) }
{
    let mut copies = Vec::new(alloc);
    for word in words {
        copies.push(copy_of_bytes(alloc, word)?)?;
    }
    Ok(Words::from_vec(copies))
}

pub fn copy_of_job(alloc: Global, job: &Job) -> Result<Job, AllocError>
    ensures { IfOk result (λ copy. copy ≡ job.now) }
{
    let words = copy_of_words(alloc, job.words.as_slice())?;
    let input = copy_of_bytes(alloc, &job.input)?;
    Ok(Job { words, input })
}

/// Notes a job with its start and its end, or nothing of it.
pub fn note_job(jobs: &mut Vec<Job>, log: &mut Vec<Noted>, job: Job) -> Result<(), AllocError>
    ensures nothing { OnErr result ((jobs.new.items ≡ jobs.old.items) × (log.new.items ≡ log.old.items)) }
    ensures jobs { OnOk result (jobs.new.items ≡ jobs.old.items ++ job ∷ []) }
    ensures log { OnOk result (log.new.items ≡ log.old.items ++ noted_as (vec_len jobs.old + 1) false ∷ noted_as (vec_len jobs.old + 1) true ∷ []) }
{
    log.try_reserve(2)?;
    jobs.push(job)?;
    let job = jobs.len() as u64;
    log.push(Noted { job, end: false })?;
    log.push(Noted { job, end: true })?;
    Ok(())
}

/// Makes a child's writes. One that is blocked or fails is passed over.
pub fn make_writes<S: Store>(
    alloc: Global,
    store: &mut S,
    writes: &[(Bytes, Option<Bytes>)],
) -> Result<(), AllocError>
    requires { AllByRecursion (λ change. IsStorePath change.0) writes.now }
    ensures exact { S.told → LeavesIfWell result (S.seen store.old) (written (S.seen store.old).content writes.now) (S.seen store.new) }
    ensures elsewhere { S.told → StaysOutside (is_written writes.now) (S.seen store.old).content (S.seen store.new).content }
    ensures store { Goes S.told (S.seen store.old) (S.seen store.new) }
{
    let mut rest = writes;
    while let [write, after @ ..] = rest {
        make_write(alloc, store, write)?;
        rest = after;
    }
    Ok(())
}

fn make_write<S: Store>(
    alloc: Global,
    store: &mut S,
    write: &(Bytes, Option<Bytes>),
) -> Result<(), AllocError>
    requires { IsStorePath write.now.0 }
    ensures exact { S.told → LeavesIfWell result (S.seen store.old) (changed (S.seen store.old).content write.now.0 write.now.1) (S.seen store.new) }
    ensures elsewhere { S.told → StaysElsewhere write.now.0 (S.seen store.old).content (S.seen store.new).content }
    ensures store { Goes S.told (S.seen store.old) (S.seen store.new) }
{
    match &write.1 {
        Some(bytes) => write_file(alloc, store, write.0.as_slice(), bytes.as_slice()),
        None => remove_file(alloc, store, write.0.as_slice()),
    }
}

fn write_file<S: Store>(
    alloc: Global,
    store: &mut S,
    path: &[u8],
    bytes: &[u8],
) -> Result<(), AllocError>
    requires { IsStorePath path.now }
    ensures exact { S.told → LeavesIfWell result
        (S.seen store.old)
        (changed (S.seen store.old).content path.now (Some bytes.now))
        (S.seen store.new) }
    ensures elsewhere { S.told → StaysElsewhere path.now (S.seen store.old).content (S.seen store.new).content }
    ensures store { Goes S.told (S.seen store.old) (S.seen store.new) }
{
    match store.put(alloc, path, bytes) {
        Ok(()) => Ok(()),
        Err(StoreError::Blocked | StoreError::Failed) => Ok(()),
        Err(StoreError::Memory) => Err(AllocError),
    }
}

fn remove_file<S: Store>(alloc: Global, store: &mut S, path: &[u8]) -> Result<(), AllocError>
    requires { IsStorePath path.now }
    ensures exact { S.told → LeavesIfWell result (S.seen store.old) (changed (S.seen store.old).content path.now None) (S.seen store.new) }
    ensures elsewhere { S.told → StaysElsewhere path.now (S.seen store.old).content (S.seen store.new).content }
    ensures store { Goes S.told (S.seen store.old) (S.seen store.new) }
{
    match store.remove(alloc, path) {
        Ok(_) => Ok(()),
        Err(StoreError::Blocked) => unreachable!(),
        Err(StoreError::Failed) => Ok(()),
        Err(StoreError::Memory) => Err(AllocError),
    }
}
