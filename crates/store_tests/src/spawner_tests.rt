//! Children in memory.

ghost use Rattle.std.specs.Prelude.{◌≡◌, IfOk};
ghost use Rattle.seq_memory.specs.Children.{WriteStorePaths};

use seq_base::Bytes;
use seq_memory::{Answer, QuietSpawner, QuietStore, ScriptSpawner, Writes};
use seq_outside::{Changes, ChildError, DraftStore, Exit, Job, Spawner, Store, Words};
use std::alloc::{AllocError, Global};
use std::test::Fail;

fn bytes(alloc: Global, text: &[u8]) -> Result<Bytes, AllocError>
    ensures { IfOk result (λ b. b ≡ text.now) }
{
    Ok(Bytes::from_vec(Vec::from_slice(alloc, text)?))
}

fn job(alloc: Global, word: &[u8]) -> Result<Job, AllocError> {
    let mut words = Vec::new(alloc);
    words.push(bytes(alloc, word)?)?;
    Ok(Job {
        words: Words::from_vec(words),
        input: bytes(alloc, b"in")?,
    })
}

fn answers(alloc: Global) -> Result<Vec<Answer>, AllocError>
    ensures { IfOk result (λ answers. WriteStorePaths answers.items) }
{
    let mut writes = Vec::new(alloc);
    writes.push((bytes(alloc, b"a")?, Some(bytes(alloc, b"4\n")?)))?;
    writes.push((bytes(alloc, b"a/b")?, Some(bytes(alloc, b"5\n")?)))?;
    writes.push((bytes(alloc, b"c")?, None))?;
    let mut answers = Vec::new(alloc);
    answers.push(Answer {
        exit: Exit::Killed,
        writes: Writes::from_vec(writes),
        fails: true,
    })?;
    Ok(answers)
}

// A child that writes `a`, fails to write below it, removes `c` and is killed; and one past the list, which ends with 0.
#[test]
fn children_write_and_are_noted(rt: HostRuntime) -> Result<(), Fail> {
    let alloc = rt.alloc();
    let mut store = QuietStore::new(alloc, &[])?;
    assert!(rt; store.put(alloc, b"c", b"6\n").is_ok());
    let mut spawner = QuietSpawner::new(answers(alloc)?);
    assert!(rt; spawner.run(alloc, &mut store, &job(alloc, b"editor")?) == Ok(Exit::Killed));
    assert_eq!(rt; store.content().len(), 1);
    for file in store.content() {
        assert!(rt; file.0.as_slice() == b"a".as_slice() && file.1.as_slice() == b"4\n".as_slice());
    }
    assert!(rt; spawner.run(alloc, &mut store, &job(alloc, b"hook")?) == Ok(Exit::Code(0)));
    assert_eq!(rt; store.content().len(), 1);
    let log = [(1, false), (1, true), (2, false), (2, true)];
    assert_eq!(rt; spawner.log().len(), 4);
    for (noted, row) in spawner.log().iter().zip(log) {
        assert!(rt; noted.job == row.0 && noted.end == row.1);
    }
    let words: [&[u8]; 2] = [b"editor", b"hook"];
    assert_eq!(rt; spawner.jobs().len(), 2);
    for (job, word) in spawner.jobs().iter().zip(words) {
        assert!(rt; job.words.as_slice().iter().all(|w| w.as_slice() == word));
        assert!(rt; job.input.as_slice() == b"in".as_slice());
    }
    Ok(())
}

// A child whose call fails with nothing written, and a call past the list, which fails too; both are noted.
#[test]
fn scripted_calls_fail(rt: HostRuntime) -> Result<(), Fail> {
    let alloc = rt.alloc();
    let mut store = QuietStore::new(alloc, &[])?;
    let mut spawner = ScriptSpawner::new(answers(alloc)?);
    let failed = Err(ChildError::Failed);
    assert!(rt; spawner.run(alloc, &mut store, &job(alloc, b"driver")?) == failed);
    assert_eq!(rt; store.content().len(), 0);
    assert!(rt; spawner.run(alloc, &mut store, &job(alloc, b"hook")?) == failed);
    assert_eq!(rt; spawner.log().len(), 4);
    assert_eq!(rt; spawner.jobs().len(), 2);
    Ok(())
}

// The child finds `c`, which was drafted, and removes it; what else was drafted stands behind it.
#[test]
fn a_child_is_run_over_what_was_drafted(rt: HostRuntime) -> Result<(), Fail> {
    let alloc = rt.alloc();
    let mut store = QuietStore::new(alloc, &[])?;
    let mut changes = Changes::new(alloc);
    let mut draft = DraftStore::new(&mut store, &mut changes);
    draft.put(alloc, b"c", b"6\n")?;
    draft.put(alloc, b"d", b"7\n")?;
    let mut spawner = QuietSpawner::new(answers(alloc)?);
    assert!(rt; draft.run(alloc, &mut spawner, &job(alloc, b"editor")?)? == Ok(Exit::Killed));
    draft.put(alloc, b"e", b"8\n")?;
    let names: [&[u8]; 2] = [b"a", b"d"];
    assert_eq!(rt; store.content().len(), 2);
    for (file, name) in store.content().iter().zip(names) {
        assert!(rt; file.0.as_slice() == name);
    }
    Ok(())
}
