//! Real children.

use seq_base::Bytes;
use seq_disk::{DiskStore, ShellSpawner};
use seq_outside::{ChildError, Exit, Job, Spawner, Words};
use std::alloc::{AllocError, Global};
use std::test::Fail;

fn job_of(alloc: Global, words: &[&[u8]], input: &[u8]) -> Result<Job, AllocError> {
    let mut given = Vec::new(alloc);
    for word in words {
        given.push(Bytes::from_vec(word.to_vec(alloc)?))?;
    }
    Ok(Job {
        words: Words::from_vec(given),
        input: Bytes::from_vec(input.to_vec(alloc)?),
    })
}

/// What a command line of the shell ends with, handed this word and this input.
fn ends(
    rt: &HostRuntime,
    line: &[u8],
    word: &[u8],
    input: &[u8],
) -> Result<Result<Exit, ChildError>, Fail> {
    let alloc = rt.alloc();
    let mut store = DiskStore::new(rt);
    let mut spawner = ShellSpawner::new(rt);
    let words = [
        b"sh".as_slice(),
        b"-c".as_slice(),
        line,
        b"sh".as_slice(),
        word,
    ];
    let job = job_of(alloc, &words, input)?;
    Ok(spawner.run(alloc, &mut store, &job))
}

#[test]
fn children_end(rt: HostRuntime) -> Result<(), Fail> {
    let word = b"it's".as_slice();
    assert_eq!(rt; ends(&rt, b"exit 0", word, b"")?, Ok(Exit::Code(0)));
    assert_eq!(rt; ends(&rt, b"exit 7", word, b"")?, Ok(Exit::Code(7)));
    assert_eq!(rt; ends(&rt, b"exit 130", word, b"")?, Ok(Exit::Code(130)));
    assert_eq!(rt; ends(&rt, b"kill -9 $$", word, b"")?, Ok(Exit::Killed));
    Ok(())
}

#[test]
fn words_and_input_are_handed_over(rt: HostRuntime) -> Result<(), Fail> {
    let quoted = b"test \"$1\" = \"it's\"".as_slice();
    assert_eq!(rt; ends(&rt, quoted, b"it's", b"")?, Ok(Exit::Code(0)));
    let reads = b"test \"$(cat)\" = 'a b'".as_slice();
    assert_eq!(rt; ends(&rt, reads, b"", b"a b\n")?, Ok(Exit::Code(0)));
    let big = vec![in rt.alloc(); b'a'; 200_000]?;
    assert_eq!(rt; ends(&rt, b"exit 3", b"", &big)?, Ok(Exit::Code(3)));
    Ok(())
}

#[test]
fn what_cannot_be_run_is_a_fault(rt: HostRuntime) -> Result<(), Fail> {
    let alloc = rt.alloc();
    assert_eq!(rt;
        ends(&rt, b"exit 0", b"\xff", b"")?,
        Err(ChildError::Failed)
    );
    assert_eq!(rt;
        ends(&rt, b"no-such-program-here", b"", b"")?,
        Ok(Exit::Code(127))
    );
    let mut store = DiskStore::new(&rt);
    let mut spawner = ShellSpawner::new(&rt);
    let missing = [b"no-such-program-here".as_slice()];
    let job = job_of(alloc, &missing, b"")?;
    assert_eq!(rt;
        spawner.run(alloc, &mut store, &job),
        Err(ChildError::Failed)
    );
    let job = job_of(alloc, &[], b"")?;
    assert_eq!(rt;
        spawner.run(alloc, &mut store, &job),
        Err(ChildError::Failed)
    );
    Ok(())
}
