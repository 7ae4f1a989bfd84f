//! Tests of drafts over files in memory.

use seq_base::Bytes;
use seq_memory::{Failing, MemStore, QuietStore};
use seq_outside::{Changes, DraftStore, Store, StoreError};
use std::alloc::Global;
use std::test::Fail;

fn is_there(found: Result<Option<Vec<u8>>, StoreError>, bytes: &[u8]) -> bool {
    found.is_ok_and(|found| found.is_some_and(|found| found.as_slice() == bytes))
}

// A draft is read as files are after `printf 1 > a; printf 2 > b; rm a; printf 3 > b`.
#[test]
fn a_draft_is_read_and_made(rt: HostRuntime) -> Result<(), Fail> {
    let alloc = rt.alloc();
    let mut store = QuietStore::new(alloc, &[])?;
    store.put(alloc, b"a", b"0")?;
    let mut changes = Changes::new(alloc);
    let mut draft = DraftStore::new(&mut store, &mut changes);
    draft.put(alloc, b"a", b"1")?;
    draft.put(alloc, b"b", b"2")?;
    assert!(rt; draft.remove(alloc, b"a") == Ok(true));
    assert!(rt; draft.remove(alloc, b"a") == Ok(false));
    draft.put(alloc, b"b", b"3")?;
    assert!(rt; draft.get(alloc, b"a").is_ok_and(|found| found.is_none()));
    assert!(rt; is_there(draft.get(alloc, b"b"), b"3"));
    draft.make(alloc)?;
    assert!(rt; is_there(draft.get(alloc, b"b"), b"3"));
    assert_eq!(rt; store.content().len(), 1);
    assert!(rt; is_there(store.get(alloc, b"b"), b"3"));
    Ok(())
}

// The refusals are those of `mkdir -p` and `mv -T` after `rm a/b`.
#[test]
fn what_is_in_the_way_is_told(rt: HostRuntime) -> Result<(), Fail> {
    let alloc = rt.alloc();
    let mut store = QuietStore::new(alloc, &[])?;
    store.put(alloc, b"a/b", b"0")?;
    let mut changes = Changes::new(alloc);
    let mut draft = DraftStore::new(&mut store, &mut changes);
    assert!(rt; draft.put(alloc, b"a", b"1") == Err(StoreError::Blocked));
    assert!(rt; draft.put(alloc, b"a/b/c", b"1") == Err(StoreError::Blocked));
    assert!(rt; draft.remove(alloc, b"a/b") == Ok(true));
    assert!(rt; draft.put(alloc, b"a", b"1") == Ok(()));
    assert!(rt; draft.remove(alloc, b"a") == Ok(true));
    assert!(rt; draft.put(alloc, b"a/d", b"1") == Ok(()));
    assert!(rt; draft.put(alloc, b"a", b"1") == Err(StoreError::Blocked));
    assert!(rt; draft.put(alloc, b"a/d/e/f", b"1") == Err(StoreError::Blocked));
    assert!(rt; draft.put(alloc, b"a/e", b"1") == Ok(()));
    Ok(())
}

// The paths are those of `find a -type f | LC_ALL=C sort` after `rm a/b; printf 1 > a/d; printf 1 > a-c; printf 1 > a/a/b`.
#[test]
fn a_draft_is_listed(rt: HostRuntime) -> Result<(), Fail> {
    let alloc = rt.alloc();
    let mut store = QuietStore::new(alloc, &[])?;
    store.put(alloc, b"a/b", b"0")?;
    store.put(alloc, b"a/c", b"0")?;
    let mut changes = Changes::new(alloc);
    let mut draft = DraftStore::new(&mut store, &mut changes);
    assert!(rt; draft.remove(alloc, b"a/b") == Ok(true));
    draft.put(alloc, b"a/d", b"1")?;
    draft.put(alloc, b"a-c", b"1")?;
    draft.put(alloc, b"a/a/b", b"1")?;
    let below = draft.list(alloc, b"a")?;
    let names: [&[u8]; 3] = [b"a/a/b", b"a/c", b"a/d"];
    assert_eq!(rt; below.len(), 3);
    for (path, name) in below.iter().zip(names) {
        assert!(rt; path.as_slice() == name);
    }
    assert_eq!(rt; draft.list(alloc, b"")?.len(), 4);
    Ok(())
}

fn fill(alloc: Global, store: &mut MemStore) -> Result<(), StoreError> {
    store.put(alloc, b".git/index", b"0")?;
    store.put(alloc, b".git/refs/heads/a", b"0")?;
    store.put(alloc, b"b", b"0")
}

fn draft_and_make(alloc: Global, draft: &mut DraftStore<'_, MemStore>) -> Result<(), StoreError> {
    let _was_there = draft.remove(alloc, b"b")?;
    draft.put(alloc, b".git/index", b"1")?;
    draft.put(alloc, b".git/objects/aa/bb", b"1")?;
    draft.put(alloc, b".git/refs/heads/a", b"1")?;
    draft.make(alloc)
}

fn holds(files: &[(Bytes, Bytes)], path: &[u8], bytes: &[u8]) -> bool {
    files.iter().any(|file| file.0.as_slice() == path && file.1.as_slice() == bytes)
}

/// How many of the changes stand, the object's first, if they are the first so many.
fn front_of(files: &[(Bytes, Bytes)]) -> Option<u8> {
    let object = holds(files, b".git/objects/aa/bb", b"1");
    let removal = !holds(files, b"b", b"0");
    let index = holds(files, b".git/index", b"1");
    let branch = holds(files, b".git/refs/heads/a", b"1");
    match (object, removal, index, branch) {
        (false, false, false, false) => Some(0),
        (true, false, false, false) => Some(1),
        (true, true, false, false) => Some(2),
        (true, true, true, false) => Some(3),
        (true, true, true, true) => Some(4),
        _ => None,
    }
}

// Whichever call of the store fails, the first so many changes stand, the object's before all others; and each front is seen.
#[test]
fn a_front_stands_where_the_store_fails(rt: HostRuntime) -> Result<(), Fail> {
    let alloc = rt.alloc();
    let mut fronts = Vec::new(alloc);
    for call in 4..60 {
        for keeps_new in [false, true] {
            let mut store = MemStore::new(alloc, &[], &[Failing { call, keeps_new }])?;
            fill(alloc, &mut store)?;
            let mut changes = Changes::new(alloc);
            let mut draft = DraftStore::new(&mut store, &mut changes);
            let made = draft_and_make(alloc, &mut draft);
            let front = front_of(store.content()).ok_or("no front")?;
            assert!(rt; made.is_err() || front == 4);
            fronts.push(front)?;
        }
    }
    for front in 0..5u8 {
        assert!(rt; fronts.contains(&front));
    }
    Ok(())
}
