//! Files in memory.

use seq_base::Bytes;
use seq_memory::{QuietStore, is_content};
use seq_outside::{Store, StoreError};
use std::alloc::{AllocError, Global};
use std::test::Fail;

fn files(alloc: Global, rows: &[(&[u8], &[u8])]) -> Result<Vec<(Bytes, Bytes)>, AllocError> {
    let mut files = Vec::new(alloc);
    for row in rows {
        let path = Bytes::from_vec(Vec::from_slice(alloc, row.0)?);
        let bytes = Bytes::from_vec(Vec::from_slice(alloc, row.1)?);
        files.push((path, bytes))?;
    }
    Ok(files)
}

fn has(found: Result<Option<Vec<u8>>, StoreError>, bytes: &[u8]) -> bool {
    match found {
        Ok(Some(found)) => found.as_slice() == bytes,
        _ => false,
    }
}

// The order is that of `find .git -type f | LC_ALL=C sort`, and the refusals are those of `mkdir -p` and `mv -T`.
#[test]
fn files_are_kept(rt: HostRuntime) -> Result<(), Fail> {
    let alloc = rt.alloc();
    let rows = files(
        alloc,
        &[(b"a/b", b"1"), (b".git/HEAD", b"x\n"), (b"a-b", b"2")],
    )?;
    assert!(rt; is_content(&rows));
    let mut store = QuietStore::new(alloc, &rows)?;
    let names: [&[u8]; 3] = [b".git/HEAD", b"a-b", b"a/b"];
    assert_eq!(rt; store.content().len(), 3);
    for (file, name) in store.content().iter().zip(names) {
        assert!(rt; file.0.as_slice() == name);
    }
    assert!(rt; store.put(alloc, b"a", b"3") == Err(StoreError::Blocked));
    assert!(rt; store.put(alloc, b"a/b/c", b"3") == Err(StoreError::Blocked));
    assert!(rt; store.put(alloc, b"a/c", b"3") == Ok(()));
    assert!(rt; has(store.get(alloc, b"a/c"), b"3"));
    assert!(rt; store.get(alloc, b"a").is_ok_and(|found| found.is_none()));
    let below = store.list(alloc, b"a").ok().ok_or("no list")?;
    assert_eq!(rt; below.len(), 2);
    assert!(rt; store.remove(alloc, b"a/b") == Ok(true));
    assert!(rt; store.remove(alloc, b"a/b") == Ok(false));
    Ok(())
}

#[test]
fn a_file_below_a_file_is_no_content(rt: HostRuntime) -> Result<(), Fail> {
    let alloc = rt.alloc();
    let empty: &[u8] = b"";
    for path in [b"a".as_slice(), b"a/b", b"../a"] {
        let rows = files(alloc, &[(b"a".as_slice(), empty), (path, empty)])?;
        assert!(rt; !is_content(&rows));
    }
    Ok(())
}
