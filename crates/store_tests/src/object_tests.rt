//! Objects in a draft, and a large one. The ids are those of `git hash-object`.

use object_text::Kind;
use objects::{ObjectFault, put, read_object, write_object};
use seq_base::Id;
use seq_memory::QuietStore;
use seq_outside::{Changes, DraftStore};
use std::test::Fail;

#[test]
fn an_object_is_written_into_a_draft_once(rt: HostRuntime) -> Result<(), Fail> {
    let alloc = rt.alloc();
    let hello = Id::from_hex(b"ce013625030ba8dba906f756967f9e9ca394464a")?;
    let mut store = QuietStore::new(alloc, &[])?;
    let mut changes = Changes::new(alloc);
    let mut draft = DraftStore::new(&mut store, &mut changes);
    for _ in 0..2 {
        let written = write_object(alloc, &mut draft, Kind::Blob, b"hello\n").ok();
        assert!(rt; written.ok_or("not written")? == hello);
    }
    let read = read_object(alloc, &mut draft, hello).ok();
    assert!(rt; read.ok_or("not read")?.bytes.as_slice() == b"hello\n".as_slice());
    draft.make(alloc)?;
    assert_eq!(rt; store.content().len(), 1);
    for file in store.content() {
        assert!(rt; file.1.as_slice() == b"blob 6\0hello\n".as_slice());
    }
    Ok(())
}

#[test]
fn a_large_content_is_not_put(rt: HostRuntime) -> Result<(), Fail> {
    let alloc = rt.alloc();
    let mut store = QuietStore::new(alloc, &[])?;
    let large = vec![in alloc; 0u8; 67_108_865]?;
    let found = put(alloc, &mut store, Kind::Blob, &large);
    assert!(rt; matches!(found, Err(ObjectFault::TooLarge { length: 67_108_865 })));
    assert_eq!(rt; store.content().len(), 0);
    Ok(())
}
