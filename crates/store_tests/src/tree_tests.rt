//! Trees in a draft, and one of many files. The ids are those of `git write-tree` and `git mktree`.

use object_text::Kind;
use objects::put;
use path_trees::{read_map, write_map, write_trees};
use seq_base::{Entry, Id, Mode, Path, PathMap};
use seq_memory::QuietStore;
use seq_outside::{Changes, DraftStore};
use std::alloc::Global;
use std::test::Fail;

fn put_file(alloc: Global, map: &mut PathMap, path: &[u8]) -> Result<(), Fail> {
    let id = Id::from_hex(b"587be6b4c3f93f93c489c0111bba5596147a26cb")?;
    let mode = Mode::File;
    map.insert(Path::new(alloc, path)?, Entry { mode, id })?;
    Ok(())
}

// The folders `a` and `b` are alike, so they are one tree; and a draft that has the trees gets none twice.
#[test]
fn a_draft_has_each_tree_once(rt: HostRuntime) -> Result<(), Fail> {
    let alloc = rt.alloc();
    let mut map = PathMap::new(alloc);
    put_file(alloc, &mut map, b"a/x")?;
    put_file(alloc, &mut map, b"b/x")?;
    let mut store = QuietStore::new(alloc, &[])?;
    let mut changes = Changes::new(alloc);
    let mut draft = DraftStore::new(&mut store, &mut changes);
    let root = Id::from_hex(b"aa8e00e34db61cd791571750c6e5e71105c2103a")?;
    for _ in 0..2 {
        let written = write_trees(alloc, &mut draft, &map).ok();
        assert!(rt; written.ok_or("not written")? == root);
    }
    assert_eq!(rt; read_map(alloc, &mut draft, root)?.len(), 2);
    draft.make(alloc)?;
    assert_eq!(rt; store.content().len(), 2);
    Ok(())
}

/// The tree of ten thousand files, as `git mktree` makes it.
fn many(alloc: Global, store: &mut QuietStore) -> Result<Id, Fail> {
    let mut content = Vec::new(alloc);
    let hello = Id::from_hex(b"ce013625030ba8dba906f756967f9e9ca394464a")?;
    for n in 10_000..20_000_u32 {
        let name = format!(in alloc; "100644 {n}")?;
        content.extend_from_slice(name.as_bytes())?;
        content.push(0)?;
        content.extend_from_slice(hello.bytes())?;
    }
    Ok(
        put(alloc, store, Kind::Tree, &content)
            .ok()
            .ok_or("not put")?,
    )
}

#[test]
fn many_files_are_written_at_once(rt: HostRuntime) -> Result<(), Fail> {
    let alloc = rt.alloc();
    let mut store = QuietStore::new(alloc, &[])?;
    let tree = many(alloc, &mut store)?;
    assert!(rt; tree == Id::from_hex(b"dba209d57e55ed8a5899ff6af76a51978eba74c2")?);
    let map = read_map(alloc, &mut store, tree)?;
    let mut other = QuietStore::new(alloc, &[])?;
    assert!(rt; write_map(alloc, &mut other, &map)? == tree);
    Ok(())
}
