//! Each in a new folder on a real disk.

ghost use Rattle.seq_base.specs.StorePaths.{IsStorePath};
ghost use Rattle.seq_outside.specs.Store.{IsFolderPath};

use seq_disk::DiskStore;
use seq_outside::{Store, StoreError};
use std::alloc::Global;
use std::fs::{Permissions, set_permissions, symlink_metadata};
use std::os::unix::fs::{PermissionsExt, symlink};
use std::process::Command;
use std::test::Fail;
use std::{env, fs, io, process};

/// Makes a folder of this process's own, and goes there.
fn go_to_new_folder(rt: &HostRuntime) -> io::Result<String> {
    let id = process::id(rt.process());
    let folder = format!(in rt.alloc(); "/tmp/gitseq-test-{id}")?;
    fs::create_dir(rt, folder.as_str())?;
    env::set_current_dir(rt, folder.as_str())?;
    Ok(folder)
}

fn leave(rt: &HostRuntime, folder: &str) -> io::Result<()> {
    env::set_current_dir(rt, "/")?;
    fs::remove_dir_all(rt, folder)
}

fn holds<S: Store>(
    alloc: Global,
    store: &mut S,
    path: &[u8],
    bytes: &[u8],
) -> Result<bool, StoreError>
    requires { IsStorePath path.now }
{
    match store.get(alloc, path)? {
        Some(found) => Ok(found.as_slice() == bytes),
        None => Ok(false),
    }
}

fn is_missing<S: Store>(alloc: Global, store: &mut S, path: &[u8]) -> Result<bool, StoreError>
    requires { IsStorePath path.now }
{
    Ok(store.get(alloc, path)?.is_none())
}

/// The listed paths, each with a blank before it.
fn listing<S: Store>(alloc: Global, store: &mut S, folder: &[u8]) -> Result<String, Fail>
    requires { IsFolderPath folder.now }
{
    let mut text = Vec::new(alloc);
    for path in store.list(alloc, folder)? {
        text.push(b' ')?;
        text.extend_from_slice(path.as_slice())?;
    }
    Ok(String::from_utf8(text)?)
}

#[test]
fn keeps_files(rt: HostRuntime) -> Result<(), Fail> {
    let folder = go_to_new_folder(&rt)?;
    let (alloc, mut store) = (rt.alloc(), DiskStore::new(&rt));
    assert!(rt; is_missing(alloc, &mut store, b"a/b")?);
    assert_eq!(rt; listing(alloc, &mut store, b"")?.as_str(), "");
    store.put(alloc, b"a0", b"")?;
    store.put(alloc, b"a/b/c", b"old")?;
    store.put(alloc, b"a/b/c", b"new")?;
    store.put(alloc, b"a/b.d", b"x")?;
    store.put(alloc, b"a.e", b"x")?;
    assert!(rt; holds(alloc, &mut store, b"a0", b"")?);
    assert!(rt; holds(alloc, &mut store, b"a/b/c", b"new")?);
    assert!(rt; is_missing(alloc, &mut store, b"a/b")?);
    assert_eq!(rt;
        listing(alloc, &mut store, b"")?.as_str(),
        " a.e a/b.d a/b/c a0"
    );
    assert_eq!(rt; listing(alloc, &mut store, b"a/b")?.as_str(), " a/b/c");
    assert!(rt; !store.remove(alloc, b"a/b")?);
    assert!(rt; store.remove(alloc, b"a/b/c")?);
    assert!(rt; !store.remove(alloc, b"a/b/c")?);
    assert!(rt; !fs::exists(&rt, "a/b")?);
    assert!(rt; fs::exists(&rt, "a")?);
    store.put(alloc, b".git/HEAD", b"x")?;
    assert!(rt; store.remove(alloc, b".git/HEAD")?);
    assert!(rt; fs::exists(&rt, ".git")?);
    store.put(alloc, b".git/refs/heads/a", b"x")?;
    store.put(alloc, b".git/objects/00/a", b"x")?;
    assert!(rt; store.remove(alloc, b".git/refs/heads/a")?);
    assert!(rt; store.remove(alloc, b".git/objects/00/a")?);
    assert!(rt; fs::exists(&rt, ".git/refs")? && !fs::exists(&rt, ".git/refs/heads")?);
    assert!(rt; fs::exists(&rt, ".git/objects")? && !fs::exists(&rt, ".git/objects/00")?);
    leave(&rt, folder.as_str())?;
    Ok(())
}

#[test]
fn follows_no_link(rt: HostRuntime) -> Result<(), Fail> {
    let folder = go_to_new_folder(&rt)?;
    let (alloc, mut store) = (rt.alloc(), DiskStore::new(&rt));
    store.put(alloc, b"away/file", b"x")?;
    symlink(&rt, "away/file", "link")?;
    symlink(&rt, "away", "folder")?;
    symlink(&rt, "../away/file", ".git/gitseq-tmp")?;
    assert!(rt; holds(alloc, &mut store, b"link", b"away/file")?);
    assert!(rt; holds(alloc, &mut store, b"folder", b"away")?);
    assert!(rt; is_missing(alloc, &mut store, b"folder/file")?);
    assert_eq!(rt; listing(alloc, &mut store, b"folder")?.as_str(), "");
    assert!(rt; !store.remove(alloc, b"folder/file")?);
    assert_eq!(rt;
        store.put(alloc, b"folder/file", b"y"),
        Err(StoreError::Blocked)
    );
    store.put(alloc, b"link", b"y")?;
    assert!(rt; store.remove(alloc, b"folder")?);
    assert!(rt; holds(alloc, &mut store, b"away/file", b"x")?);
    assert_eq!(rt;
        listing(alloc, &mut store, b"")?.as_str(),
        " away/file link"
    );
    fs::rename(&rt, ".git", "away/.git")?;
    fs::write(&rt, "away/.git/HEAD", "x")?;
    symlink(&rt, "away/.git", ".git")?;
    store.forget_folders();
    assert!(rt; is_missing(alloc, &mut store, b".git/HEAD")?);
    assert_eq!(rt;
        store.put(alloc, b".git/HEAD", b"y"),
        Err(StoreError::Blocked)
    );
    assert_eq!(rt; store.put(alloc, b"link", b"z"), Err(StoreError::Failed));
    leave(&rt, folder.as_str())?;
    Ok(())
}

#[test]
fn makes_way_for_no_file(rt: HostRuntime) -> Result<(), Fail> {
    let folder = go_to_new_folder(&rt)?;
    let (alloc, mut store) = (rt.alloc(), DiskStore::new(&rt));
    store.put(alloc, b"a/b", b"x")?;
    fs::create_dir_all(&rt, "a/c/d")?;
    fs::create_dir_all(&rt, ".git/gitseq-tmp/e")?;
    assert_eq!(rt; store.put(alloc, b"a/b/c", b"y"), Err(StoreError::Blocked));
    assert_eq!(rt; store.put(alloc, b"a", b"y"), Err(StoreError::Blocked));
    assert!(rt; fs::exists(&rt, "a/c/d")?);
    store.put(alloc, b"a/c", b"y")?;
    assert!(rt; holds(alloc, &mut store, b"a/b", b"x")?);
    assert!(rt; holds(alloc, &mut store, b"a/c", b"y")?);
    set_permissions(&rt, "a/b", Permissions::from_mode(0o750))?;
    store.put(alloc, b"a/b", b"z")?;
    assert_eq!(rt;
        symlink_metadata(&rt, "a/b")?.permissions().mode() & 0o777,
        0o750
    );
    leave(&rt, folder.as_str())?;
    Ok(())
}

#[test]
fn forgets_folders(rt: HostRuntime) -> Result<(), Fail> {
    let folder = go_to_new_folder(&rt)?;
    let (alloc, mut store) = (rt.alloc(), DiskStore::new(&rt));
    store.put(alloc, b"away/b/c", b"x")?;
    store.put(alloc, b"a/b/c", b"y")?;
    assert!(rt; holds(alloc, &mut store, b"a/b/c", b"y")?);
    assert!(rt; store.remove(alloc, b"a/b/c")?);
    symlink(&rt, "away", "a")?;
    assert!(rt; is_missing(alloc, &mut store, b"a/b/c")?);
    assert!(rt; holds(alloc, &mut store, b"away/b/c", b"x")?);
    fs::rename(&rt, "away", "moved")?;
    symlink(&rt, "moved", "away")?;
    store.forget_folders();
    assert!(rt; is_missing(alloc, &mut store, b"away/b/c")?);
    leave(&rt, folder.as_str())?;
    Ok(())
}

#[test]
fn opens_no_pipe(rt: HostRuntime) -> Result<(), Fail> {
    let folder = go_to_new_folder(&rt)?;
    let (alloc, mut store) = (rt.alloc(), DiskStore::new(&rt));
    let made = Command::new(alloc, "mkfifo")?.arg("pipe")?.status(&rt)?;
    assert!(rt; made.success());
    assert_eq!(rt; store.get(alloc, b"pipe").err(), Some(StoreError::Failed));
    assert_eq!(rt; store.put(alloc, b"pipe", b"x"), Err(StoreError::Failed));
    assert_eq!(rt; store.remove(alloc, b"pipe"), Err(StoreError::Failed));
    assert_eq!(rt; store.list(alloc, b"").err(), Some(StoreError::Failed));
    assert!(rt; is_missing(alloc, &mut store, b"pipe/x")?);
    assert_eq!(rt; store.put(alloc, b"pipe/x", b"x"), Err(StoreError::Blocked));
    leave(&rt, folder.as_str())?;
    Ok(())
}
