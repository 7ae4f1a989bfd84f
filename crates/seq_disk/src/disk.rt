//! Files on disk, below the folder that the program runs in. No link is followed, and what is no file, link or folder
//! is an error and is not opened.

ghost use Rattle.std.specs.List.{AllByRecursion, list_all};
ghost use Rattle.std.specs.Prelude.{◌≡◌, IfOk};
ghost use Rattle.seq_base.specs.StorePaths.{IsStorePath, is_store_path as is_store_path_of};

use crate::folders::Folders;
use crate::place::{Place, place_of, stands_at};
use seq_base::{Bytes, is_store_path};
use std::alloc::{AllocError, Global};
use std::fs::{OpenFile, OpenOptions, Permissions};
use std::io::{Read, Write};
use std::os::unix::fs::PermissionsExt;
use std::path::Path;
use std::rt::Files;
use std::{fs, io};

const REPOSITORY: &str = ".git";

const OBJECTS: &str = ".git/objects";

const REFS: &str = ".git/refs";

const TEMPORARY: &str = ".git/gitseq-tmp";

// Who may read, write and run a file.
const PERMISSION_BITS: u32 = 0o777;

/// Whether a file was put.
#[derive(Clone, Copy, Debug, PartialEq, Eq)]
pub enum Put {
    Done,
    /// It was not, and nothing changed: no folder can hold it, or a folder with files stands in its place.
    Blocked,
}

// What a folder holds, or it and those below it hold.
#[derive(Drop)]
struct Contents {
    files: Vec<Bytes>,
    // each behind the one that holds it
    folders: Vec<String>,
}

fn no_file() -> io::Error {
    io::Error::other("neither a file, a link nor a folder")
}

fn text_of(path: &[u8]) -> io::Result<&str> {
    match str::from_utf8(path) {
        Ok(path) => Ok(path),
        Err(_) => Err(io::Error::from(io::ErrorKind::InvalidFilename)),
    }
}

/// The bytes of a file, or the text of a link. None where neither stands there.
pub fn read<R: Files + AllocGlobal>(
    rt: &R,
    alloc: Global,
    folders: &mut Folders,
    path: &[u8],
) -> io::Result<Option<Vec<u8>>> {
    let path = text_of(path)?;
    match place_of(rt, alloc, folders, path)? {
        Place::Nothing | Place::Barred | Place::Folder => Ok(None),
        Place::File(length) => Ok(Some(bytes_of(rt, alloc, path, length)?)),
        Place::Link => {
            let target = fs::read_link(rt, path)?;
            Ok(Some(target.into_string().into_bytes()))
        }
        Place::Other => Err(no_file()),
    }
}

// The bytes of a file that had so many, read in room for one more: where a read gives just as many, it met the end.
fn bytes_of<R: Files>(rt: &R, alloc: Global, path: &str, length: u64) -> io::Result<Vec<u8>> {
    let length = usize::try_from(length).unwrap_or(usize::MAX);
    let mut bytes = vec![in alloc; 0; length.saturating_add(1)]?;
    let mut file = fs::open(rt, path)?;
    let count = match file.read(&mut bytes) {
        Ok(count) => count,
        Err(error) if error.kind() == io::ErrorKind::Interrupted => 0,
        Err(error) => return Err(error),
    };
    bytes.truncate(count);
    if count != length {
        file.read_to_end(&mut bytes)?;
    }
    Ok(bytes)
}

/// Makes the temporary file anew with these bytes, and renames it. A file that it replaces hands its permissions on.
pub fn replace<R: Files + AllocGlobal + Clone + Drop>(
    rt: &R,
    alloc: Global,
    folders: &mut Folders,
    path: &[u8],
    bytes: &[u8],
) -> io::Result<Put> {
    let path = text_of(path)?;
    let place = place_of(rt, alloc, folders, path)?;
    match place {
        Place::Barred => return Ok(Put::Blocked),
        Place::Other => return Err(no_file()),
        Place::Folder => {
            if has_files(rt, alloc, path)? {
                return Ok(Put::Blocked);
            }
        }
        Place::Nothing | Place::File(_) | Place::Link => {}
    }
    make_way_for_temporary(rt, alloc, folders)?;
    match write_and_move(rt, alloc, folders, path, place, bytes) {
        Ok(()) => Ok(Put::Done),
        Err(error) => {
            let _ = fs::remove_file(rt, TEMPORARY);
            Err(error)
        }
    }
}

fn has_files<R: Files + AllocGlobal + Clone + Drop>(
    rt: &R,
    alloc: Global,
    folder: &str,
) -> io::Result<bool> {
    Ok(!contents_below(rt, alloc, folder)?.files.is_empty())
}

fn make_way_for_temporary<R: Files + AllocGlobal + Clone + Drop>(
    rt: &R,
    alloc: Global,
    folders: &mut Folders,
) -> io::Result<()> {
    match place_of(rt, alloc, folders, TEMPORARY)? {
        Place::Nothing => make_folder(rt, folders, REPOSITORY),
        Place::Barred => Err(io::Error::from(io::ErrorKind::NotADirectory)),
        Place::Folder => remove_folders(rt, alloc, folders, TEMPORARY),
        Place::File(_) | Place::Link | Place::Other => fs::remove_file(rt, TEMPORARY),
    }
}

// Makes a folder and those that it lies in, where it was not seen.
fn make_folder<R: Files>(rt: &R, folders: &Folders, folder: &str) -> io::Result<()> {
    if folders.has(folder) {
        return Ok(());
    }
    fs::create_dir_all(rt, folder)
}

fn write_and_move<R: Files + AllocGlobal + Clone + Drop>(
    rt: &R,
    alloc: Global,
    folders: &mut Folders,
    path: &str,
    place: Place,
    bytes: &[u8],
) -> io::Result<()> {
    let mut file = OpenOptions::new()
        .write(true)
        .create_new(true)
        .open(rt, TEMPORARY)?;
    if let Place::File(_) = place {
        hand_permissions_on(rt, path, &file)?;
    }
    file.write_all(bytes)?;
    if place == Place::Folder {
        remove_folders(rt, alloc, folders, path)?;
    }
    if let Some((folder, _)) = path.rsplit_once('/') {
        make_folder(rt, folders, folder)?;
    }
    fs::rename(rt, TEMPORARY, path)
}

fn hand_permissions_on<R: Files>(rt: &R, path: &str, to: &R::File) -> io::Result<()> {
    let old = fs::symlink_metadata(rt, path)?.permissions().mode() & PERMISSION_BITS;
    let new = to.metadata()?.permissions().mode() & PERMISSION_BITS;
    if new == old {
        return Ok(());
    }
    to.set_permissions(Permissions::from_mode(old))
}

// Removes a folder in which there are no files, with the folders below it.
fn remove_folders<R: Files + AllocGlobal + Clone + Drop>(
    rt: &R,
    alloc: Global,
    folders: &mut Folders,
    folder: &str,
) -> io::Result<()> {
    let found = contents_below(rt, alloc, folder)?;
    if !found.files.is_empty() {
        return Err(io::Error::from(io::ErrorKind::DirectoryNotEmpty));
    }
    for below in found.folders.iter().rev() {
        remove_folder(rt, folders, below.as_str())?;
    }
    Ok(())
}

fn remove_folder<R: Files>(rt: &R, folders: &mut Folders, folder: &str) -> io::Result<()> {
    fs::remove_dir(rt, folder)?;
    folders.forget(folder);
    Ok(())
}

/// Removes a file or a link, and the folders that it leaves empty, up to the root and never `.git`, `.git/objects` or `.git/refs`.
/// Answers whether it was there.
pub fn remove<R: Files>(
    rt: &R,
    alloc: Global,
    folders: &mut Folders,
    path: &[u8],
) -> io::Result<bool> {
    let path = text_of(path)?;
    match place_of(rt, alloc, folders, path)? {
        Place::Nothing | Place::Barred | Place::Folder => Ok(false),
        Place::File(_) | Place::Link => {
            fs::remove_file(rt, path)?;
            remove_left_empty(rt, folders, path);
            Ok(true)
        }
        Place::Other => Err(no_file()),
    }
}

// Without these folders Git finds no repository, also where they would be empty (gitrepository-layout(5)).
fn is_kept(folder: &str) -> bool {
    folder.is_empty() || folder == REPOSITORY || folder == OBJECTS || folder == REFS
}

fn remove_left_empty<R: Files>(rt: &R, folders: &mut Folders, path: &str) {
    for folder in Path::new(path).ancestors().skip(1) {
        let folder = folder.as_str();
        if is_kept(folder) || remove_folder(rt, folders, folder).is_err() {
            return;
        }
    }
}

/// The paths of the files and links below a folder, in byte order. The empty path is the root.
pub fn list<R: Files + AllocGlobal + Clone + Drop>(
    rt: &R,
    alloc: Global,
    folders: &mut Folders,
    folder: &[u8],
) -> io::Result<Vec<Bytes>>
    ensures { IfOk result (λ paths. AllByRecursion IsStorePath paths.items) }
{
    let folder = text_of(folder)?;
    let place = if folder.is_empty() {
        Place::Folder
    } else {
        place_of(rt, alloc, folders, folder)?
    };
    match place {
        Place::Nothing | Place::Barred | Place::File(_) | Place::Link => Ok(Vec::new(alloc)),
        Place::Folder => sorted(contents_below(rt, alloc, folder)?.files),
        Place::Other => Err(no_file()),
    }
}

#[tactic(auto, using(crate::proofs::StorePathTests::each_is_store_path))]
fn sorted(mut files: Vec<Bytes>) -> io::Result<Vec<Bytes>>
    ensures { IfOk result (λ paths. AllByRecursion IsStorePath paths.items) }
{
    files.sort()?;
    if are_store_paths(&files) {
        Ok(files)
    } else {
        Err(io::Error::from(io::ErrorKind::InvalidFilename))
    }
}

fn are_store_paths(paths: &[Bytes]) -> bool
    ensures { result ≡ list_all is_store_path_of paths.now }
{
    paths.iter().all(|path| is_store_path(path.as_slice()))
}

fn contents_below<R: Files + AllocGlobal + Clone + Drop>(
    rt: &R,
    alloc: Global,
    folder: &str,
) -> io::Result<Contents> {
    let mut files = Vec::new(alloc);
    let mut folders = vec![in alloc; String::from_str(alloc, folder)?]?;
    for at in 0..usize::MAX {
        let Some(folder) = folders.get(at) else {
            break;
        };
        let mut found = contents_of(rt, alloc, folder.as_str())?;
        files.append(&mut found.files)?;
        folders.append(&mut found.folders)?;
    }
    Ok(Contents { files, folders })
}

// What stands in the folder itself.
fn contents_of<R: Files + AllocGlobal + Clone + Drop>(
    rt: &R,
    alloc: Global,
    folder: &str,
) -> io::Result<Contents> {
    let mut files = Vec::new(alloc);
    let mut folders = Vec::new(alloc);
    let opened = if folder.is_empty() { "." } else { folder };
    for entry in fs::read_dir(rt, opened)? {
        let path = join(alloc, folder, entry?.file_name())?;
        match stands_at(rt, path.as_str())? {
            Place::Nothing | Place::Barred => {}
            Place::File(_) | Place::Link => files.push(Bytes::from_vec(path.into_bytes()))?,
            Place::Folder => folders.push(path)?,
            Place::Other => return Err(no_file()),
        }
    }
    Ok(Contents { files, folders })
}

fn join(alloc: Global, folder: &str, name: &str) -> Result<String, AllocError> {
    if folder.is_empty() {
        String::from_str(alloc, name)
    } else {
        format!(in alloc; "{folder}/{name}")
    }
}
