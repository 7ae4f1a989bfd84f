//! What stands at a path on disk, where no link is followed.

use crate::folders::Folders;
use std::alloc::Global;
use std::rt::Files;
use std::{fs, io};

/// What stands at a path on disk.
#[derive(Clone, Copy, Debug, PartialEq, Eq)]
pub enum Place {
    /// Nothing. Its folder may be missing too.
    Nothing,
    /// Nothing, since what stands in one of its folders' places is no folder.
    Barred,
    /// A file of so many bytes.
    File(u64),
    /// A symbolic link, which is a file whose bytes are the link's text.
    Link,
    Folder,
    /// A pipe, a socket or a device.
    Other,
}

// Linux takes no path of so many bytes, however short its parts are.
const PATH_LIMIT: usize = 4096;

/// What stands there, if its folders are folders. A name that is longer than any that the file system takes names nothing.
pub fn stands_at<R: Files>(rt: &R, path: &str) -> io::Result<Place> {
    let metadata = match fs::symlink_metadata(rt, path) {
        Ok(metadata) => metadata,
        Err(error) if error.kind() == io::ErrorKind::NotFound => return Ok(Place::Nothing),
        Err(error) if is_long_name(path, error.kind()) => return Ok(Place::Nothing),
        Err(error) => return Err(error),
    };
    let kind = metadata.file_type();
    if kind.is_file() {
        Ok(Place::File(metadata.len()))
    } else if kind.is_symlink() {
        Ok(Place::Link)
    } else if kind.is_dir() {
        Ok(Place::Folder)
    } else {
        Ok(Place::Other)
    }
}

fn is_long_name(path: &str, kind: io::ErrorKind) -> bool {
    kind == io::ErrorKind::InvalidFilename && path.len() < PATH_LIMIT
}

/// What stands there. Its folders are looked at first, from the root down, where they were not seen before.
pub fn place_of<R: Files>(
    rt: &R,
    alloc: Global,
    folders: &mut Folders,
    path: &str,
) -> io::Result<Place> {
    match path.rsplit_once('/') {
        Some((folder, _)) if !folders.has(folder) => place_from_root(rt, alloc, folders, path),
        _ => stands_at(rt, path),
    }
}

fn place_from_root<R: Files>(
    rt: &R,
    alloc: Global,
    folders: &mut Folders,
    path: &str,
) -> io::Result<Place> {
    for (end, _) in path.match_indices('/') {
        let folder = path.get(..end).unwrap_or(path);
        if folders.has(folder) {
            continue;
        }
        match stands_at(rt, folder)? {
            Place::Folder => folders.add(alloc, folder)?,
            Place::Nothing => return Ok(Place::Nothing),
            _ => return Ok(Place::Barred),
        }
    }
    stands_at(rt, path)
}
