//! The files that a conflict leaves, in path order.

ghost use Rattle.std.specs.Prelude.{◌≡◌, ◌≤◌, ◌∷◌, ◌++◌, [], IfOk, OnOk, drop, length, map, take};
ghost use Rattle.stage_index.specs.Conflicts.{all_among, among, blob_row, conflict_files as conflict_files_of};
ghost use Rattle.stage_index.specs.Stages.{map_of};
ghost use Rattle.stage_index.specs.declared.conflict.ConflictFile.{ConflictFile as FileValue};

use index_file::IndexEntry;
use seq_base::{Entry, Path, comes_before};
use stage_index::ConflictFile;
use std::alloc::{AllocError, Global};

/// The blob of the entry, if it is merged.
fn push_row(files: &mut Vec<(Path, ConflictFile)>, entry: &IndexEntry) -> Result<(), AllocError>
    ensures { OnOk result (files.new.items ≡ files.old.items ++ map blob_row (map_of (entry.now ∷ []))) }
{
    if entry.stage != 0 {
        return Ok(());
    }
    let row = Entry {
        mode: entry.mode,
        id: entry.id,
    };
    files.push((entry.path.copy()?, ConflictFile::Blob(row)))?;
    Ok(())
}

/// The merged paths of an index with their blobs.
fn rows_of(alloc: Global, index: &[IndexEntry]) -> Result<Vec<(Path, ConflictFile)>, AllocError>
    ensures { IfOk result (λ files. files.items ≡ map blob_row (map_of index.now)) }
{
    let mut files = Vec::new(alloc);
    let mut rest = index;
    while let [entry, after @ ..] = rest {
        push_row(&mut files, entry)?;
        rest = after;
    }
    Ok(files)
}

/// Before which file the path is to stand.
fn place_of(files: &[(Path, ConflictFile)], path: &Path) -> usize
    ensures within { result ≤ length files.now }
    ensures place { (file : FileValue) → among files.now (path.now, file) ≡ take result files.now ++ (path.now, file) ∷ drop result files.now }
{
    for (n, file) in files.iter().enumerate() {
        if comes_before(path.bytes(), file.0.bytes()) {
            return n;
        }
    }
    files.len()
}

fn put_among(
    files: &mut Vec<(Path, ConflictFile)>,
    file: &(Path, ConflictFile),
) -> Result<(), AllocError>
    ensures { OnOk result (files.new.items ≡ among files.old.items file.now) }
{
    let path = file.0.copy()?;
    let kept = file.1.copy()?;
    let n = place_of(files, &path);
    files.insert(n, (path, kept))?;
    Ok(())
}

fn put_all_among(
    files: &mut Vec<(Path, ConflictFile)>,
    more: &[(Path, ConflictFile)],
) -> Result<(), AllocError>
    ensures { OnOk result (files.new.items ≡ all_among files.old.items more.now) }
{
    let mut rest = more;
    while let [file, after @ ..] = rest {
        put_among(files, file)?;
        rest = after;
    }
    Ok(())
}

/// The merged paths of an index with their blobs, and the files that a conflict leaves, in path order.
pub(crate) fn conflict_files(
    alloc: Global,
    index: &[IndexEntry],
    files: &[(Path, ConflictFile)],
) -> Result<Vec<(Path, ConflictFile)>, AllocError>
    ensures { IfOk result (λ all. all.items ≡ conflict_files_of index.now files.now) }
{
    let mut all = rows_of(alloc, index)?;
    put_all_among(&mut all, files)?;
    Ok(all)
}
