//! The unmerged paths of an index.

ghost use Rattle.std.specs.Prelude.{◌≡◌, IfOk, OnOk};
ghost use Rattle.stage_index.specs.Unmerged.{unmerged_paths};
ghost use Rattle.stage_index.specs.Walks.{is_listed as is_listed_in, listed_too};

use index_file::IndexEntry;
use seq_base::Path;
use std::alloc::{AllocError, Global};

fn is_listed(paths: &[Path], path: &[u8]) -> bool
    ensures { result ≡ is_listed_in paths.now path.now }
{
    paths.iter().any(|other| other.bytes() == path)
}

/// Lists the entry's path too, if it is unmerged and not listed yet.
fn list_too(paths: &mut Vec<Path>, entry: &IndexEntry) -> Result<(), AllocError>
    ensures { OnOk result (paths.new.items ≡ listed_too paths.old.items entry.now) }
{
    if entry.stage == 0 || is_listed(paths, entry.path.bytes()) {
        return Ok(());
    }
    paths.push(entry.path.copy()?)?;
    Ok(())
}

/// The paths that have an entry at another stage than 0 (git-ls-files(1), `--unmerged`), each once, where it stands first.
pub fn unmerged(alloc: Global, entries: &[IndexEntry]) -> Result<Vec<Path>, AllocError>
    ensures { IfOk result (λ paths. paths.items ≡ unmerged_paths entries.now) }
{
    let mut paths = Vec::new(alloc);
    let mut rest = entries;
    while let [entry, after @ ..] = rest {
        list_too(&mut paths, entry)?;
        rest = after;
    }
    Ok(paths)
}
