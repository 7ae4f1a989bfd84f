//! The index against HEAD's map.

ghost use Rattle.std.specs.Prelude.{◌≡◌};
ghost use Rattle.std.specs.Option.{option_copied};
ghost use Rattle.index_file.specs.Entries.{IsInOrder};
ghost use Rattle.seq_base.specs.PathMaps.{same_entry};
ghost use Rattle.stage_index.specs.Changes.{staged};
ghost use Rattle.stage_index.specs.Stages.{row_of};
ghost use Rattle.stage_index.specs.Walks.{lesser_difference};
ghost use Rattle.std.specs.Prelude.{Some};

use index_file::IndexEntry;
use seq_base::{Entry, Path, PathMap, comes_before};

fn is_same(staged: &IndexEntry, entry: &Entry) -> bool
    ensures { result ≡ same_entry (Some (row_of staged.now).1) (Some entry.now) }
{
    staged.mode.number() == entry.mode.number() && staged.id.bytes() == entry.id.bytes()
}

/// Where the two rows differ, the lesser of their paths.
fn difference<'a>(staged: &'a IndexEntry, path: &'a Path, entry: &Entry) -> Option<&'a Path>
    ensures { option_copied result ≡ lesser_difference (row_of staged.now) (path.now, entry.now) }
{
    if staged.path.bytes() == path.bytes() {
        if is_same(staged, entry) {
            return None;
        }
        return Some(&staged.path);
    }
    if comes_before(path.bytes(), staged.path.bytes()) {
        return Some(path);
    }
    Some(&staged.path)
}

/// The least path at which the merged entries of an index and HEAD's map differ (git-diff-index(1), `--cached`). Both are in
/// order.
pub fn staged_path<'a>(index: &'a [IndexEntry], head: &'a PathMap) -> Option<&'a Path>
    requires { IsInOrder index.now }
    ensures { option_copied result ≡ staged index.now head.now }
{
    let _length = head.len();
    let mut n = 0;
    let mut rest = index;
    while let [entry, after @ ..] = rest {
        if entry.stage == 0 {
            let Some((path, kept)) = head.at(n) else {
                return Some(&entry.path);
            };
            if let Some(first) = difference(entry, path, &kept) {
                return Some(first);
            }
            n += 1;
        }
        rest = after;
    }
    match head.at(n) {
        Some((path, _)) => Some(path),
        None => None,
    }
}
