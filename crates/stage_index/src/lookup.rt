//! What an index has at a path.

ghost use Rattle.std.specs.Prelude.{◌≡◌, ◌≤◌, is_some};
ghost use Rattle.std.specs.Cmp.Lexicographic.{slice_cmp};
ghost use Rattle.std.specs.Option.{option_copied};
ghost use Rattle.std.specs.Ordering.{nat_cmp};
ghost use Rattle.index_file.specs.Entries.{IsInOrder};
ghost use Rattle.seq_base.specs.PathMaps.{entry_at};
ghost use Rattle.stage_index.specs.Stages.{map_of, merged_entry};
ghost use Rattle.stage_index.specs.Switching.{is_tracked};

use index_file::IndexEntry;
use seq_base::comes_before;
use std::cmp::Ordering;

/// The first or another entry of the index at the path, if it has one, found by halving. A merged path has one entry.
pub fn tracked<'a>(index: &'a [IndexEntry], path: &[u8]) -> Option<&'a IndexEntry>
    requires { IsInOrder index.now }
    ensures tracked { is_some (option_copied result) ≡ is_tracked index.now path.now }
    ensures entry { merged_entry (option_copied result) ≡ entry_at (map_of index.now) path.now }
{
    let order = |entry: &IndexEntry| -> Ordering
        ensures { result ≡ slice_cmp nat_cmp entry.now.path path.entry.now }
    { entry.path.bytes().cmp(path) };
    match index.binary_search_by(order) {
        Ok(n) => Some(&index[n]),
        Err(_) => None,
    }
}

/// The first place, from one on, whose entry's path does not come before the path.
fn place_from(index: &[IndexEntry], place: usize, path: &[u8]) -> usize
    ensures { place ≤ result }
{
    let mut n = place;
    while n < index.len() {
        if !comes_before(index[n].path.bytes(), path) {
            return n;
        }
        n += 1;
    }
    n
}

/// What `tracked` is, looked for at a place first.
#[tactic(auto, using(crate::proofs::Tracking::tracked_here, crate::proofs::Tracking::found_here))]
fn tracked_at<'a>(index: &'a [IndexEntry], place: usize, path: &[u8]) -> Option<&'a IndexEntry>
    requires { IsInOrder index.now }
    ensures tracked { is_some (option_copied result) ≡ is_tracked index.now path.now }
    ensures entry { merged_entry (option_copied result) ≡ entry_at (map_of index.now) path.now }
{
    if place < index.len() {
        let entry = &index[place];
        if entry.path.bytes() == path {
            return Some(entry);
        }
    }
    tracked(index, path)
}

/// What `tracked` is, for whoever asks for one path after another in their order: the place, at first 0, goes along.
pub fn tracked_from<'a>(
    index: &'a [IndexEntry],
    place: &mut usize,
    path: &[u8],
) -> Option<&'a IndexEntry>
    requires { IsInOrder index.now }
    ensures tracked { is_some (option_copied result) ≡ is_tracked index.now path.now }
    ensures entry { merged_entry (option_copied result) ≡ entry_at (map_of index.now) path.now }
{
    *place = place_from(index, *place, path);
    tracked_at(index, *place, path)
}
