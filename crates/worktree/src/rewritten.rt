//! Which paths a switch writes, and which files it must not meet.

ghost use Rattle.std.specs.Prelude.{◌≡◌, Some};
ghost use Rattle.index_file.specs.Entries.{IsInOrder};
ghost use Rattle.seq_base.specs.PathMaps.{same_entry};
ghost use Rattle.stage_index.specs.Changes.{is_gitlink as is_gitlink_mode};
ghost use Rattle.stage_index.specs.Stages.{merged_entry, row_of};
ghost use Rattle.stage_index.specs.Switching.{is_kept as is_kept_in, is_rewritten as is_rewritten_in};
ghost use Rattle.stage_index.specs.Switching.{is_submodule_at as is_submodule_at_path, tracks_file as tracks_file_in};
ghost use Rattle.stage_index.specs.Switching.{is_tracked as is_tracked_in, is_untracked as is_untracked_in};

use index_file::IndexEntry;
use seq_base::{Mode, lies_below};
use stage_index::{tracked, tracked_from};

pub(crate) fn is_gitlink(mode: Mode) -> bool
    ensures { result ≡ is_gitlink_mode mode }
{
    match mode {
        Mode::Gitlink => true,
        Mode::File | Mode::Exec | Mode::Link | Mode::Folder => false,
    }
}

fn is_same(kept: &IndexEntry, entry: &IndexEntry) -> bool
    ensures { result ≡ same_entry (merged_entry (Some kept.now)) (Some (row_of entry.now).1) }
{
    if kept.stage != 0 {
        return false;
    }
    kept.mode.number() == entry.mode.number() && kept.id.bytes() == entry.id.bytes()
}

/// Whether the index has the same at the entry's path, of entries that are asked for in their order.
fn is_kept(from: &[IndexEntry], place: &mut usize, entry: &IndexEntry) -> bool
    requires { IsInOrder from.now }
    ensures { result ≡ is_kept_in from.now (row_of entry.now) }
{
    match tracked_from(from, place, entry.path.bytes()) {
        Some(kept) => is_same(kept, entry),
        None => false,
    }
}

/// Whether the blob of the entry is written, of entries that are asked for in their order.
pub(crate) fn is_rewritten(from: &[IndexEntry], place: &mut usize, entry: &IndexEntry) -> bool
    requires { IsInOrder from.now }
    ensures { result ≡ is_rewritten_in from.now (row_of entry.now) }
{
    !is_kept(from, place, entry) && !is_gitlink(entry.mode)
}

/// Whether the index has the path, of paths that are asked for in their order.
pub(crate) fn is_tracked(from: &[IndexEntry], place: &mut usize, path: &[u8]) -> bool
    requires { IsInOrder from.now }
    ensures { result ≡ is_tracked_in from.now path.now }
{
    tracked_from(from, place, path).is_some()
}

fn has_submodule(from: &[IndexEntry], path: &[u8]) -> bool
    ensures { result ≡ is_submodule_at_path from.now path.now }
{
    from.iter().any(|entry| entry.path.bytes() == path && is_gitlink(entry.mode))
}

/// Whether the index has a submodule at the path, at whatever stage. Only at an unmerged path all entries are gone through.
#[tactic(auto, using(stage_index::proofs::Tracking::submodule_merged, stage_index::proofs::Tracking::no_submodule))]
pub(crate) fn is_submodule_at(from: &[IndexEntry], path: &[u8]) -> bool
    requires { IsInOrder from.now }
    ensures { result ≡ is_submodule_at_path from.now path.now }
{
    let Some(entry) = tracked(from, path) else {
        return false;
    };
    if entry.stage == 0 {
        return is_gitlink(entry.mode);
    }
    has_submodule(from, path)
}

/// Whether the index has the path, and no submodule there.
fn tracks_file(from: &[IndexEntry], path: &[u8]) -> bool
    requires { IsInOrder from.now }
    ensures { result ≡ tracks_file_in from.now path.now }
{
    tracked(from, path).is_some() && !is_submodule_at(from, path)
}

/// Whether a file that stands there lies outside `.git`, and the index does not track it.
pub(crate) fn is_untracked(from: &[IndexEntry], path: &[u8]) -> bool
    requires { IsInOrder from.now }
    ensures { result ≡ is_untracked_in from.now path.now }
{
    !lies_below(b".git", path) && !tracks_file(from, path)
}
