//! What a three-way merge makes of one path's entries.

ghost use Rattle.std.specs.Prelude.{◌≡◌};
ghost use Rattle.tree_merge.specs.Choices.{is_file_mode, same_id, same_mode};
ghost use Rattle.tree_merge.specs.Choosing.{choice, changed, may_be_file, merged_files, merged_id, merged_mode};
ghost use Rattle.seq_base.specs.PathMaps.{same_entry};

use seq_base::{Entry, Id, Mode};

/// What a three-way merge makes of a path.
#[derive(Clone, Copy, Debug, PartialEq, Eq)]
pub enum Choice {
    /// The merge is clean: the path has this entry, or none.
    Take(Option<Entry>),
    /// Two files whose contents a merge driver is to merge. The file then has this mode, which is clean where the sides agree
    /// on it.
    Content { mode: Mode, mode_clean: bool },
    /// A conflict, at which the path's file is this entry's.
    Conflict { file: Option<Entry> },
}

/// Merges the entries of one path (git-read-tree(1), "3-Way Merge"). What both sides have is taken, else what one side alone
/// changed. Of two files the id and the mode are merged each by itself.
pub fn three_way(base: Option<Entry>, ours: Option<Entry>, theirs: Option<Entry>) -> Choice
    ensures { result ≡ choice base ours theirs }
{
    choose(&base, &ours, &theirs)
}

pub(crate) fn choose(base: &Option<Entry>, ours: &Option<Entry>, theirs: &Option<Entry>) -> Choice
    ensures { result ≡ choice base.now ours.now theirs.now }
{
    if is_same(ours, theirs) {
        return Choice::Take(copy_of(ours));
    }
    if is_same(base, ours) {
        return Choice::Take(copy_of(theirs));
    }
    if is_same(base, theirs) {
        return Choice::Take(copy_of(ours));
    }
    merge_changed(base, copy_of(ours), copy_of(theirs))
}

fn copy_of(entry: &Option<Entry>) -> Option<Entry>
    ensures { result ≡ entry.now }
{
    match entry {
        Some(entry) => Some(Entry {
            mode: entry.mode,
            id: entry.id,
        }),
        None => None,
    }
}

pub(crate) fn is_same(a: &Option<Entry>, b: &Option<Entry>) -> bool
    ensures { result ≡ same_entry a.now b.now }
{
    match (a, b) {
        (Some(a), Some(b)) => is_same_mode(a.mode, b.mode) && is_same_id(&a.id, &b.id),
        (None, None) => true,
        (Some(_), None) | (None, Some(_)) => false,
    }
}

fn is_same_mode(a: Mode, b: Mode) -> bool
    ensures { result ≡ same_mode a b }
{
    a.number() == b.number()
}

fn is_same_id(a: &Id, b: &Id) -> bool
    ensures { result ≡ same_id a.now b.now }
{
    a.bytes() == b.bytes()
}

/// The sides changed the path differently.
fn merge_changed(base: &Option<Entry>, ours: Option<Entry>, theirs: Option<Entry>) -> Choice
    ensures { result ≡ changed base.now ours theirs }
{
    let Some(mine) = ours else {
        return Choice::Conflict { file: theirs };
    };
    let Some(other) = theirs else {
        return Choice::Conflict { file: Some(mine) };
    };
    if can_be_file(base) && is_file(mine.mode) && is_file(other.mode) {
        merge_files(base, &mine, &other)
    } else {
        Choice::Conflict { file: Some(mine) }
    }
}

fn is_file(mode: Mode) -> bool
    ensures { result ≡ is_file_mode mode }
{
    match mode {
        Mode::File | Mode::Exec => true,
        Mode::Link | Mode::Gitlink | Mode::Folder => false,
    }
}

fn can_be_file(entry: &Option<Entry>) -> bool
    ensures { result ≡ may_be_file entry.now }
{
    match entry {
        Some(entry) => is_file(entry.mode),
        None => true,
    }
}

fn merge_files(base: &Option<Entry>, ours: &Entry, theirs: &Entry) -> Choice
    ensures { result ≡ merged_files base.now ours.now theirs.now }
{
    let (mode, mode_clean) = match merge_modes(base, ours, theirs) {
        Some(mode) => (mode, true),
        None => (ours.mode, false),
    };
    match merge_ids(base, ours, theirs) {
        Some(id) if mode_clean => Choice::Take(Some(Entry { mode, id })),
        Some(id) => Choice::Conflict {
            file: Some(Entry { mode, id }),
        },
        None => Choice::Content { mode, mode_clean },
    }
}

fn merge_ids(base: &Option<Entry>, ours: &Entry, theirs: &Entry) -> Option<Id>
    ensures { result ≡ merged_id base.now ours.now theirs.now }
{
    if is_same_id(&ours.id, &theirs.id) {
        return Some(ours.id);
    }
    let Some(base) = base else {
        return None;
    };
    if is_same_id(&base.id, &ours.id) {
        return Some(theirs.id);
    }
    if is_same_id(&base.id, &theirs.id) {
        return Some(ours.id);
    }
    None
}

fn merge_modes(base: &Option<Entry>, ours: &Entry, theirs: &Entry) -> Option<Mode>
    ensures { result ≡ merged_mode base.now ours.now theirs.now }
{
    if is_same_mode(ours.mode, theirs.mode) {
        return Some(ours.mode);
    }
    let Some(base) = base else {
        return None;
    };
    if is_same_mode(base.mode, ours.mode) {
        return Some(theirs.mode);
    }
    if is_same_mode(base.mode, theirs.mode) {
        return Some(ours.mode);
    }
    None
}
