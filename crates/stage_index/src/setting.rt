//! The stages of a path, set.

ghost use Rattle.std.specs.Prelude.{◌≡◌, ◌≤◌, ◌+◌, ◌++◌, IfOk, OnErr, OnOk, List, drop, length, take};
ghost use Rattle.std.specs.Vec.{vec_capacity, vec_len};
ghost use Rattle.index_file.specs.Entries.{IsInOrder};
ghost use Rattle.index_file.specs.declared.entry.IndexEntry.{IndexEntry as EntryValue};
ghost use Rattle.stage_index.specs.Staged.{NoneClashes, at_stage, others_of, placed, staged_as, stages_at, with_stages};

use index_file::IndexEntry;
use seq_base::{Entry, Path, comes_before};
use std::alloc::{AllocError, Global};

/// Adds what a path has at a stage, if it has something there.
pub fn push_stage(
    entries: &mut Vec<IndexEntry>,
    path: &Path,
    stage: u8,
    entry: &Option<Entry>,
) -> Result<(), AllocError>
    ensures { OnOk result (entries.new.items ≡ entries.old.items ++ at_stage path.now stage entry.now) }
{
    let Some(entry) = entry else {
        return Ok(());
    };
    entries.push(IndexEntry {
        path: path.copy()?,
        stage,
        mode: entry.mode,
        id: entry.id,
    })?;
    Ok(())
}

/// What the path has at the stages.
fn staged(
    alloc: Global,
    path: &Path,
    stages: &[Option<Entry>; 4],
) -> Result<Vec<IndexEntry>, AllocError>
    ensures { IfOk result (λ entries. entries.items ≡ staged_as path.now stages.now) }
{
    let mut entries = Vec::new(alloc);
    let mut stage = 0;
    let mut rest: &[Option<Entry>] = stages;
    while let [entry, after @ ..] = rest {
        push_stage(&mut entries, path, stage, entry)?;
        stage += 1;
        rest = after;
    }
    Ok(entries)
}

fn drop_path(entries: &mut Vec<IndexEntry>, path: &Path)
    ensures others { entries.new.items ≡ others_of entries.old.items path.now }
    ensures capacity { vec_capacity entries.new ≡ vec_capacity entries.old }
    ensures fewer { vec_len entries.new ≤ vec_len entries.old }
{
    entries.retain(|entry| entry.path.bytes() != path.bytes());
}

/// Before which entry the path's own are to stand.
fn place_of(entries: &[IndexEntry], path: &Path) -> usize
    ensures within { result ≤ length entries.now }
    ensures place { (new : List EntryValue) → placed entries.now path.now new ≡ take result entries.now ++ (new ++ drop result entries.now) }
{
    for (n, entry) in entries.iter().enumerate() {
        if comes_before(path.bytes(), entry.path.bytes()) {
            return n;
        }
    }
    entries.len()
}

/// Puts entries before number n, where there is room for them.
fn insert_all(entries: &mut Vec<IndexEntry>, n: usize, new: Vec<IndexEntry>)
    requires within { n ≤ vec_len entries.old }
    requires room { vec_len entries.old + vec_len new ≤ vec_capacity entries.old }
    ensures { entries.new.items ≡ take n entries.old.items ++ (new.items ++ drop n entries.old.items) }
{
    let mut new = new;
    let turn = new.len() + n;
    entries.rotate_left(n);
    match entries.append(&mut new) {
        Ok(()) => entries.rotate_right(turn),
        Err(_) => {}
    }
}

/// Gives a path these stages in place of those that it has, in an index in order where the path's place is. Other paths keep theirs.
pub fn set_stages(
    alloc: Global,
    entries: &mut Vec<IndexEntry>,
    path: &Path,
    stages: [Option<Entry>; 4],
) -> Result<(), AllocError>
    ensures set { OnOk result (entries.new.items ≡ with_stages entries.old.items path.now stages) }
    ensures err { OnErr result (entries.new.items ≡ entries.old.items) }

    // They follow from `set`.
    ensures stages { OnOk result (stages_at entries.new.items path.now ≡ staged_as path.now stages) }
    ensures others { OnOk result (others_of entries.new.items path.now ≡ others_of entries.old.items path.now) }
    ensures in_order { OnOk result (IsInOrder entries.old.items → IsInOrder (staged_as path.now stages) → NoneClashes (others_of entries.old.items path.now) (staged_as path.now stages) → IsInOrder entries.new.items) }
{
    let new = staged(alloc, path, &stages)?;
    entries.reserve(new.len())?;
    drop_path(entries, path);
    let n = place_of(entries, path);
    insert_all(entries, n, new);
    Ok(())
}
