//! What a merge comes to.

ghost use Rattle.std.specs.Prelude.{◌≡◌, ◌++◌, IfOk, OnOk, Some, None};
ghost use Rattle.std.specs.List.{filter_map, list_any};
ghost use Rattle.std.specs.Option.{option_map, option_to_list};
ghost use Rattle.seq_base.specs.PathMaps.{IsPathMap};
ghost use Rattle.content_merge.specs.Merging.{HoldsIndex, IsSound, clean_of, conflict_of, conflicts as conflicts_of, entry_of as entry_of_fate, exit_of as exit_of_fate, file_row, first_broken as first_broken_of, is_conflict as is_conflict_fate, left_file, map_row, merged_of as merged_of_rows, merged_with as merged_with_ends, new_text, row_text, staged_row, told_ends as told_ends_of, unbroken as unbroken_of};

use crate::fates::{Fate, Settled, settle};
use crate::lists::{ConflictFiles, IndexEntries, Texts};
use driver_pool::DriverEnd;
use index_file::IndexEntry;
use seq_base::{Bytes, Entry, Path, PathMap};
use seq_outside::Exit;
use stage_index::{ConflictFile, push_stage};
use std::alloc::{AllocError, Global};
use tree_merge::Planned;
use worktree::blob_id_of;

/// What a three-way merge of maps comes to (git-merge(1), "TRUE MERGE" and "HOW CONFLICTS ARE PRESENTED").
#[derive(Debug, Drop)]
pub enum Merged {
    /// No path conflicts: the merged map, and the texts of its new blobs in path order, which are not put yet.
    Clean {
        map: PathMap,
        texts: Texts,
    },
    /// Some paths conflict: the index, in which these have the entries of base, ours and theirs at stages 1 to 3, what is written to
    /// them, and the texts of the new blobs of the others.
    Conflict {
        index: IndexEntries,
        files: ConflictFiles,
        texts: Texts,
    },
    /// The first path whose driver ended in a way that is neither a merge nor a conflict, and how. Where a driver could not be run, which
    /// `failed` tells, it is the first that has one, and counts as killed.
    Broken {
        path: Path,
        exit: Exit,
        failed: bool,
    },
}

/// The entry that a path has.
fn entry_of(fate: &Fate) -> Option<Entry>
    ensures { result ≡ entry_of_fate fate.now }
{
    match fate {
        Fate::Take(Some(entry)) => Some(*entry),
        Fate::Take(None) => None,
        Fate::Make { mode, bytes } => Some(Entry {
            mode: *mode,
            id: blob_id_of(bytes.as_slice()),
        }),
        Fate::Conflict(_) => None,
        Fate::Broken(_) => None,
    }
}

fn exit_of(fate: &Fate) -> Option<Exit>
    ensures { result ≡ exit_of_fate fate.now }
{
    match fate {
        Fate::Take(_) => None,
        Fate::Make { .. } => None,
        Fate::Conflict(_) => None,
        Fate::Broken(exit) => Some(*exit),
    }
}

fn is_conflict(fate: &Fate) -> bool
    ensures { result ≡ is_conflict_fate fate.now }
{
    match fate {
        Fate::Take(_) => false,
        Fate::Make { .. } => false,
        Fate::Conflict(_) => true,
        Fate::Broken(_) => false,
    }
}

fn conflicts(rows: &[Settled]) -> bool
    ensures { result ≡ list_any conflicts_of rows.now }
{
    rows.iter().any(|row| is_conflict(&row.fate))
}

/// The first path whose driver broke.
fn first_broken(rows: &[Settled]) -> Result<Option<(Path, Exit)>, AllocError>
    ensures { IfOk result (λ found. found ≡ first_broken_of rows.now) }
{
    let mut rest = rows;
    while let [row, after @ ..] = rest {
        if let Some(exit) = exit_of(&row.fate) {
            return Ok(Some((row.path.copy()?, exit)));
        }
        rest = after;
    }
    Ok(None)
}

/// Adds the text of a path's new blob, if it has one.
fn push_text(texts: &mut Vec<Bytes>, fate: Fate) -> Result<(), AllocError>
    ensures { OnOk result (texts.new.items ≡ texts.old.items ++ option_to_list (new_text fate)) }
{
    if let Fate::Make { bytes, .. } = fate {
        texts.push(bytes)?;
    }
    Ok(())
}

/// Adds what a conflict leaves at a path, or the text of its new blob.
fn push_left(
    files: &mut Vec<(Path, ConflictFile)>,
    texts: &mut Vec<Bytes>,
    path: Path,
    fate: Fate,
) -> Result<(), AllocError>
    ensures files { OnOk result (files.new.items ≡ files.old.items ++ option_to_list (option_map (λ file. (path, file)) (left_file fate))) }
    ensures texts { OnOk result (texts.new.items ≡ texts.old.items ++ option_to_list (new_text fate)) }
{
    match fate {
        Fate::Take(_) => {}
        Fate::Make { bytes, .. } => texts.push(bytes)?,
        Fate::Conflict(Some(file)) => files.push((path, file))?,
        Fate::Conflict(None) => {}
        Fate::Broken(_) => {}
    }
    Ok(())
}

/// Adds what the index has of a path.
fn push_staged(index: &mut Vec<IndexEntry>, row: &Settled) -> Result<(), AllocError>
    ensures { OnOk result (index.new.items ≡ index.old.items ++ staged_row row.now) }
{
    if !is_conflict(&row.fate) {
        return push_stage(index, &row.path, 0, &entry_of(&row.fate));
    }
    push_stage(index, &row.path, 1, &row.base)?;
    push_stage(index, &row.path, 2, &row.ours)?;
    push_stage(index, &row.path, 3, &row.theirs)
}

/// Adds a path that has an entry to a map.
fn push_entry(entries: &mut Vec<(Path, Entry)>, row: &Settled) -> Result<(), AllocError>
    ensures { OnOk result (entries.new.items ≡ entries.old.items ++ option_to_list (map_row row.now)) }
{
    if let Some(entry) = entry_of(&row.fate) {
        entries.push((row.path.copy()?, entry))?;
    }
    Ok(())
}

#[tactic(auto, unfolding(crate::specs::Merging::clean_of))]
fn clean(alloc: Global, rows: Vec<Settled>) -> Result<Merged, AllocError>
    requires { IsPathMap (filter_map map_row rows.items) }
    ensures { IfOk result (λ merged. merged ≡ clean_of rows.items) }
{
    let mut entries = Vec::new(alloc);
    let mut texts = Vec::new(alloc);
    let mut left = rows;
    left.reverse();
    'rows: while let Some(row) = left.pop() {
        push_entry(&mut entries, &row)?;
        push_text(&mut texts, row.fate)?;
    }
    Ok(Merged::Clean {
        map: PathMap::from_entries(entries),
        texts: Texts::from_vec(texts),
    })
}

#[tactic(auto, unfolding(crate::specs::Merging::conflict_of))]
fn conflict(alloc: Global, rows: Vec<Settled>) -> Result<Merged, AllocError>
    ensures { IfOk result (λ merged. merged ≡ conflict_of rows.items) }
{
    let mut index = Vec::new(alloc);
    let mut files = Vec::new(alloc);
    let mut texts = Vec::new(alloc);
    let mut left = rows;
    left.reverse();
    'rows: while let Some(row) = left.pop() {
        push_staged(&mut index, &row)?;
        push_left(&mut files, &mut texts, row.path, row.fate)?;
    }
    Ok(Merged::Conflict {
        index: IndexEntries::from_vec(index),
        files: ConflictFiles::from_vec(files),
        texts: Texts::from_vec(texts),
    })
}

fn unbroken(alloc: Global, rows: Vec<Settled>) -> Result<Merged, AllocError>
    requires { IsPathMap (filter_map map_row rows.items) }
    ensures { IfOk result (λ merged. merged ≡ unbroken_of rows.items) }
{
    if conflicts(&rows) {
        return conflict(alloc, rows);
    }
    clean(alloc, rows)
}

fn merged_of(alloc: Global, unrun: bool, rows: Vec<Settled>) -> Result<Merged, AllocError>
    requires { IsPathMap (filter_map map_row rows.items) }
    ensures { IfOk result (λ merged. merged ≡ merged_of_rows unrun rows.items) }
{
    match first_broken(&rows)? {
        Some((path, exit)) => Ok(Merged::Broken {
            path,
            exit,
            failed: unrun,
        }),
        None => unbroken(alloc, rows),
    }
}

/// The ends; where a driver could not be run, the first counts as killed.
fn told_ends(alloc: Global, ends: Option<Vec<DriverEnd>>) -> Result<Vec<DriverEnd>, AllocError>
    ensures { IfOk result (λ told. told.items ≡ told_ends_of (option_map (λ v. v.items) ends)) }
{
    let Some(ends) = ends else {
        let mut killed = Vec::new(alloc);
        killed.push(DriverEnd::Broken(Exit::Killed))?;
        return Ok(killed);
    };
    Ok(ends)
}

/// What a plan comes to, by the drivers of its paths and how these ended, or that one could not be run.
#[tactic(auto, using(crate::proofs::Indexes::merged_holds))]
pub fn merged_with(
    alloc: Global,
    rows: &[Planned],
    drivers: &[Option<Bytes>],
    ends: Option<Vec<DriverEnd>>,
) -> Result<Merged, AllocError>
    requires { IsSound rows.now }
    ensures merged { IfOk result (λ merged. merged ≡ merged_with_ends rows.now drivers.now (option_map (λ v. v.items) ends)) }
    ensures index { IfOk result HoldsIndex }
{
    let unrun = ends.is_none();
    let ends = told_ends(alloc, ends)?;
    let rows = settle(alloc, rows, drivers, ends)?;
    merged_of(alloc, unrun, rows)
}
