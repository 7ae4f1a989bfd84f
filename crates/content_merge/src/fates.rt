//! What becomes of the paths of a merge.

ghost use Rattle.std.specs.Prelude.{◌≡◌, IfOk, drop, reverse};
ghost use Rattle.std.specs.Option.{option_map};
ghost use Rattle.content_merge.specs.Fates.{all_settled, apart_fate as apart_fate_of, content_fate as content_fate_of, ends_by_path, fate_of, first_end, is_driven as is_driven_of, later_ends, lower_file as lower_file_of, settled as settled_of};

use driver_pool::DriverEnd;
use seq_base::{Bytes, Entry, Mode, Path};
use seq_outside::Exit;
use stage_index::ConflictFile;
use std::alloc::{AllocError, Global};
use tree_merge::{Choice, Planned};

/// What becomes of a path of a merge once the merge drivers have ended.
#[derive(Debug, Drop)]
pub enum Fate {
    /// It has this entry of the sides, or none.
    Take(Option<Entry>),
    /// It has a new blob with these bytes.
    Make { mode: Mode, bytes: Bytes },
    /// It conflicts, and this is written to it.
    Conflict(Option<ConflictFile>),
    /// Its driver ended in a way that is neither a merge nor a conflict.
    Broken(Exit),
}

/// A path of a plan with what becomes of it.
#[derive(Debug, Drop)]
pub struct Settled {
    pub path: Path,
    pub base: Option<Entry>,
    pub ours: Option<Entry>,
    pub theirs: Option<Entry>,
    pub fate: Fate,
}

fn file_of(entry: &Option<Entry>) -> Option<ConflictFile>
    ensures { result ≡ option_map ConflictFile.Blob entry.now }
{
    match entry {
        Some(entry) => Some(ConflictFile::Blob(*entry)),
        None => None,
    }
}

fn copy_of(entry: &Option<Entry>) -> Option<Entry>
    ensures { result ≡ entry.now }
{
    match entry {
        Some(entry) => Some(*entry),
        None => None,
    }
}

/// What becomes of a path whose contents a driver was to merge.
fn content_fate(ours: &Option<Entry>, mode: Mode, mode_clean: bool, end: Option<DriverEnd>) -> Fate
    ensures { result ≡ content_fate_of ours.now mode mode_clean end }
{
    match end {
        None => match ours {
            Some(entry) => Fate::Conflict(Some(ConflictFile::Blob(Entry { mode, id: entry.id }))),
            None => Fate::Conflict(None),
        },
        Some(DriverEnd::Clean(bytes)) if mode_clean => Fate::Make { mode, bytes },
        Some(DriverEnd::Clean(bytes)) => Fate::Conflict(Some(ConflictFile::Bytes(bytes))),
        Some(DriverEnd::Conflict(bytes)) => Fate::Conflict(Some(ConflictFile::Bytes(bytes))),
        Some(DriverEnd::Broken(exit)) => Fate::Broken(exit),
    }
}

fn apart_fate(choice: &Choice, ours: &Option<Entry>, end: Option<DriverEnd>) -> Fate
    ensures { result ≡ apart_fate_of choice.now ours.now end }
{
    match choice {
        Choice::Take(entry) => Fate::Take(copy_of(entry)),
        Choice::Content { mode, mode_clean } => content_fate(ours, *mode, *mode_clean, end),
        Choice::Conflict { file } => Fate::Conflict(file_of(file)),
    }
}

/// What is written for the lower path of a clash.
fn lower_file(choice: &Choice, ours: &Option<Entry>) -> Option<ConflictFile>
    ensures { result ≡ lower_file_of choice.now ours.now }
{
    match choice {
        Choice::Take(entry) => file_of(entry),
        Choice::Content { .. } => file_of(ours),
        Choice::Conflict { file } => file_of(file),
    }
}

/// What becomes of a path of a plan, with the end of its driver, where one was run. A clean end with a clean mode makes a new blob; a
/// conflict, or a mode on which the sides do not agree, conflicts with the driver's bytes; without a driver the path conflicts with our
/// content under the merged mode. A path that clashes conflicts.
fn row_fate(row: &Planned, end: Option<DriverEnd>) -> Fate
    ensures { result ≡ fate_of row.now end }
{
    if !row.clash {
        return apart_fate(&row.choice, &row.ours, end);
    }
    if row.written {
        Fate::Conflict(lower_file(&row.choice, &row.ours))
    } else {
        Fate::Conflict(None)
    }
}

fn settle_row(row: &Planned, end: Option<DriverEnd>) -> Result<Settled, AllocError>
    ensures { IfOk result (λ settled. settled ≡ settled_of row.now end) }
{
    Ok(Settled {
        path: row.path.copy()?,
        base: copy_of(&row.base),
        ours: copy_of(&row.ours),
        theirs: copy_of(&row.theirs),
        fate: row_fate(row, end),
    })
}

/// Whether the first path has a driver.
fn is_driven(drivers: &[Option<Bytes>]) -> bool
    ensures { result ≡ is_driven_of drivers.now }
{
    let [driver, ..] = drivers else {
        return false;
    };
    driver.is_some()
}

/// The end of the first path's driver, where it has one, of ends that stand backwards.
#[tactic(auto, using(crate::proofs::Ends::popped))]
fn next_end(drivers: &[Option<Bytes>], ends: &mut Vec<DriverEnd>) -> Option<DriverEnd>
    ensures end { result ≡ first_end drivers.now (reverse ends.old.items) }
    ensures rest { reverse ends.new.items ≡ later_ends drivers.now (reverse ends.old.items) }
{
    if !is_driven(drivers) {
        return None;
    }
    ends.pop()
}

fn others(drivers: &[Option<Bytes>]) -> &[Option<Bytes>]
    ensures { result.now ≡ drop 1 drivers.now }
{
    match drivers {
        [_, others @ ..] => others,
        [] => drivers,
    }
}

/// The paths of a plan with what becomes of them, by the drivers that they have and the ends of these.
#[tactic(auto, using(crate::proofs::Ends::settles_next))]
pub fn settle(
    alloc: Global,
    rows: &[Planned],
    drivers: &[Option<Bytes>],
    ends: Vec<DriverEnd>,
) -> Result<Vec<Settled>, AllocError>
    ensures { IfOk result (λ settled. settled.items ≡ all_settled rows.now (ends_by_path drivers.now ends.items)) }
{
    let mut left = ends;
    left.reverse();
    let mut all = Vec::new(alloc);
    let mut driven = drivers;
    let mut rest = rows;
    while let [row, after @ ..] = rest {
        let end = next_end(driven, &mut left);
        all.push(settle_row(row, end)?)?;
        driven = others(driven);
        rest = after;
    }
    Ok(all)
}
