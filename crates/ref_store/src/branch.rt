//! Moving HEAD, on its branch or detached.

ghost use Rattle.std.specs.FinMap as map;
ghost use Rattle.std.specs.Prelude.{◌≡◌, List, false, ℕ};
ghost use Rattle.ref_store.specs.Steps.{Does, StaysBut, StaysWhere};
ghost use Rattle.ref_store.specs.Moves.{IsElsewhere, branch_moved, detached_moved, head_logged, head_moved, line_added, lines_added, moved_name, ref_set};
ghost use Rattle.ref_text.specs.Heads.{IsHeadValue};
ghost use Rattle.ref_text.specs.Logs.{IsLogValue};
ghost use Rattle.ref_text.specs.Refs.{head_name, log_path, ref_path};
ghost use Rattle.seq_base.specs.RefNames.{IsRefName};
ghost use Rattle.seq_base.specs.World.{path_cmp};
ghost use Rattle.seq_outside.specs.Halts.{halt_cause};
ghost use Rattle.seq_outside.specs.Seen.{Writes};

use crate::file::file_text;
use crate::place::{has_log, log_file, ref_file};
use ref_text::{Head, LogLine, head_text, log_text};
use seq_base::{Bytes, Id};
use seq_outside::{Halt, Lack, Store, put_file};
use std::alloc::Global;

/// Gives a ref a value.
#[tactic(auto, unfolding(crate::specs::Moves::ref_set))]
pub(crate) fn set_ref<S: Store>(
    alloc: Global,
    store: &mut S,
    name: &[u8],
    id: Id,
) -> Result<(), Halt<Lack>>
    requires { IsRefName name.now }
    ensures turns { S.told → Does result (ref_set name.now id) (S.seen store.old) (S.seen store.new) }
    ensures elsewhere { S.told → StaysBut (ref_path name.now) (S.seen store.old) (S.seen store.new) }
    ensures writes { Writes S.told halt_cause result (S.seen store.old) (S.seen store.new) }
{
    let path = ref_file(alloc, name)?;
    let text = head_text(alloc, &Head::Detached(id))?;
    put_file(alloc, store, Bytes::from_vec(path), &text)
}

/// Adds a line at the end of the log of a ref, if a log is kept of it.
#[tactic(auto, unfolding(crate::specs::Moves::line_added))]
pub(crate) fn add_line<S: Store>(
    alloc: Global,
    store: &mut S,
    name: &[u8],
    line: &LogLine,
) -> Result<(), Halt<Lack>>
    requires name { IsRefName name.now }
    requires line { IsLogValue line.now }
    ensures turns { S.told → Does result (line_added name.now line.now) (S.seen store.old) (S.seen store.new) }
    ensures elsewhere { S.told → StaysBut (log_path name.now) (S.seen store.old) (S.seen store.new) }
    ensures writes { Writes S.told halt_cause result (S.seen store.old) (S.seen store.new) }
{
    if !has_log(name) {
        return Ok(());
    }
    let path = log_file(alloc, name)?;
    let mut text = file_text(alloc, store, &path)?;
    let added = log_text(alloc, line)?;
    text.extend_from_slice(&added)?;
    put_file(alloc, store, Bytes::from_vec(path), &text)
}

/// Adds a line at the end of HEAD's log.
#[tactic(auto, unfolding(crate::specs::Moves::head_logged))]
fn log_head<S: Store>(alloc: Global, store: &mut S, line: &LogLine) -> Result<(), Halt<Lack>>
    requires { IsLogValue line.now }
    ensures turns { S.told → Does result (head_logged line.now) (S.seen store.old) (S.seen store.new) }
    ensures elsewhere { S.told → StaysBut (log_path head_name) (S.seen store.old) (S.seen store.new) }
    ensures writes { Writes S.told halt_cause result (S.seen store.old) (S.seen store.new) }
{
    add_line(alloc, store, b"HEAD", line)
}

/// Adds a line at the end of the log of a ref, and of HEAD's.
#[tactic(auto, unfolding(crate::specs::Moves::lines_added))]
fn add_lines<S: Store>(
    alloc: Global,
    store: &mut S,
    name: &[u8],
    line: &LogLine,
) -> Result<(), Halt<Lack>>
    requires name { IsRefName name.now }
    requires line { IsLogValue line.now }
    ensures turns { S.told → Does result (lines_added name.now line.now) (S.seen store.old) (S.seen store.new) }
    ensures elsewhere { S.told → StaysWhere (IsElsewhere name.now) (S.seen store.old) (S.seen store.new) }
    ensures writes { Writes S.told halt_cause result (S.seen store.old) (S.seen store.new) }
{
    add_line(alloc, store, name, line)?;
    log_head(alloc, store, line)
}

/// Moves HEAD's branch to a commit, with a line in its log and in HEAD's (git-update-ref(1)). The branch has the name of a ref;
/// a log is kept of those below `refs/heads/`. A file or a folder in the way of one of the three files is `Way`, and those before
/// it have been put.
#[tactic(auto, unfolding(crate::specs::Moves::branch_moved))]
pub fn move_branch<S: Store>(
    alloc: Global,
    store: &mut S,
    branch: &[u8],
    id: Id,
    line: &LogLine,
) -> Result<(), Halt<Lack>>
    requires branch { IsRefName branch.now }
    requires line { IsLogValue line.now }
    ensures turns { S.told → Does result (branch_moved branch.now id line.now) (S.seen store.old) (S.seen store.new) }

    // It follows from `turns`, where it ends well or by a blocked put.
    ensures elsewhere { S.told → StaysWhere (IsElsewhere branch.now) (S.seen store.old) (S.seen store.new) }
    ensures writes { Writes S.told halt_cause result (S.seen store.old) (S.seen store.new) }
{
    set_ref(alloc, store, branch, id)?;
    add_lines(alloc, store, branch, line)
}

/// Moves a detached HEAD to a commit, with a line in its log.
#[tactic(auto, unfolding(crate::specs::Moves::detached_moved))]
fn move_detached<S: Store>(
    alloc: Global,
    store: &mut S,
    id: Id,
    line: &LogLine,
) -> Result<(), Halt<Lack>>
    requires { IsLogValue line.now }
    ensures turns { S.told → Does result (detached_moved id line.now) (S.seen store.old) (S.seen store.new) }
    ensures elsewhere { S.told → StaysWhere (IsElsewhere head_name) (S.seen store.old) (S.seen store.new) }
    ensures writes { Writes S.told halt_cause result (S.seen store.old) (S.seen store.new) }
{
    set_ref(alloc, store, b"HEAD", id)?;
    log_head(alloc, store, line)
}

/// Moves HEAD, as it was found, to a commit: its branch, with a line in the branch's log and in HEAD's, or HEAD itself where it is
/// detached, with a line in its log (git-update-ref(1), `--no-deref` of the branch). Where a file or a folder is in the way of one of
/// them it is `Way`, and those before it have been put.
#[tactic(auto, unfolding(crate::specs::Moves::head_moved))]
pub fn move_head<S: Store>(
    alloc: Global,
    store: &mut S,
    head: &Head,
    id: Id,
    line: &LogLine,
) -> Result<(), Halt<Lack>>
    requires head { IsHeadValue head.now }
    requires line { IsLogValue line.now }
    ensures turns { S.told → Does result (head_moved head.now id line.now) (S.seen store.old) (S.seen store.new) }

    // It follows from `turns`, where it ends well or by a blocked put.
    ensures elsewhere { S.told → StaysWhere (IsElsewhere (moved_name head.now)) (S.seen store.old) (S.seen store.new) }
    ensures writes { Writes S.told halt_cause result (S.seen store.old) (S.seen store.new) }
{
    match head {
        Head::Branch(branch) => move_branch(alloc, store, branch.as_slice(), id, line),
        Head::Detached(_) => move_detached(alloc, store, id, line),
    }
}
