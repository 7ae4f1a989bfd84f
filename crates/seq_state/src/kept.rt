//! The control that is kept where a turn stops.

ghost use Rattle.std.specs.Prelude.{◌≡◌, ◌++◌, drop, take, IfOk};
ghost use Rattle.reading.specs.Readings.{exec_word as exec_word_by, kept_after as kept_after_by, lines_left, lines_taken, word_of as word_of_kind};

use line_steps::{Pause, Place};
use seq_model::StopKind;
use state_text::{Control, Left, Lines, StopWord};
use std::alloc::{AllocError, Global};
use todo_text::Line;

/// A command that could not be run is tried again, as a line that was blocked.
fn exec_word(failed: bool) -> StopWord
    ensures { result ≡ exec_word_by failed }
{
    if failed {
        StopWord::Blocked
    } else {
        StopWord::ExecFailed
    }
}

fn word_of(failed: bool, kind: &StopKind) -> StopWord
    ensures { result ≡ word_of_kind failed kind.now }
{
    match kind {
        StopKind::Conflict => StopWord::Conflict,
        StopKind::Edit => StopWord::Edit,
        StopKind::Break => StopWord::Break,
        StopKind::ExecFailed { .. } => exec_word(failed),
        StopKind::ExecDirty { .. } => StopWord::ExecDirty,
        StopKind::Empty { .. } => StopWord::Empty,
        StopKind::HookRefused { .. } => StopWord::HookRefused,
        StopKind::EditorFailed { .. } => StopWord::EditorFailed,
        StopKind::EmptyMessage => StopWord::EmptyMessage,
        StopKind::DriverBroken { .. } => StopWord::DriverBroken,
        StopKind::Blocked(_) => StopWord::Blocked,
        StopKind::TodoBad { .. } => StopWord::TodoBad,
        StopKind::RefMoved { .. } => StopWord::RefMoved,
    }
}

/// The first lines, and the others.
fn split(alloc: Global, lines: Vec<Line>, n: usize) -> Result<(Vec<Line>, Vec<Line>), AllocError>
    ensures taken { IfOk result (λ both. both.0.items ≡ take n lines.items) }
    ensures left { IfOk result (λ both. both.1.items ≡ drop n lines.items) }
{
    let mut lines = lines;
    if lines.len() <= n {
        return Ok((lines, Vec::new(alloc)));
    }
    let left = lines.split_off(n)?;
    Ok((lines, left))
}

/// The lines that are done go behind those that were.
fn with_done(done: Lines, taken: Vec<Line>) -> Result<Lines, AllocError>
    ensures { IfOk result (λ all. all ≡ done ++ taken.items) }
{
    let mut all = done.into_vec();
    let mut taken = taken;
    all.append(&mut taken)?;
    Ok(Lines::from_vec(all))
}

fn divide(alloc: Global, left: Left, n: usize) -> Result<(Vec<Line>, Left), AllocError>
    ensures taken { IfOk result (λ both. both.0.items ≡ lines_taken n left) }
    ensures left { IfOk result (λ both. both.1 ≡ lines_left n left) }
{
    match left {
        Left::Lines(lines) => {
            let (taken, left) = split(alloc, lines.into_vec(), n)?;
            Ok((taken, Left::Lines(Lines::from_vec(left))))
        }
        Left::Raw(text) => Ok((Vec::new(alloc), Left::Raw(text))),
    }
}

/// The control with which a turn began, as it is kept where the turn stops: `left` are the lines that it began with.
pub fn kept_after(
    alloc: Global,
    control: Control,
    left: Left,
    pause: Pause,
    place: Place,
) -> Result<(Control, StopKind, bool), AllocError>
    ensures control { IfOk result (λ kept. kept.0 ≡ kept_after_by control left pause place) }
    ensures kind { IfOk result (λ kept. kept.1 ≡ pause.stop.kind) }
    ensures failed { IfOk result (λ kept. kept.2 ≡ pause.stop.failed) }
{
    let (taken, left) = divide(alloc, left, pause.done)?;
    let stop = pause.stop;
    let word = word_of(stop.failed, &stop.kind);
    let kept = Control {
        verb: control.verb,
        options: control.options,
        head_name: control.head_name,
        orig: control.orig,
        onto: control.onto,
        done: with_done(control.done, taken)?,
        left,
        backup: control.backup,
        labels: place.labels,
        updates: place.updates,
        rewritten: place.rewritten,
        waiting: place.waiting,
        chain: place.chain,
        stop: word,
        stopped_head: place.head,
        stopped_commit: stop.commit,
        pending: stop.pending,
    };
    Ok((kept, stop.kind, stop.failed))
}
