//! Commits that are squashed into earlier ones.

ghost use Rattle.std.specs.Prelude.{◌≡◌, ◌+◌, ◌<◌, ◌≤◌, ◌∷◌, ◌++◌, [], IfOk, IfSome, OnOk, Some, length, map};
ghost use Rattle.std.specs.List.Sorted.{IsPermutation};
ghost use Rattle.std.specs.Option.{option_copied};
ghost use Rattle.todo_plan.specs.Autosquash.{as_pick, autosquashed, node_of, picked, placed_at, placed_with, renamed, rows_with, squash_kind, squash_of, target_text, word_length};
ghost use Rattle.todo_plan.specs.Segments.{InSegments, all_of, joined, picks_of};
ghost use Rattle.todo_plan.specs.Groups.{is_pick};

use crate::groups::is_pick;
use crate::rows::Rows;
use crate::segments::{Places, Segment, move_pick, put_line, put_pick};
use merge_base::{Graph, Node};
use seq_base::Id;
use std::alloc::{AllocError, Global};
use todo_text::{Line, PickKind};

/// The todo with each commit whose subject begins with `fixup! `, `squash! ` or `amend! ` moved behind the pick that it is meant for, and
/// behind what was moved there before, as `fixup`, `squash` or `fixup -C` (git-rebase(1), "--autosquash"). It is meant for the first earlier pick
/// with the subject that stands behind all such words, else the first whose hex digits begin so, where there are four or more, else the
/// first whose subject begins so; where there is none it stays.
pub fn autosquash(alloc: Global, lines: Vec<Line>, graph: &Graph) -> Result<Vec<Line>, AllocError>
    ensures todo { IfOk result (λ all. all.items ≡ autosquashed graph.now lines.items) }
    // Each line stays, and is at most moved and renamed.
    ensures lines { IfOk result (λ all. IsPermutation (map as_pick lines.items) (map as_pick all.items)) }
{
    moved(alloc, lines, graph)
}

fn moved(alloc: Global, lines: Vec<Line>, graph: &Graph) -> Result<Vec<Line>, AllocError>
    ensures { IfOk result (λ all. all.items ≡ autosquashed graph.now lines.items) }
{
    let mut rows = Rows::new(alloc);
    let mut places = Places {
        segments: Vec::new(alloc),
        homes: Vec::new(alloc),
    };
    for line in lines {
        place(alloc, graph, line, &mut rows, &mut places)?;
    }
    lines_of(alloc, places.segments)
}

fn push_lines(segment: Segment, lines: &mut Vec<Line>) -> Result<(), AllocError>
    ensures { OnOk result (lines.new.items ≡ lines.old.items ++ map (λ p. p.line) segment) }
{
    for one in segment.into_vec() {
        lines.push(one.line)?;
    }
    Ok(())
}

fn lines_of(alloc: Global, segments: Vec<Segment>) -> Result<Vec<Line>, AllocError>
    ensures { IfOk result (λ lines. lines.items ≡ map (λ p. p.line) (joined segments.items)) }
{
    let mut lines = Vec::new(alloc);
    for segment in segments {
        push_lines(segment, &mut lines)?;
    }
    Ok(lines)
}

fn node_of<'g>(graph: &'g Graph, rev: &[u8]) -> Option<&'g Node>
    ensures { option_copied result ≡ node_of graph.now rev.now }
{
    match Id::from_hex(rev) {
        Ok(id) => graph.node(id),
        Err(_) => None,
    }
}

/// The commit of a line that picks one.
fn picked<'g>(graph: &'g Graph, line: &Line) -> Option<&'g Node>
    ensures { option_copied result ≡ picked graph.now line.now }
{
    match line {
        Line::Pick { kind, rev, .. } => {
            if is_pick(*kind) {
                node_of(graph, rev.as_slice())
            } else {
                None
            }
        }
        _ => None,
    }
}

fn squash_kind(subject: &[u8]) -> Option<PickKind>
    ensures kind { result ≡ squash_kind subject.now }
    ensures word { IfSome result (λ kind. (0 < word_length kind) × (word_length kind ≤ length subject.now)) }
{
    if subject.starts_with(b"fixup! ") {
        return Some(PickKind::Fixup);
    }
    if subject.starts_with(b"squash! ") {
        return Some(PickKind::Squash);
    }
    if subject.starts_with(b"amend! ") {
        return Some(PickKind::FixupKeep);
    }
    None
}

fn word_length(kind: PickKind) -> usize
    ensures { result ≡ word_length kind }
{
    match kind {
        PickKind::Squash => 8,
        PickKind::Fixup | PickKind::FixupKeep => 7,
        PickKind::Pick
        | PickKind::Reword
        | PickKind::Edit
        | PickKind::FixupEdit
        | PickKind::Drop
        | PickKind::Revert => 0,
    }
}

#[tactic(auto, using(crate::proofs::SquashLaws::last_word))]
fn target_text(subject: &[u8]) -> &[u8]
    ensures { result.now ≡ target_text subject.now }
{
    let mut rest = subject;
    while let Some(kind) = squash_kind(rest) {
        rest = &rest[word_length(kind)..];
    }
    rest
}

/// How a commit is squashed, and into which of the picks before.
fn squash_of(
    alloc: Global,
    rows: &Rows,
    subject: &[u8],
) -> Result<Option<(PickKind, usize)>, AllocError>
    ensures squash { IfOk result (λ squash. squash ≡ squash_of rows.now subject.now) }
    ensures within { IfOk result (λ squash. IfSome squash (λ s. s.1 < length rows.now)) }
{
    let Some(kind) = squash_kind(subject) else {
        return Ok(None)
    };
    match rows.target(alloc, target_text(subject))? {
        Some(number) => Ok(Some((kind, number))),
        None => Ok(None),
    }
}

fn rename(kind: PickKind, line: &mut Line)
    ensures { line.new ≡ renamed kind line.old }
{
    if let Line::Pick { kind: old, .. } = line {
        *old = kind;
    }
}

/// Places the next pick.
fn place_pick(
    alloc: Global,
    line: Line,
    squash: Option<(PickKind, usize)>,
    places: &mut Places,
) -> Result<(), AllocError>
    requires segments { InSegments places.old }
    requires target { IfSome squash (λ s. s.1 < picks_of places.old) }
    ensures lines { OnOk result (all_of places.new ≡ placed_at (picks_of places.old) (all_of places.old) line squash) }
    ensures homes { OnOk result (picks_of places.new ≡ picks_of places.old + 1) }
    ensures segments { OnOk result (InSegments places.new) }
{
    let Some((kind, target)) = squash else {
        return put_pick(alloc, line, places);
    };
    let mut line = line;
    rename(kind, &mut line);
    move_pick(line, target, places)
}

/// Places the next line, and notes its commit, if it picks one.
fn place(
    alloc: Global,
    graph: &Graph,
    line: Line,
    rows: &mut Rows,
    places: &mut Places,
) -> Result<(), AllocError>
    requires segments { InSegments places.old }
    requires rows { length rows.old ≡ picks_of places.old }
    ensures rows { OnOk result (rows.new ≡ rows_with rows.old (picked graph.now line)) }
    ensures lines { OnOk result (all_of places.new ≡ placed_with rows.old (all_of places.old) line (picked graph.now line)) }
    ensures homes { OnOk result (length rows.new ≡ picks_of places.new) }
    ensures segments { OnOk result (InSegments places.new) }
{
    let Some(node) = picked(graph, &line) else {
        return put_line(alloc, line, places);
    };
    let squash = squash_of(alloc, rows, node.subject.as_slice())?;
    place_pick(alloc, line, squash, places)?;
    rows.push(alloc, node)
}
