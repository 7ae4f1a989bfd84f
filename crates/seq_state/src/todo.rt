//! A todo is read, and each of its lines is judged.

ghost use Rattle.std.specs.Prelude.{◌≡◌, All, IfOk, length};
ghost use Rattle.std.specs.Str.Lines.{lines as text_lines};
ghost use Rattle.reading.specs.Going.{bad_in};
ghost use Rattle.reading.specs.Todos.{commit_fault as commit_fault_of, denied_todo as denied_todo_of, first_bad as first_bad_of, kept_lines, line_fault as line_fault_of, may_read, numbers as numbers_of};
ghost use Rattle.reading.specs.Todos.{parents_fault as parents_fault_of, parents_named as parents_named_by, todo_in as todo_in_world, todo_kept, todo_lines as todo_lines_of, todo_read};
ghost use Rattle.seq_outside.specs.Halts.{Gives, halt_cause, stop_found};
ghost use Rattle.seq_outside.specs.Seen.{Reads, store_cause};
ghost use Rattle.state_text.specs.Controls.{IsLeft};
ghost use Rattle.todo_text.specs.Spells.{IsSpelled};
ghost use Rattle.std.specs.Prelude.{false, IsErrOf};
ghost use Rattle.std.specs.Result.{result_map_both};
ghost use Rattle.seq_state.specs.Parents.{parents_of};
ghost use Rattle.rev_names.specs.Revs.{rev_at};
ghost use Rattle.seq_outside.specs.Halts.{for_reason};
ghost use Rattle.reading.specs.Todos.{bad_line, no_fault};
ghost use Rattle.todo_text.specs.ReadTodo.{TodoGives, todo_of};

use object_text::Ids;
use objects::read_commit;
use rev_names::resolve_rev;
use seq_base::{Bytes, Id};
use seq_model::{Denial, Refusal, refused};
use seq_outside::{Halt, LimitWhat, Store, StoreError};
use state_text::{Control, Left, Lines, StateFile, Verb, state_path};
use std::alloc::{AllocError, Global};
use todo_text::{Line, PickKind, TodoFault, TodoKind, first_line, is_comment, parse_todo};

// ---- a line

/// The commit that a name names, whatever is at fault with one that names none.
fn named<S: Store>(alloc: Global, rev: &[u8], store: &mut S) -> Result<Id, Halt<()>>
    ensures gives { S.told → Gives (λ id. id) result (for_reason no_fault (rev_at (S.seen store.old).content rev.now)) }
    ensures reads { Reads S.told halt_cause result (S.seen store.old) (S.seen store.new) }
{
    match resolve_rev(alloc, store, rev) {
        Ok(id) => Ok(id),
        Err(Halt::Stops(_fault)) => Err(Halt::Stops(())),
        Err(Halt::Fault) => Err(Halt::Fault),
        Err(Halt::Memory) => Err(Halt::Memory),
    }
}

fn parents<S: Store>(alloc: Global, id: Id, store: &mut S) -> Result<Ids, Halt<()>>
    ensures gives { S.told → Gives (λ ids. ids) result (parents_of (S.seen store.old).content id) }
    ensures reads { Reads S.told halt_cause result (S.seen store.old) (S.seen store.new) }
{
    match read_commit(alloc, store, id) {
        Ok(commit) => Ok(commit.parents),
        Err(Halt::Stops(_lack)) => Err(Halt::Stops(())),
        Err(Halt::Fault) => Err(Halt::Fault),
        Err(Halt::Memory) => Err(Halt::Memory),
    }
}

/// The parents of the commit that a name names.
#[tactic(auto, unfolding(reading::specs::Todos::parents_named))]
fn parents_named<S: Store>(alloc: Global, rev: &[u8], store: &mut S) -> Result<Ids, Halt<()>>
    ensures gives { S.told → Gives (λ ids. ids) result (parents_named_by rev.now (S.seen store.old).content) }
    ensures reads { Reads S.told halt_cause result (S.seen store.old) (S.seen store.new) }
{
    let id = named(alloc, rev, store)?;
    parents(alloc, id, store)
}

/// A merge is none to pick, and may be dropped.
fn parents_fault<S: Store>(
    alloc: Global,
    picked: bool,
    rev: &[u8],
    store: &mut S,
) -> Result<Option<TodoKind>, StoreError>
    ensures fault { S.told → IfOk result (λ fault. fault ≡ parents_fault_of picked (parents_named_by rev.now (S.seen store.old).content)) }
    ensures reads { Reads S.told store_cause result (S.seen store.old) (S.seen store.new) }
{
    match parents_named(alloc, rev, store) {
        Ok(ids) => {
            if picked && ids.as_slice().len() > 1 {
                return Ok(Some(TodoKind::MergePicked));
            }
            Ok(None)
        }
        Err(Halt::Stops(())) => Ok(Some(TodoKind::NoSuchCommit)),
        Err(Halt::Fault) => Err(StoreError::Failed),
        Err(Halt::Memory) => Err(StoreError::Memory),
    }
}

fn commit_fault<S: Store>(
    alloc: Global,
    kind: PickKind,
    rev: &[u8],
    store: &mut S,
) -> Result<Option<TodoKind>, StoreError>
    ensures fault { S.told → IfOk result (λ fault. fault ≡ commit_fault_of (S.seen store.old).content kind rev.now) }
    ensures reads { Reads S.told store_cause result (S.seen store.old) (S.seen store.new) }
{
    match kind {
        PickKind::Pick => parents_fault(alloc, true, rev, store),
        PickKind::Drop => parents_fault(alloc, false, rev, store),
        PickKind::Revert => Ok(Some(TodoKind::Command)),
        PickKind::Reword
        | PickKind::Edit
        | PickKind::Squash
        | PickKind::Fixup
        | PickKind::FixupKeep
        | PickKind::FixupEdit => Ok(Some(TodoKind::NotBuilt)),
    }
}

/// Why a line that reads is bad.
fn line_fault<S: Store>(
    alloc: Global,
    line: &Line,
    store: &mut S,
) -> Result<Option<TodoKind>, StoreError>
    ensures fault { S.told → IfOk result (λ fault. fault ≡ line_fault_of (S.seen store.old).content line.now) }
    ensures reads { Reads S.told store_cause result (S.seen store.old) (S.seen store.new) }
{
    match line {
        Line::Pick { kind, rev, .. } => commit_fault(alloc, *kind, rev.as_slice(), store),
        Line::Exec { .. } | Line::Break | Line::Noop => Ok(None),
        Line::Label { .. } | Line::Reset { .. } | Line::Merge { .. } | Line::UpdateRef { .. } => {
            Ok(Some(TodoKind::NotBuilt))
        }
    }
}

// ---- a todo

/// Where a todo has its lines, comments and empty lines counted.
fn numbers(alloc: Global, todo: &[u8]) -> Result<Vec<u64>, AllocError>
    ensures { IfOk result (λ numbers. numbers.items ≡ numbers_of 1 (text_lines todo.now)) }
{
    let mut numbers = Vec::new(alloc);
    let mut number: u64 = 0;
    let mut rest = todo;
    while !rest.is_empty() {
        let (text, behind) = first_line(rest);
        number += 1;
        if !is_comment(text) {
            numbers.push(number)?;
        }
        rest = behind;
    }
    Ok(numbers)
}

/// Stops at the first bad line.
fn want_good_lines<S: Store>(
    alloc: Global,
    numbers: &[u64],
    lines: &[Line],
    store: &mut S,
) -> Result<(), Halt<(u64, TodoKind)>>
    ensures gives { S.told → Gives (λ x. x) result (stop_found (first_bad_of (S.seen store.old).content numbers.now lines.now) (λ at. at)) }
    ensures reads { Reads S.told halt_cause result (S.seen store.old) (S.seen store.new) }
{
    let mut numbers = numbers;
    let mut lines = lines;
    while let [number, later @ ..] = numbers {
        let [line, after @ ..] = lines else {
            return Ok(());
        };
        if let Some(kind) = line_fault(alloc, line, store)? {
            return Err(Halt::Stops((*number, kind)));
        }
        numbers = later;
        lines = after;
    }
    Ok(())
}

#[tactic(auto, using(crate::proofs::Parsing::todo_parsed))]
fn lines_of(alloc: Global, earlier: bool, todo: &[u8]) -> Result<Vec<Line>, TodoFault>
    ensures gives { TodoGives (result_map_both (λ v. v.items) (λ e. e) result) (todo_of earlier 1 (text_lines todo.now)) }
    ensures spelled { IfOk result (λ v. All IsSpelled v.items) }
{
    parse_todo(alloc, todo, earlier)
}

/// The lines of a text, which are not looked at further.
fn parsed(alloc: Global, earlier: bool, todo: &[u8]) -> Result<Vec<Line>, Halt<(u64, TodoKind)>>
    ensures gives { Gives (λ v. v.items) result (for_reason bad_line (todo_of earlier 1 (text_lines todo.now))) }
    ensures spelled { IfOk result (λ v. All IsSpelled v.items) }
    ensures no_fault { IsErrOf result Halt.Fault → ⊥ }
{
    match lines_of(alloc, earlier, todo) {
        Ok(lines) => Ok(lines),
        Err(TodoFault::Bad { line, kind }) => Err(Halt::Stops((line, kind))),
        Err(TodoFault::Memory) => Err(Halt::Memory),
    }
}

/// The lines of a todo, before which there is a line that is done or not; or its first bad line, and what is wrong with it.
#[tactic(auto, unfolding(reading::specs::Todos::todo_lines))]
pub fn todo_lines<S: Store>(
    alloc: Global,
    earlier: bool,
    todo: &[u8],
    store: &mut S,
) -> Result<Vec<Line>, Halt<(u64, TodoKind)>>
    ensures gives { S.told → Gives (λ v. v.items) result (todo_lines_of (S.seen store.old).content earlier todo.now) }
    ensures spelled { IfOk result (λ v. All IsSpelled v.items) }
    ensures reads { Reads S.told halt_cause result (S.seen store.old) (S.seen store.new) }
{
    let lines = parsed(alloc, earlier, todo)?;
    let numbers = numbers(alloc, todo)?;
    want_good_lines(alloc, &numbers, &lines, store)?;
    Ok(lines)
}

// ---- limits

fn line_count(todo: &[u8]) -> u64
    ensures { result ≡ length (text_lines todo.now) }
{
    let mut count: u64 = 0;
    let mut rest = todo;
    while !rest.is_empty() {
        let (_text, behind) = first_line(rest);
        count += 1;
        rest = behind;
    }
    count
}

/// Stops where a todo is too long.
#[tactic(auto, unfolding(reading::specs::Todos::may_read))]
pub fn want_readable(todo: &[u8]) -> Result<(), Halt<Denial>>
    ensures gives { Gives (λ x. x) result (may_read todo.now) }
    ensures no_fault { IsErrOf result Halt.Fault → ⊥ }
{
    let count = line_count(todo);
    if count > 100_000 {
        return Err(Halt::Stops(Denial::Limit {
            what: LimitWhat::TodoLines,
            number: count,
        }));
    }
    let bytes = todo.len();
    if bytes > 16_777_216 {
        return Err(Halt::Stops(Denial::Limit {
            what: LimitWhat::TodoBytes,
            number: bytes as u64,
        }));
    }
    Ok(())
}

// ---- at a start

/// What is kept of the todo of a start: its lines, or the text of one that does not read, and its first bad line.
#[derive(Drop)]
pub struct KeptTodo {
    pub left: Left,
    pub bad: Option<(u64, TodoKind)>,
}

fn keep_lines<S: Store>(alloc: Global, todo: &[u8], store: &mut S) -> Result<KeptTodo, Halt<Denial>>
    ensures gives { (k : Control) → S.told → Gives (λ kept. record k { left = kept.left }) result
        (kept_lines k todo.now (todo_lines_of (S.seen store.old).content false todo.now)) }
    ensures bad { S.told → IfOk result (λ kept. kept.bad ≡ bad_in (S.seen store.old).content kept.left) }
    ensures left { IfOk result (λ kept. IsLeft kept.left) }
    ensures reads { Reads S.told halt_cause result (S.seen store.old) (S.seen store.new) }
{
    match todo_lines(alloc, false, todo, store) {
        Ok(lines) => {
            if lines.is_empty() {
                return Err(refused(Refusal::NothingToDo));
            }
            let left = Left::Lines(Lines::from_vec(lines));
            Ok(KeptTodo { left, bad: None })
        }
        Err(Halt::Stops(at)) => {
            let left = Left::Raw(Bytes::from_vec(todo.to_vec(alloc)?));
            let bad = Some(at);
            Ok(KeptTodo { left, bad })
        }
        Err(Halt::Fault) => Err(Halt::Fault),
        Err(Halt::Memory) => Err(Halt::Memory),
    }
}

/// The control of a start, whichever it is, has these lines of this todo; one that does not read is kept as it is.
#[tactic(auto, unfolding(reading::specs::Todos::todo_kept))]
pub fn keep_todo<S: Store>(
    alloc: Global,
    todo: &[u8],
    store: &mut S,
) -> Result<KeptTodo, Halt<Denial>>
    ensures gives { (k : Control) → S.told → Gives (λ kept. record k { left = kept.left }) result (todo_kept k todo.now (S.seen store.old).content) }
    ensures bad { S.told → IfOk result (λ kept. kept.bad ≡ bad_in (S.seen store.old).content kept.left) }
    ensures left { IfOk result (λ kept. IsLeft kept.left) }
    ensures reads { Reads S.told halt_cause result (S.seen store.old) (S.seen store.new) }
{
    want_readable(todo)?;
    keep_lines(alloc, todo, store)
}

// ---- later

/// The todo as it stands in its file; one that is gone is empty.
pub fn todo_in<S: Store>(alloc: Global, store: &mut S) -> Result<Vec<u8>, StoreError>
    ensures text { S.told → IfOk result (λ text. text.items ≡ todo_in_world (S.seen store.old).content) }
    ensures reads { Reads S.told store_cause result (S.seen store.old) (S.seen store.new) }
{
    match store.get(alloc, state_path(Verb::Rebase, StateFile::RebaseTodo))? {
        Some(text) => Ok(text),
        None => Ok(Vec::new(alloc)),
    }
}

fn lines_or_denied<S: Store>(
    alloc: Global,
    earlier: bool,
    todo: &[u8],
    store: &mut S,
) -> Result<Vec<Line>, Halt<Denial>>
    ensures gives { S.told → Gives (λ v. v.items) result (for_reason denied_todo_of (todo_lines_of (S.seen store.old).content earlier todo.now)) }
    ensures spelled { IfOk result (λ v. All IsSpelled v.items) }
    ensures reads { Reads S.told halt_cause result (S.seen store.old) (S.seen store.new) }
{
    match todo_lines(alloc, earlier, todo, store) {
        Ok(lines) => Ok(lines),
        Err(Halt::Stops((line, kind))) => Err(refused(Refusal::TodoBad { line, kind })),
        Err(Halt::Fault) => Err(Halt::Fault),
        Err(Halt::Memory) => Err(Halt::Memory),
    }
}

/// The lines that are left of a list, as its todo is found.
#[tactic(auto, unfolding(reading::specs::Todos::todo_read))]
pub fn read_todo<S: Store>(
    alloc: Global,
    control: &Control,
    store: &mut S,
) -> Result<Vec<Line>, Halt<Denial>>
    ensures gives { S.told → Gives (λ v. v.items) result (todo_read control.now (S.seen store.old).content) }
    ensures spelled { IfOk result (λ v. All IsSpelled v.items) }
    ensures reads { Reads S.told halt_cause result (S.seen store.old) (S.seen store.new) }
{
    let todo = todo_in(alloc, store)?;
    want_readable(&todo)?;
    let earlier = !control.done.as_slice().is_empty();
    lines_or_denied(alloc, earlier, &todo, store)
}
