//! The todo of a rebase that makes merges again.

ghost use Rattle.std.specs.Prelude.{◌≡◌, ◌++◌, ◌<◌, ◌^◌, ℕ, List, [], ◌∷◌, IfOk, IfErr, OnOk, None, map};
ghost use Rattle.std.specs.BTreeMap.{get};
ghost use Rattle.std.specs.BTreeSet.{contains};
ghost use Rattle.std.specs.Cmp.Lexicographic.{slice_cmp};
ghost use Rattle.std.specs.Ordering.{nat_cmp};
ghost use Rattle.merge_base.specs.Graphs.{first_missing, is_among, node_at};
ghost use Rattle.hex.specs.Hex.{encode_lower};
ghost use Rattle.todo_plan.specs.Labels.{AreLabelsSet};
ghost use Rattle.todo_plan.specs.Places.{Names, ReadsHex, StandsOn};
ghost use Rattle.todo_plan.specs.Told.{revs_of};
ghost use Rattle.todo_plan.specs.Merges.{PlanFails, commit_lines, counted, first_fault, if_apart, is_apart, label_lines, label_name, lines_on, merge_of, merges_todo, name_of, named, named_by, numbered, parents_fault, parents_named, range_lines, reset_lines};

use crate::fault::PlanFault;
use crate::lines::{note_of, pick_of};
use itoa::Buffer;
use merge_base::{Graph, Node};
use seq_base::{Bytes, Id};
use std::alloc::{AllocError, Global};
use std::collections::{BTreeMap, BTreeSet};
use todo_text::{Line, MergeHow};

/// The todo of a range of commits with `--rebase-merges` (git-rebase(1), "REBASING MERGES"): a pick line for each commit with one parent and a
/// merge line for each with two, in the order of the range, each on the place of its first parent. `base` is the merge base that is
/// rebased from; in the todo it is `onto`. An empty range gives `noop`.
pub fn plan_merges(
    alloc: Global,
    graph: &Graph,
    range: &[Id],
    base: Id,
) -> Result<Vec<Line>, PlanFault>
    requires { first_missing graph.now range.now ≡ None }
    ensures none { IfOk result (λ lines. first_fault graph.now range.now ≡ None) }
    ensures todo { IfOk result (λ lines. lines.items ≡ merges_todo graph.now base range.now) }
    // Each commit of the range stands in one pick or merge line, and these lines in the order of the range.
    ensures commits { IfOk result (λ lines. revs_of lines.items ≡ map encode_lower range.now) }
    // Each of these lines stands on its commit's own parents, however else names are read: so each commit can be taken as it is.
    ensures stands { (names : Names) → ReadsHex graph.now names → IfOk result (λ lines. StandsOn graph.now names base lines.items) }
    // Each label is set once, and before it is used.
    ensures labels { IfOk result (λ lines. AreLabelsSet [] lines.items) }
    ensures err { IfErr result (λ fault. PlanFails (first_fault graph.now range.now) fault) }
{
    if let Some(fault) = first_fault(graph, range) {
        return Err(fault);
    }
    match todo(alloc, graph, range, base) {
        Ok(lines) => Ok(lines),
        Err(_) => Err(PlanFault::Memory),
    }
}

fn parents_fault(graph: &Graph, id: Id) -> Option<PlanFault>
    ensures { result ≡ parents_fault (node_at graph.now id) }
{
    let Some(node) = graph.node(id) else {
        return None
    };
    let count = node.parents.as_slice().len();
    if count == 0 {
        return Some(PlanFault::NewRoot { id: node.id });
    }
    if count > 2 {
        return Some(PlanFault::Octopus { id: node.id });
    }
    None
}

fn first_fault(graph: &Graph, range: &[Id]) -> Option<PlanFault>
    ensures { result ≡ first_fault graph.now range.now }
{
    for id in range {
        if let Some(fault) = parents_fault(graph, *id) {
            return Some(fault);
        }
    }
    None
}

fn todo(alloc: Global, graph: &Graph, range: &[Id], base: Id) -> Result<Vec<Line>, AllocError>
    ensures { IfOk result (λ lines. lines.items ≡ merges_todo graph.now base range.now) }
{
    if range.is_empty() {
        return Ok(vec![in alloc; Line::Noop]?);
    }
    let named = named(alloc, graph, range, base)?;
    let wanted = set_of(alloc, &named)?;
    let onto = Line::Label {
        name: Bytes::from_vec(Vec::from_slice(alloc, b"onto")?),
    };
    range_lines(alloc, graph, range, base, &wanted, &named, onto)
}

fn is_apart(place: &Id, id: &Id) -> bool
    ensures { result ≡ is_apart place.now id.now }
{
    *id != *place
}

fn push_if_apart(place: &Id, id: Id, ids: &mut Vec<Id>) -> Result<(), AllocError>
    ensures { OnOk result (ids.new.items ≡ ids.old.items ++ if_apart place.now id) }
{
    if is_apart(place, &id) {
        ids.push(id)?;
    }
    Ok(())
}

fn push_parents(place: &Id, parents: &[Id], ids: &mut Vec<Id>) -> Result<(), AllocError>
    ensures { OnOk result (ids.new.items ≡ ids.old.items ++ parents_named place.now parents.now) }
{
    match parents {
        [] => Ok(()),
        [first] => push_if_apart(place, *first, ids),
        [first, second, ..] => {
            push_if_apart(place, *first, ids)?;
            ids.push(*second)?;
            Ok(())
        }
    }
}

fn push_named(graph: &Graph, place: &Id, id: Id, ids: &mut Vec<Id>) -> Result<(), AllocError>
    ensures { OnOk result (ids.new.items ≡ ids.old.items ++ named_by place.now (node_at graph.now id)) }
{
    let Some(node) = graph.node(id) else {
        return Ok(())
    };
    push_parents(place, node.parents.as_slice(), ids)
}

/// The ids that the commits of a range name.
fn named(alloc: Global, graph: &Graph, range: &[Id], base: Id) -> Result<Vec<Id>, AllocError>
    ensures { IfOk result (λ ids. ids.items ≡ named graph.now base range.now) }
{
    let mut ids = Vec::new(alloc);
    let mut place = base;
    for id in range {
        push_named(graph, &place, *id, &mut ids)?;
        place = *id;
    }
    Ok(ids)
}

fn set_of(alloc: Global, ids: &[Id]) -> Result<BTreeSet<Id>, AllocError>
    ensures { IfOk result (λ set. (id : List ℕ) → contains (slice_cmp nat_cmp) set id ≡ is_among ids.now id) }
{
    let mut set = BTreeSet::new(alloc);
    for id in ids {
        set.insert(*id)?;
    }
    Ok(set)
}

fn label_name(alloc: Global, number: u64) -> Result<Bytes, AllocError>
    ensures { IfOk result (λ name. name ≡ label_name number) }
{
    let mut name = Vec::from_slice(alloc, b"rw-")?;
    let mut digits = Buffer::new();
    name.extend_from_slice(digits.format(number).as_bytes())?;
    Ok(Bytes::from_vec(name))
}

/// The name of a commit in the todo.
fn name_of(
    alloc: Global,
    base: &Id,
    numbers: &BTreeMap<Id, u64>,
    id: &Id,
) -> Result<Bytes, AllocError>
    ensures { IfOk result (λ name. name ≡ name_of base.now (λ other. get (slice_cmp nat_cmp) numbers.now other) id.now) }
{
    if let Some(number) = numbers.get(id) {
        return label_name(alloc, *number);
    }
    if *id == *base {
        return Ok(Bytes::from_vec(Vec::from_slice(alloc, b"onto")?));
    }
    Ok(Bytes::from_vec(id.hex(alloc)?))
}

fn push_reset(
    alloc: Global,
    base: &Id,
    numbers: &BTreeMap<Id, u64>,
    place: &Id,
    first: &Id,
    lines: &mut Vec<Line>,
) -> Result<(), AllocError>
    ensures { OnOk result (lines.new.items ≡ lines.old.items
        ++ reset_lines base.now (λ other. get (slice_cmp nat_cmp) numbers.now other) place.now first.now) }
{
    if !is_apart(place, first) {
        return Ok(());
    }
    let name = name_of(alloc, base, numbers, first)?;
    lines.push(Line::Reset {
        name,
        note: Bytes::from_vec(Vec::new(alloc)),
    })?;
    Ok(())
}

fn merge_of(
    alloc: Global,
    base: &Id,
    numbers: &BTreeMap<Id, u64>,
    node: &Node,
    second: &Id,
) -> Result<Line, AllocError>
    ensures { IfOk result (λ line. line ≡ merge_of base.now (λ other. get (slice_cmp nat_cmp) numbers.now other) node.now second.now) }
{
    let rev = Bytes::from_vec(node.id.hex(alloc)?);
    let head = name_of(alloc, base, numbers, second)?;
    Ok(Line::Merge {
        how: MergeHow::Keep { rev },
        head,
        note: note_of(alloc, node.subject.as_slice())?,
    })
}

/// Writes the lines of a commit.
fn push_on(
    alloc: Global,
    base: &Id,
    numbers: &BTreeMap<Id, u64>,
    place: &Id,
    node: &Node,
    lines: &mut Vec<Line>,
) -> Result<(), AllocError>
    ensures { OnOk result (lines.new.items ≡ lines.old.items
        ++ lines_on base.now (λ other. get (slice_cmp nat_cmp) numbers.now other) place.now node.now node.now.parents) }
{
    match node.parents.as_slice() {
        [] => Ok(()),
        [first] => {
            push_reset(alloc, base, numbers, place, first, lines)?;
            lines.push(pick_of(alloc, node)?)?;
            Ok(())
        }
        [first, second, ..] => {
            push_reset(alloc, base, numbers, place, first, lines)?;
            lines.push(merge_of(alloc, base, numbers, node, second)?)?;
            Ok(())
        }
    }
}

fn push_commit(
    alloc: Global,
    graph: &Graph,
    base: &Id,
    numbers: &BTreeMap<Id, u64>,
    place: &Id,
    id: Id,
    lines: &mut Vec<Line>,
) -> Result<(), AllocError>
    ensures { OnOk result (lines.new.items ≡ lines.old.items
        ++ commit_lines base.now (λ other. get (slice_cmp nat_cmp) numbers.now other) place.now (node_at graph.now id)) }
{
    let Some(node) = graph.node(id) else {
        return Ok(())
    };
    push_on(alloc, base, numbers, place, node, lines)
}

fn push_label(
    alloc: Global,
    wanted: bool,
    number: u64,
    lines: &mut Vec<Line>,
) -> Result<(), AllocError>
    ensures { OnOk result (lines.new.items ≡ lines.old.items ++ label_lines wanted number) }
{
    if !wanted {
        return Ok(());
    }
    lines.push(Line::Label {
        name: label_name(alloc, number)?,
    })?;
    Ok(())
}

/// Notes the label of a commit.
fn note_number(
    wanted: bool,
    number: u64,
    id: Id,
    numbers: &mut BTreeMap<Id, u64>,
) -> Result<(), AllocError>
    ensures { OnOk result ((other : List ℕ) → get (slice_cmp nat_cmp) numbers.new other
        ≡ numbered wanted number id (λ other. get (slice_cmp nat_cmp) numbers.old other) other) }
{
    if !wanted {
        return Ok(());
    }
    numbers.insert(id, number)?;
    Ok(())
}

fn range_lines(
    alloc: Global,
    graph: &Graph,
    range: &[Id],
    base: Id,
    wanted: &BTreeSet<Id>,
    ids: &[Id],
    onto: Line,
) -> Result<Vec<Line>, AllocError>
    requires { (id : List ℕ) → contains (slice_cmp nat_cmp) wanted.now id ≡ is_among ids.now id }
    ensures { IfOk result (λ lines. lines.items ≡ onto ∷ range_lines graph.now base ids.now (λ other. None) 0 base range.now) }
{
    let mut lines = vec![in alloc; onto]?;
    let mut numbers = BTreeMap::new(alloc);
    let mut count = 0;
    let mut place = base;
    for id in range {
        push_commit(alloc, graph, &base, &numbers, &place, *id, &mut lines)?;
        let is_wanted = wanted.contains(id);
        push_label(alloc, is_wanted, count + 1, &mut lines)?;
        note_number(is_wanted, count + 1, *id, &mut numbers)?;
        count = counted(is_wanted, count);
        place = *id;
    }
    Ok(lines)
}

fn counted(wanted: bool, count: u64) -> u64
    requires { count < 2 ^ 63 }
    ensures { result ≡ counted wanted count }
{
    if wanted { count + 1 } else { count }
}
