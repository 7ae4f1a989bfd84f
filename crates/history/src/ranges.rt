//! The commits that some tips reach and others do not.

ghost use Rattle.std.specs.Prelude.{◌≡◌, ◌+◌, [], ◌∷◌, IfOk, IsTrue, None, OnOk, OnSome, count_by, length, not, reverse};
ghost use Rattle.merge_base.specs.Graphs.{ParentsFirst, first_missing, has, parents_of, place_from};
ghost use Rattle.merge_base.specs.Marks.{mark};
ghost use Rattle.merge_base.specs.Ranges.{range};
ghost use Rattle.history.specs.Laws.{IsRange};
ghost use Rattle.history.specs.Walks.{HasMet, Walks, first_unmarked, is_noted, noted};

use merge_base::Graph;
use seq_base::Id;
use std::alloc::{AllocError, Global};

/// The commits that the tips reach and the excluded commits do not, as a walk meets them: the tips in their order, and each commit behind its
/// parents, which are met in their order; each once (git-rev-list(1), "Commit Limiting").
pub fn range(
    alloc: Global,
    graph: &Graph,
    excluded: &[Id],
    tips: &[Id],
) -> Result<Vec<Id>, AllocError>
    requires excluded { first_missing graph.now excluded.now ≡ None }
    requires tips { first_missing graph.now tips.now ≡ None }
    ensures walk { IfOk result (λ ids. ids.items ≡ range graph.now excluded.now tips.now) }
    // Exactly the commits that the tips reach and the excluded ones do not, each once and behind its parents.
    ensures range { IfOk result (λ ids. IsRange graph.now excluded.now tips.now ids.items) }
{
    let mut marks = vec![in alloc; false; graph.len()]?;
    walk(alloc, graph, excluded, &mut marks)?;
    walk(alloc, graph, tips, &mut marks)
}

/// The commits that a walk from the tips meets, without those that are marked. It marks them.
fn walk(
    alloc: Global,
    graph: &Graph,
    tips: &[Id],
    marks: &mut Vec<bool>,
) -> Result<Vec<Id>, AllocError>
    requires graph { ParentsFirst graph.now }
    requires length { length marks.old.items ≡ length graph.now }
    requires tips { first_missing graph.now tips.now ≡ None }
    ensures met { IfOk result (λ ids. HasMet graph.now [] tips.now marks.old.items ids.items marks.new.items) }
    ensures length { OnOk result (length marks.new.items ≡ length graph.now) }
{
    let mut ids = Vec::new(alloc);
    let mut rest = tips;
    while let [tip, after @ ..] = rest {
        visit(alloc, graph, *tip, marks, &mut ids)?;
        rest = after;
    }
    Ok(ids)
}

/// Adds what a walk from a tip meets, without what is marked, and marks it.
fn visit(
    alloc: Global,
    graph: &Graph,
    tip: Id,
    marks: &mut Vec<bool>,
    ids: &mut Vec<Id>,
) -> Result<(), AllocError>
    requires graph { ParentsFirst graph.now }
    requires length { length marks.old.items ≡ length graph.now }
    requires tip { IsTrue (has graph.now tip) }
    ensures met { OnOk result (HasMet graph.now ids.old.items (tip ∷ []) marks.old.items ids.new.items marks.new.items) }
    ensures length { OnOk result (length marks.new.items ≡ length graph.now) }
{
    match enter(graph, &[tip], marks) {
        Some(first) => climb(alloc, graph, vec![in alloc; first]?, marks, ids),
        None => Ok(()),
    }
}

/// Adds the commits that wait for their parents, the last one first, each behind those of its parents that are not marked.
fn climb(
    alloc: Global,
    graph: &Graph,
    mut waiting: Vec<Id>,
    marks: &mut Vec<bool>,
    ids: &mut Vec<Id>,
) -> Result<(), AllocError>
    requires { length marks.old.items ≡ length graph.now }
    ensures walks { OnOk result (Walks graph.now ids.old.items (reverse waiting.items) marks.old.items ids.new.items [] marks.new.items) }
    ensures length { OnOk result (length marks.new.items ≡ length graph.now) }
{
    'waiting: while let Some(id) = waiting.pop() {
        match enter(graph, parents_of(graph, id), marks) {
            Some(parent) => {
                waiting.push(id)?;
                waiting.push(parent)?;
            }
            None => ids.push(id)?,
        }
    }
    Ok(())
}

fn parents_of(graph: &Graph, id: Id) -> &[Id]
    ensures parents { result.now ≡ parents_of graph.now id }
    ensures graph { ParentsFirst graph.now }
{
    match graph.node(id) {
        Some(node) => node.parents.as_slice(),
        None => &[],
    }
}

fn is_noted(graph: &Graph, marks: &[bool], id: &Id) -> bool
    requires { length marks.now ≡ length graph.now }
    ensures { result ≡ is_noted graph.now marks.now id.now }
{
    match graph.place_of(id) {
        Some(place) => marks[place],
        None => true,
    }
}

fn first_unmarked(graph: &Graph, marks: &[bool], ids: &[Id]) -> Option<Id>
    requires { length marks.now ≡ length graph.now }
    ensures { result ≡ first_unmarked graph.now marks.now ids.now }
{
    for id in ids {
        if !is_noted(graph, marks, id) {
            return Some(*id);
        }
    }
    None
}

fn note(graph: &Graph, id: &Id, marks: &mut Vec<bool>)
    requires { length marks.old.items ≡ length graph.now }
    ensures { marks.new.items ≡ mark marks.old.items (place_from 0 graph.now id.now) }
{
    if let Some(place) = graph.place_of(id) {
        marks[place] = true;
    }
}

/// Marks the first of some commits that is not marked.
fn enter(graph: &Graph, ids: &[Id], marks: &mut Vec<bool>) -> Option<Id>
    requires { length marks.old.items ≡ length graph.now }
    ensures found { result ≡ first_unmarked graph.now marks.old.items ids.now }
    ensures marks { marks.new.items ≡ noted graph.now marks.old.items result }
    ensures length { length marks.new.items ≡ length graph.now }
    ensures fewer { OnSome result (count_by not marks.new.items + 1 ≡ count_by not marks.old.items) }
{
    let found = first_unmarked(graph, marks, ids)?;
    note(graph, &found, marks);
    Some(found)
}
