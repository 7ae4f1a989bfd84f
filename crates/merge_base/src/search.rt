//! Searches from commits to their ancestors.

ghost use Rattle.std.specs.Prelude.{◌≡◌, ◌↔◌, IfOk, IsTrue, false, length, replicate};
ghost use Rattle.std.specs.Cmp.Lexicographic.{slice_cmp};
ghost use Rattle.std.specs.List.Sorted.{IsPermutation, IsSorted};
ghost use Rattle.std.specs.Ordering.{nat_cmp};
ghost use Rattle.merge_base.specs.Graphs.{ParentsFirst, has};
ghost use Rattle.merge_base.specs.Bases.{Ancestors, AreBases};
ghost use Rattle.merge_base.specs.Marks.{MarkAncestors, MarkReached, left_of_both, mark_each, mark_older, parents_of_both};

use crate::graph::Graph;
use seq_base::Id;
use std::alloc::{AllocError, Global};

/// A mark for each commit, in the order in which they were added: whether it is one of these commits or an ancestor of one
/// (git-rev-list(1), "reachable"). An id that no commit has reaches none.
pub fn ancestors(alloc: Global, graph: &Graph, ids: &[Id]) -> Result<Vec<bool>, AllocError>
    ensures { IfOk result (λ marks. MarkReached graph.now ids.now marks.items) }
{
    let mut marks = marked(alloc, graph, ids)?;
    mark_ancestors(graph, &mut marks);
    Ok(marks)
}

/// Whether a commit is another or one of its ancestors (git-merge-base(1), "--is-ancestor").
pub fn is_ancestor(alloc: Global, graph: &Graph, a: Id, b: Id) -> Result<bool, AllocError>
    requires a { IsTrue (has graph.now a) }
    requires b { IsTrue (has graph.now b) }
    ensures { IfOk result (λ is. IsTrue is ↔ Ancestors graph.now b a) }
{
    let marks = ancestors_of(alloc, graph, b)?;
    match graph.place_of(&a) {
        Some(place) => Ok(marks[place]),
        None => unreachable!(),
    }
}

/// The merge bases of two commits, in byte order (git-merge-base(1), "--all").
pub fn bases(alloc: Global, graph: &Graph, a: Id, b: Id) -> Result<Vec<Id>, AllocError>
    requires a { IsTrue (has graph.now a) }
    requires b { IsTrue (has graph.now b) }
    ensures { IfOk result (λ ids. AreBases graph.now a b ids.items) }
{
    let of_a = ancestors_of(alloc, graph, a)?;
    let of_b = ancestors_of(alloc, graph, b)?;
    let above = parents_of_common(alloc, graph, &of_a, &of_b)?;
    in_order(best(alloc, graph, &of_a, &of_b, &above)?)
}

fn in_order(mut ids: Vec<Id>) -> Result<Vec<Id>, AllocError>
    ensures moved { IfOk result (λ sorted. IsPermutation ids.items sorted.items) }
    ensures order { IfOk result (λ sorted. IsSorted (slice_cmp nat_cmp) sorted.items) }
{
    ids.sort()?;
    Ok(ids)
}

/// A mark for each commit that is this one or an ancestor of it.
fn ancestors_of(alloc: Global, graph: &Graph, id: Id) -> Result<Vec<bool>, AllocError>
    requires { IsTrue (has graph.now id) }
    ensures { IfOk result (λ marks. MarkAncestors graph.now id marks.items) }
{
    ancestors(alloc, graph, &[id])
}

/// A mark for each commit, set for these alone.
fn marked(alloc: Global, graph: &Graph, ids: &[Id]) -> Result<Vec<bool>, AllocError>
    ensures marks { IfOk result (λ marks. marks.items ≡ mark_each graph.now ids.now (replicate (length graph.now) false)) }
    ensures length { IfOk result (λ marks. length marks.items ≡ length graph.now) }
{
    let mut marks = vec![in alloc; false; graph.nodes().len()]?;
    mark_each(graph, ids, &mut marks);
    Ok(marks)
}

/// Marks the parents of each marked commit, from the newest to the oldest.
fn mark_ancestors(graph: &Graph, marks: &mut [bool])
    requires { length marks.old ≡ length graph.now }
    ensures marks { marks.new ≡ mark_older graph.now (length graph.now) marks.old }
    ensures graph { ParentsFirst graph.now }
{
    let mut place = graph.nodes().len();
    while place > 0 {
        place -= 1;
        if marks[place] {
            mark_each(graph, graph.parents_at(place), marks);
        }
    }
}

/// A mark for each commit that is a parent of a common ancestor.
fn parents_of_common(
    alloc: Global,
    graph: &Graph,
    of_a: &[bool],
    of_b: &[bool],
) -> Result<Vec<bool>, AllocError>
    requires a { length of_a.now ≡ length graph.now }
    requires b { length of_b.now ≡ length graph.now }
    ensures marks { IfOk result (λ marks. marks.items ≡ parents_of_both graph.now of_a.now of_b.now (length graph.now)) }
    ensures length { IfOk result (λ marks. length marks.items ≡ length graph.now) }
    ensures graph { ParentsFirst graph.now }
{
    let count = graph.nodes().len();
    let mut marks = vec![in alloc; false; count]?;
    for place in 0..count {
        if of_a[place] && of_b[place] {
            mark_each(graph, graph.parents_at(place), &mut marks);
        }
    }
    Ok(marks)
}

/// The ids of the common ancestors that are no parents of one.
fn best(
    alloc: Global,
    graph: &Graph,
    of_a: &[bool],
    of_b: &[bool],
    above: &[bool],
) -> Result<Vec<Id>, AllocError>
    requires a { length of_a.now ≡ length graph.now }
    requires b { length of_b.now ≡ length graph.now }
    requires above { length above.now ≡ length graph.now }
    ensures { IfOk result (λ ids. ids.items ≡ left_of_both graph.now of_a.now of_b.now above.now (length graph.now)) }
{
    let mut ids = Vec::new(alloc);
    for place in 0..graph.nodes().len() {
        if of_a[place] && of_b[place] && !above[place] {
            ids.push(graph.id_at(place))?;
        }
    }
    Ok(ids)
}

/// Marks the commits with these ids.
fn mark_each(graph: &Graph, ids: &[Id], marks: &mut [bool])
    requires { length marks.old ≡ length graph.now }
    ensures { marks.new ≡ mark_each graph.now ids.now marks.old }
{
    for id in ids {
        if let Some(found) = graph.place_of(id) {
            marks[found] = true;
        }
    }
}
