//! The todo of a rebase that makes history linear.

ghost use Rattle.std.specs.Prelude.{◌≡◌, ◌++◌, IfOk, OnOk, None};
ghost use Rattle.merge_base.specs.Graphs.{HasPlainSubjects, first_missing, node_at};
ghost use Rattle.todo_plan.specs.Linear.{linear_revs, linear_todo, pick_unless_merge, picks};
ghost use Rattle.todo_plan.specs.Told.{AreSpelled, revs_of};

use crate::lines::pick_of;
use merge_base::Graph;
use seq_base::Id;
use std::alloc::{AllocError, Global};
use todo_text::Line;

/// The todo of a range of commits without `--rebase-merges`: a pick line for each commit that is no merge, in the order of the range, and
/// `noop` for an empty range (git-rebase(1), "INTERACTIVE MODE").
#[tactic(auto, using(crate::proofs::Spelled::noop_spelled))]
pub fn plan_linear(alloc: Global, graph: &Graph, range: &[Id]) -> Result<Vec<Line>, AllocError>
    requires { first_missing graph.now range.now ≡ None }
    ensures todo { IfOk result (λ lines. lines.items ≡ linear_todo graph.now range.now) }
    // Each commit of the range that is no merge stands in one line, and these lines in the order of the range.
    ensures commits { IfOk result (λ lines. revs_of lines.items ≡ linear_revs graph.now range.now) }
    ensures spelled { HasPlainSubjects graph.now → IfOk result (λ lines. AreSpelled lines.items) }
{
    if range.is_empty() {
        return Ok(vec![in alloc; Line::Noop]?);
    }
    picks(alloc, graph, range)
}

#[tactic(auto, using(crate::proofs::Spelled::none_spelled))]
fn picks(alloc: Global, graph: &Graph, range: &[Id]) -> Result<Vec<Line>, AllocError>
    ensures picks { IfOk result (λ lines. lines.items ≡ picks graph.now range.now) }
    ensures spelled { HasPlainSubjects graph.now → IfOk result (λ lines. AreSpelled lines.items) }
{
    let mut lines = Vec::new(alloc);
    for id in range {
        push_pick(alloc, graph, *id, &mut lines)?;
    }
    Ok(lines)
}

/// Adds the line of a commit that is no merge.
fn push_pick(alloc: Global, graph: &Graph, id: Id, lines: &mut Vec<Line>) -> Result<(), AllocError>
    ensures line { OnOk result (lines.new.items ≡ lines.old.items ++ pick_unless_merge (node_at graph.now id)) }
    ensures spelled { HasPlainSubjects graph.now → AreSpelled lines.old.items → OnOk result (AreSpelled lines.new.items) }
{
    let Some(node) = graph.node(id) else {
        return Ok(())
    };
    if node.parents.as_slice().len() > 1 {
        return Ok(());
    }
    lines.push(pick_of(alloc, node)?)?;
    Ok(())
}
