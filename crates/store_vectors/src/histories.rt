//! Cases of the crate `history`.

use crate::faults::lack_halt;
use cases::{Answer, Case, CaseFault};
use history::load;
use merge_base::{Graph, Node};
use seq_base::Id;
use seq_memory::QuietStore;
use std::alloc::AllocError;

fn put_node(out: &mut Answer, place: usize, node: &Node) -> Result<(), AllocError> {
    out.number(place as u64)?;
    out.counted(b"parents", node.parents.as_slice().len() as u64)?;
    for parent in node.parents.as_slice() {
        out.id(*parent)?;
    }
    out.word(b"tree")?;
    out.id(node.tree)?;
    out.named(b"subject", node.subject.as_slice())
}

fn put_commit_of(out: &mut Answer, graph: &Graph, id: Id) -> Result<(), AllocError> {
    match (graph.place_of(&id), graph.node(id)) {
        (Some(place), Some(node)) => put_node(out, place, node),
        _ => out.word(b"none"),
    }
}

/// The number of tips, the tips, and ids: how many commits the tips reach, and of each of the ids its place in the graph, its parents, its
/// tree and its subject, where it is there.
pub fn loaded(case: &mut Case<'_>, store: &mut QuietStore) -> Result<(), CaseFault> {
    let count = case.fields.number()?;
    let mut tips = Vec::new(case.alloc);
    for _ in 0..count {
        tips.push(case.fields.id()?)?;
    }
    match load(case.alloc, store, &tips) {
        Ok(graph) => put_graph(case, &graph),
        Err(halt) => lack_halt(&mut case.out, &halt),
    }
}

fn put_graph(case: &mut Case<'_>, graph: &Graph) -> Result<(), CaseFault> {
    case.out.counted(b"commits", graph.len() as u64)?;
    for _ in 0..case.fields.len() {
        let id = case.fields.id()?;
        put_commit_of(&mut case.out, graph, id)?;
    }
    Ok(())
}
