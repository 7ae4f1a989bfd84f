//! Cases of `merge_base`, and of `history` where it reads no store.

use cases::{Answer, Case, CaseFault};
use history::range;
use merge_base::{Graph, GraphFault, Ids, Node, ancestors, bases, is_ancestor};
use seq_base::{Bytes, Id};
use std::alloc::{AllocError, Global};

fn node(id: Id, parents: Vec<Id>, subject: Bytes) -> Node {
    Node {
        id,
        parents: Ids::from_vec(parents),
        tree: Id::from_bytes([0; 20]),
        subject,
    }
}

fn bare_node(alloc: Global, id: Id, parents: Vec<Id>) -> Node {
    node(id, parents, Bytes::from_vec(Vec::new(alloc)))
}

/// An id, the number of its parents, and the parents, and the subject where there is one.
fn read_node(case: &mut Case<'_>, has_subject: bool) -> Result<Node, CaseFault> {
    let id = case.fields.id()?;
    let count = case.fields.number()?;
    let mut parents = Vec::new(case.alloc);
    for _ in 0..count {
        parents.push(case.fields.id()?)?;
    }
    if has_subject {
        return Ok(node(id, parents, case.fields.owned()?));
    }
    Ok(bare_node(case.alloc, id, parents))
}

fn put_fault(out: &mut Answer, fault: GraphFault) -> Result<(), AllocError> {
    match fault {
        GraphFault::Double => out.word(b"double"),
        GraphFault::NoParent { id } => {
            out.word(b"no-parent")?;
            out.id(id)
        }
        GraphFault::Full => out.word(b"full"),
        GraphFault::Memory => Err(AllocError),
    }
}

fn add(graph: &mut Graph, node: Node, out: &mut Answer) -> Result<(), AllocError> {
    match graph.add(node) {
        Ok(()) => Ok(()),
        Err(fault) => put_fault(out, fault),
    }
}

/// The number of commits, and the commits, each an id, the number of its parents, and the parents. What is not added is told.
fn graph_of(case: &mut Case<'_>) -> Result<Graph, CaseFault> {
    read_graph(case, false)
}

/// The same with a subject behind the parents of each commit.
pub fn graph_with_subjects(case: &mut Case<'_>) -> Result<Graph, CaseFault> {
    read_graph(case, true)
}

fn read_graph(case: &mut Case<'_>, has_subjects: bool) -> Result<Graph, CaseFault> {
    let count = case.fields.number()?;
    let mut graph = Graph::new(case.alloc);
    for _ in 0..count {
        let node = read_node(case, has_subjects)?;
        add(&mut graph, node, &mut case.out)?;
    }
    Ok(graph)
}

fn put_bases(case: &mut Case<'_>, graph: &Graph, first: Id, second: Id) -> Result<(), CaseFault> {
    if graph.node(first).is_none() || graph.node(second).is_none() {
        return Err(CaseFault::Value);
    }
    case.out.word(b"bases")?;
    for id in bases(case.alloc, graph, first, second)?.iter() {
        case.out.id(*id)?;
    }
    case.out
        .yes_or_no(is_ancestor(case.alloc, graph, first, second)?)?;
    case.out
        .yes_or_no(is_ancestor(case.alloc, graph, second, first)?)?;
    Ok(())
}

/// A graph and two of its commits: the merge bases, whether the first is an ancestor of the second, and whether the second is one of
/// the first.
pub fn merge_bases(case: &mut Case<'_>) -> Result<(), CaseFault> {
    let graph = graph_of(case)?;
    let first = case.fields.id()?;
    let second = case.fields.id()?;
    put_bases(case, &graph, first, second)
}

fn ids(case: &mut Case<'_>, count: usize) -> Result<Vec<Id>, CaseFault> {
    let mut ids = Vec::new(case.alloc);
    for _ in 0..count {
        ids.push(case.fields.id()?)?;
    }
    Ok(ids)
}

/// A graph, the number of excluded commits, these, and the tips: the commits that the tips reach and the excluded ones do not, in order.
pub fn range_of(case: &mut Case<'_>) -> Result<(), CaseFault> {
    let graph = graph_of(case)?;
    let number = case.fields.number()?;
    let Ok(count) = usize::try_from(number) else {
        return Err(CaseFault::Value);
    };
    let excluded = ids(case, count)?;
    let left = case.fields.len();
    let tips = ids(case, left)?;
    if graph.missing(&excluded).is_some() || graph.missing(&tips).is_some() {
        return Err(CaseFault::Value);
    }
    case.out.word(b"range")?;
    for id in range(case.alloc, &graph, &excluded, &tips)?.iter() {
        case.out.id(*id)?;
    }
    Ok(())
}

/// A graph, the number of tips, the tips, and ids: whether each of these is a tip or an ancestor of one.
pub fn reached(case: &mut Case<'_>) -> Result<(), CaseFault> {
    let graph = graph_of(case)?;
    let count = case.fields.number()?;
    let mut tips = Vec::new(case.alloc);
    for _ in 0..count {
        tips.push(case.fields.id()?)?;
    }
    let marks = ancestors(case.alloc, &graph, &tips)?;
    for _ in 0..case.fields.len() {
        let id = case.fields.id()?;
        let reached = match graph.place_of(&id) {
            Some(place) => marks.get(place).copied() == Some(true),
            None => false,
        };
        case.out.yes_or_no(reached)?;
    }
    Ok(())
}

/// The id that begins with this number, its high byte first.
fn id_numbered(number: u32) -> Id {
    let mut bytes = [0; 20];
    let [a, b, c, d] = number.to_be_bytes();
    bytes[0] = a;
    bytes[1] = b;
    bytes[2] = c;
    bytes[3] = d;
    Id::from_bytes(bytes)
}

/// COUNT: of a chain of so many commits, numbered from 1, the merge bases of the first and the last, and which is an ancestor of
/// which; then the first is added again. A large count shows a search that goes over the graph once for each commit.
pub fn chain(case: &mut Case<'_>) -> Result<(), CaseFault> {
    let alloc = case.alloc;
    let Ok(count) = u32::try_from(case.fields.number()?) else {
        return Err(CaseFault::Value)
    };
    let mut graph = Graph::new(alloc);
    let first = id_numbered(1);
    let mut last = first;
    add(
        &mut graph,
        bare_node(alloc, first, Vec::new(alloc)),
        &mut case.out,
    )?;
    for number in 1..count {
        let id = id_numbered(number + 1);
        add(
            &mut graph,
            bare_node(alloc, id, vec![in alloc; last]?),
            &mut case.out,
        )?;
        last = id;
    }
    put_bases(case, &graph, first, last)?;
    add(
        &mut graph,
        bare_node(alloc, first, Vec::new(alloc)),
        &mut case.out,
    )?;
    Ok(())
}
