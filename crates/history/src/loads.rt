//! The history of commits, read from a store.

ghost use Rattle.std.specs.Prelude.{◌≡◌, ◌≤◌, ◌<◌, ◌+◌, ◌++◌, ◌∷◌, [], IfOk, IsErrOf, None, OnOk, length, reverse, vec_len};
ghost use Rattle.merge_base.specs.Graphs.{HasPlainSubjects, IsPlain, first_missing, limit};
ghost use Rattle.seq_outside.specs.Halts.{Gives, halt_cause};
ghost use Rattle.seq_outside.specs.Seen.{Reads};
ghost use Rattle.history.specs.Laws.{IsHistory};
ghost use Rattle.history.specs.Loads.{entered, joined, loaded, node_of, walked};
ghost use Rattle.history.specs.Waiting.{waited};

use merge_base::{Graph, GraphFault, Ids, Node};
use message_text::subject;
use object_text::Commit;
use objects::read_commit;
use seq_base::{Bytes, Id};
use seq_outside::{Halt, Lack, LimitWhat, Store};
use std::alloc::{AllocError, Global};

/// The most commits that a graph may have.
const LIMIT: usize = 1_048_576;

/// What a graph keeps of a commit.
fn node_of(alloc: Global, id: Id, commit: Commit) -> Result<Node, AllocError>
    ensures node { IfOk result (λ node. node ≡ node_of id commit) }
    ensures subject { IfOk result (λ node. IsPlain node.subject) }
{
    let line = subject(alloc, commit.message.as_slice())?;
    Ok(Node {
        id,
        parents: Ids::from_vec(commit.parents.into_vec()),
        tree: commit.tree,
        subject: Bytes::from_vec(line),
    })
}

/// Reads a commit, where the graph has room for it.
#[tactic(auto, unfolding(crate::specs::Loads::entered))]
fn enter<S: Store>(
    alloc: Global,
    store: &mut S,
    room: usize,
    graph: &Graph,
    id: Id,
) -> Result<Node, Halt<Lack>>
    ensures gives { S.told → Gives (λ node. node) result (entered (S.seen store.old).content room graph.now id) }
    ensures id { IfOk result (λ node. node.id ≡ id) }
    ensures room { IfOk result (λ _. length graph.now < room) }
    ensures subject { IfOk result (λ node. IsPlain node.subject) }
    ensures reads { Reads S.told halt_cause result (S.seen store.old) (S.seen store.new) }
{
    let commit = read_commit(alloc, store, id)?;
    if room <= graph.len() {
        return Err(Halt::Stops(Lack::Limit {
            what: LimitWhat::Commits,
            number: 1_048_577,
        }));
    }
    Ok(node_of(alloc, id, commit)?)
}

/// Adds a commit behind its parents.
#[tactic(auto, unfolding(crate::specs::Loads::joined))]
fn join(graph: &mut Graph, node: Node) -> Result<(), Halt<Lack>>
    requires parents { first_missing graph.old node.parents ≡ None }
    requires room { length graph.old < limit }
    ensures gives { Gives (λ _. graph.new) result (joined graph.old node) }
    ensures grown { OnOk result (graph.new ≡ graph.old ++ node ∷ []) }
    ensures no_fault { IsErrOf result Halt.Fault → ⊥ }
{
    let id = node.id;
    match graph.add(node) {
        Ok(()) => Ok(()),
        Err(GraphFault::Double) => Err(Halt::Stops(Lack::Object { id })),
        Err(GraphFault::NoParent { .. }) => unreachable!(),
        Err(GraphFault::Full) => unreachable!(),
        Err(GraphFault::Memory) => Err(Halt::Memory),
    }
}

/// How many commits a graph may have beside those that wait and one more.
fn room_beside(waiting: &[Node]) -> usize
    requires { length waiting.now < limit }
    ensures { result + length waiting.now + 1 ≡ limit }
{
    LIMIT - 1 - waiting.len()
}

/// Adds the commits that wait for their parents, the last one first, each behind those of its parents that are missing.
fn climb<S: Store>(
    alloc: Global,
    store: &mut S,
    graph: &mut Graph,
    mut waiting: Vec<Node>,
) -> Result<(), Halt<Lack>>
    requires { length graph.old + vec_len waiting ≤ limit }
    ensures gives { S.told → Gives (λ _. graph.new) result (waited (S.seen store.old).content graph.old (reverse waiting.items)) }
    ensures subjects { HasPlainSubjects graph.old → HasPlainSubjects waiting.items → OnOk result (HasPlainSubjects graph.new) }
    ensures reads { Reads S.told halt_cause result (S.seen store.old) (S.seen store.new) }
{
    'waiting: while let Some(node) = waiting.pop() {
        match graph.missing(node.parents.as_slice()) {
            Some(id) => {
                let room = room_beside(&waiting);
                let parent = enter(alloc, store, room, graph, id)?;
                waiting.push(node)?;
                waiting.push(parent)?;
            }
            None => join(graph, node)?,
        }
    }
    Ok(())
}

/// Adds a commit and its history, where it is not there.
fn walk<S: Store>(alloc: Global, store: &mut S, graph: &mut Graph, id: Id) -> Result<(), Halt<Lack>>
    ensures gives { S.told → Gives (λ _. graph.new) result (walked (S.seen store.old).content limit graph.old id) }
    ensures subjects { HasPlainSubjects graph.old → OnOk result (HasPlainSubjects graph.new) }
    ensures reads { Reads S.told halt_cause result (S.seen store.old) (S.seen store.new) }
{
    if graph.node(id).is_some() {
        return Ok(());
    }
    let node = enter(alloc, store, LIMIT, graph, id)?;
    climb(alloc, store, graph, vec![in alloc; node]?)
}

/// The graph of some commits and of all that they come from, each with its parents, its tree and its subject. Of the commits that a walk
/// meets, a commit before its parents, the tips and the parents in their order, the first that is missing, damaged or of another kind is Object;
/// one that is too large, has more than 16 parents, or is one more than 1,048,576 is Limit.
pub fn load<S: Store>(alloc: Global, store: &mut S, tips: &[Id]) -> Result<Graph, Halt<Lack>>
    ensures gives { S.told → Gives (λ graph. graph) result (loaded (S.seen store.old).content tips.now) }
    // Exactly the tips and what they come from, each commit as the store has it.
    ensures history { S.told → IfOk result (λ graph. IsHistory (S.seen store.old).content tips.now graph) }
    // So that a line with its subject is spelled by a text.
    ensures subjects { IfOk result (λ graph. HasPlainSubjects graph) }
    ensures reads { Reads S.told halt_cause result (S.seen store.old) (S.seen store.new) }
{
    let mut graph = Graph::new(alloc);
    let mut rest = tips;
    while let [tip, after @ ..] = rest {
        walk(alloc, store, &mut graph, *tip)?;
        rest = after;
    }
    Ok(graph)
}
