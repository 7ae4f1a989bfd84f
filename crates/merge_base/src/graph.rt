//! Commits and their parents.

use crate::ids::Ids;
use seq_base::{Bytes, Id};
use std::alloc::Global;
use std::collections::BTreeMap;
use std::marker::Model;
use thiserror::Error;

/// A commit, as far as a walk over history needs it.
#[derive(Debug, Drop)]
pub struct Node {
    pub id: Id,
    pub parents: Ids,
    pub tree: Id,
    pub subject: Bytes,
}

/// Why a commit was not added. The graph is then as before. The faults are looked for in this order.
#[derive(Debug, Drop, PartialEq, Eq, Error)]
pub enum GraphFault {
    #[error("the commit is in the graph")]
    Double,
    /// The first parent that is not in the graph.
    #[error("a parent is not in the graph")]
    NoParent { id: Id },
    #[error("a graph has at most 1048576 commits")]
    Full,
    #[error("out of memory")]
    Memory,
}

const LIMIT: usize = 1_048_576;

/// Commits with different ids, each behind its parents. Contracts see the list of them, as they were added.
#[derive(Drop)]
pub struct Graph {
    nodes: Vec<Node>,
    places: BTreeMap<Id, usize>,
}

impl Model for Graph {
    ghost use Rattle.std.specs.Prelude.{List};
    ghost use Rattle.merge_base.specs.declared.graph.Node.{Node as NodeValue};

    ghost Value = { List NodeValue };

    ghost use Rattle.merge_base.specs.Shape.{IsGraph};

    ghost view = { λ g. g.nodes.items };

    ghost invariant = { λ g. IsGraph g.nodes.items g.places };
}

impl Graph {
    ghost use Rattle.std.specs.Prelude.{◌≡◌, ◌<◌, ◌∷◌, ◌++◌, [], IfSome, OnOk, OnErr, is_some, length};
    ghost use Rattle.std.specs.Option.{option_copied};
    ghost use Rattle.merge_base.specs.Graphs.{ParentsFirst, first_missing, has, node_at, place_from};
    ghost use Rattle.merge_base.specs.Adding.{AddEnds};
    ghost use Rattle.merge_base.specs.Marks.{id_at, parents_at};

    pub fn new(alloc: Global) -> Graph
        ensures { result ≡ [] }
    {
        Graph {
            nodes: Vec::new(alloc),
            places: BTreeMap::new(alloc),
        }
    }

    /// Adds a commit behind its parents.
    pub fn add(&mut self, node: Node) -> Result<(), GraphFault>
        ensures ok { OnOk result (self.new ≡ self.old ++ node ∷ []) }
        ensures err { OnErr result (self.new ≡ self.old) }
        ensures ends { AddEnds self.old node result }
    {
        if self.has(&node.id) {
            return Err(GraphFault::Double);
        }
        if let Some(id) = self.missing(node.parents.as_slice()) {
            return Err(GraphFault::NoParent { id });
        }
        let place = self.nodes.len();
        if place >= LIMIT {
            return Err(GraphFault::Full);
        }
        let id = node.id;
        if self.nodes.push(node).is_err() {
            return Err(GraphFault::Memory);
        }
        if self.places.insert(id, place).is_err() {
            self.nodes.pop();
            return Err(GraphFault::Memory);
        }
        Ok(())
    }

    /// The commit with this id, and None exactly where there is none.
    pub fn node(&self, id: Id) -> Option<&Node>
        ensures found { option_copied result ≡ node_at self.now id }
        // Redundant, and what a search asks for.
        ensures has { is_some result ≡ has self.now id }
        ensures graph { ParentsFirst self.now }
    {
        let nodes = self.nodes();
        match self.place_of(&id) {
            Some(place) => Some(&nodes[place]),
            None => None,
        }
    }

    /// How many commits it has.
    pub fn len(&self) -> usize
        ensures count { result ≡ length self.now }
        ensures graph { ParentsFirst self.now }
    {
        self.nodes.len()
    }

    pub(crate) fn nodes(&self) -> &[Node]
        ensures same { result.now ≡ self.now }
        ensures graph { ParentsFirst self.now }
    {
        &self.nodes
    }

    /// The place of the commit with this id, counted from 0 in the order in which they were added, and None exactly where there is none.
    pub fn place_of(&self, id: &Id) -> Option<usize>
        ensures place { result ≡ place_from 0 self.now id.now }
        ensures within { IfSome result (λ place. place < length self.now) }
    {
        self.places.get(id).copied()
    }

    pub(crate) fn id_at(&self, place: usize) -> Id
        requires { place < length self.now }
        ensures { result ≡ id_at self.now place }
    {
        self.nodes[place].id
    }

    pub(crate) fn parents_at(&self, place: usize) -> &[Id]
        requires { place < length self.now }
        ensures { result.now ≡ parents_at self.now place }
    {
        self.nodes[place].parents.as_slice()
    }

    #[tactic(auto, using(crate::proofs::Places::place_has))]
    fn has(&self, id: &Id) -> bool
        ensures { result ≡ has self.now id.now }
    {
        self.place_of(id).is_some()
    }

    /// The first of some ids that no commit has.
    pub fn missing(&self, ids: &[Id]) -> Option<Id>
        ensures { result ≡ first_missing self.now ids.now }
    {
        for id in ids {
            if !self.has(id) {
                return Some(*id);
            }
        }
        None
    }
}
