//! Lists that a control holds.

ghost use Rattle.std.specs.Prelude.{◌≡◌};

use crate::control::RefUpdate;
use message_text::ChainKind;
use seq_base::{Bytes, Id};
use std::marker::Model;
use todo_text::Line;

/// Lines of a todo. Contracts see their list.
#[derive(Debug, Drop)]
pub struct Lines {
    held: Vec<Line>,
}

impl Model for Lines {
    ghost use Rattle.std.specs.Prelude.{List};
    ghost use Rattle.todo_text.specs.declared.line.Line.{Line};

    ghost Value = { List (Line) };

    ghost view = { λ x. x.held.items };
}

impl Lines {
    pub fn from_vec(held: Vec<Line>) -> Lines
        ensures { result ≡ held.items }
    {
        Lines { held }
    }

    pub fn as_slice(&self) -> &[Line]
        ensures { result.now ≡ self.now }
    {
        &self.held
    }

    pub fn into_vec(self) -> Vec<Line>
        ensures { result.items ≡ self }
    {
        self.held
    }
}

/// Names of labels. Contracts see their list.
#[derive(Debug, Drop)]
pub struct Labels {
    held: Vec<Bytes>,
}

impl Model for Labels {
    ghost use Rattle.std.specs.Prelude.{List, ℕ};

    ghost Value = { List (List ℕ) };

    ghost view = { λ x. x.held.items };
}

impl Labels {
    pub fn from_vec(held: Vec<Bytes>) -> Labels
        ensures { result ≡ held.items }
    {
        Labels { held }
    }

    pub fn as_slice(&self) -> &[Bytes]
        ensures { result.now ≡ self.now }
    {
        &self.held
    }

    pub fn into_vec(self) -> Vec<Bytes>
        ensures { result.items ≡ self }
    {
        self.held
    }
}

/// Refs that are to be updated. Contracts see their list.
#[derive(Debug, Drop)]
pub struct RefUpdates {
    held: Vec<RefUpdate>,
}

impl Model for RefUpdates {
    ghost use Rattle.std.specs.Prelude.{List};
    ghost use Rattle.state_text.specs.declared.control.RefUpdate.{RefUpdate};

    ghost Value = { List (RefUpdate) };

    ghost view = { λ x. x.held.items };
}

impl RefUpdates {
    pub fn from_vec(held: Vec<RefUpdate>) -> RefUpdates
        ensures { result ≡ held.items }
    {
        RefUpdates { held }
    }

    pub fn as_slice(&self) -> &[RefUpdate]
        ensures { result.now ≡ self.now }
    {
        &self.held
    }

    pub fn into_vec(self) -> Vec<RefUpdate>
        ensures { result.items ≡ self }
    {
        self.held
    }
}

/// Commits, each with the one that took its place. Contracts see their list.
#[derive(Debug, Drop)]
pub struct IdPairs {
    held: Vec<(Id, Id)>,
}

impl Model for IdPairs {
    ghost use Rattle.std.specs.Prelude.{List, ℕ};

    ghost Value = { List ((List ℕ) × (List ℕ)) };

    ghost view = { λ x. x.held.items };
}

impl IdPairs {
    pub fn from_vec(held: Vec<(Id, Id)>) -> IdPairs
        ensures { result ≡ held.items }
    {
        IdPairs { held }
    }

    pub fn as_slice(&self) -> &[(Id, Id)]
        ensures { result.now ≡ self.now }
    {
        &self.held
    }

    pub fn into_vec(self) -> Vec<(Id, Id)>
        ensures { result.items ≡ self }
    {
        self.held
    }
}

/// Commits. Contracts see their list.
#[derive(Debug, Drop)]
pub struct Ids {
    held: Vec<Id>,
}

impl Model for Ids {
    ghost use Rattle.std.specs.Prelude.{List, ℕ};

    ghost Value = { List (List ℕ) };

    ghost view = { λ x. x.held.items };
}

impl Ids {
    pub fn from_vec(held: Vec<Id>) -> Ids
        ensures { result ≡ held.items }
    {
        Ids { held }
    }

    pub fn as_slice(&self) -> &[Id]
        ensures { result.now ≡ self.now }
    {
        &self.held
    }

    pub fn into_vec(self) -> Vec<Id>
        ensures { result.items ≡ self }
    {
        self.held
    }
}

/// Commits of a squash chain, each with what is done with its message. Contracts see their list.
#[derive(Debug, Drop)]
pub struct Chain {
    held: Vec<(ChainKind, Id)>,
}

impl Model for Chain {
    ghost use Rattle.std.specs.Prelude.{List, ℕ};
    ghost use Rattle.message_text.specs.declared.chain.ChainKind.{ChainKind};

    ghost Value = { List (ChainKind × (List ℕ)) };

    ghost view = { λ x. x.held.items };
}

impl Chain {
    pub fn from_vec(held: Vec<(ChainKind, Id)>) -> Chain
        ensures { result ≡ held.items }
    {
        Chain { held }
    }

    pub fn as_slice(&self) -> &[(ChainKind, Id)]
        ensures { result.now ≡ self.now }
    {
        &self.held
    }

    pub fn into_vec(self) -> Vec<(ChainKind, Id)>
        ensures { result.items ≡ self }
    {
        self.held
    }
}
