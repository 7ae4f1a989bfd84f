//! Ids that a struct holds.

ghost use Rattle.std.specs.Prelude.{◌≡◌};

use seq_base::Id;
use std::marker::Model;

/// Ids, which contracts see as a list.
#[derive(Debug, Drop)]
pub struct Ids {
    held: Vec<Id>,
}

impl Model for Ids {
    ghost use Rattle.std.specs.Prelude.{List, ℕ};

    ghost Value = { List (List ℕ) };

    ghost view = { λ i. i.held.items };
}

impl Ids {
    pub fn from_vec(ids: Vec<Id>) -> Ids
        ensures { result ≡ ids.items }
    {
        Ids { held: ids }
    }

    pub fn as_slice(&self) -> &[Id]
        ensures { result.now ≡ self.now }
    {
        &self.held
    }

    pub fn into_vec(self) -> Vec<Id>
        ensures { result.items ≡ self }
    {
        self.held
    }
}
