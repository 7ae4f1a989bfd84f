//! What the definitions of trees and maps come to in plain words. Each law is the contract of a function that does nothing.

ghost use Rattle.std.specs.List.{AllByRecursion};
ghost use Rattle.std.specs.Prelude.{◌≡◌, ◌⊎◌, ◌≤◌, Ok, false, length};
ghost use Rattle.object_text.specs.Store.{content_limit};
ghost use Rattle.object_text.specs.TreeMaps.{is_too_deep, map_at, put_trees, root_of, trees_of};
ghost use Rattle.object_text.specs.Trees.{tree_text};
ghost use Rattle.path_trees.specs.Collisions.{HaveOneId};
ghost use Rattle.seq_base.specs.PathMaps.{IsPathMap};
ghost use Rattle.seq_base.specs.Paths.{IsPath};
ghost use Rattle.seq_base.specs.World.{World};
ghost use Rattle.seq_base.specs.Ids.{HasIdWidth};

use seq_base::{Entry, Path};

/// Where the trees of a map were put, the map of its root is the map.
#[tactic(auto, using(crate::proofs::ReadBack::written_back))]
pub fn written_map_reads_back(rows: &[(Path, Entry)])
    ghost w: { World }
    requires map { IsPathMap rows.now }
    requires paths { AllByRecursion (λ e. IsPath e.0) rows.now }
    requires ids { AllByRecursion (λ e. HasIdWidth e.1.id) rows.now }
    requires depth { is_too_deep rows.now ≡ false }
    ensures { (now : World) → put_trees w (trees_of rows.now) ≡ Ok now → map_at now (root_of rows.now) ≡ Ok rows.now }
{}

/// Maps with one root are one map, or two trees of theirs have one id and different texts.
#[tactic(auto, using(crate::proofs::OneRoot::one_root))]
pub fn one_root_is_one_map(rows: &[(Path, Entry)], others: &[(Path, Entry)])
    requires map { IsPathMap rows.now }
    requires other_map { IsPathMap others.now }
    requires paths { AllByRecursion (λ e. IsPath e.0) rows.now }
    requires other_paths { AllByRecursion (λ e. IsPath e.0) others.now }
    requires ids { AllByRecursion (λ e. HasIdWidth e.1.id) rows.now }
    requires other_ids { AllByRecursion (λ e. HasIdWidth e.1.id) others.now }
    requires limit { AllByRecursion (λ tree. length (tree_text tree) ≤ content_limit) (trees_of rows.now) }
    requires other_limit { AllByRecursion (λ tree. length (tree_text tree) ≤ content_limit) (trees_of others.now) }
    ensures { root_of rows.now ≡ root_of others.now → (rows.now ≡ others.now) ⊎ HaveOneId (trees_of rows.now) (trees_of others.now) }
{}
