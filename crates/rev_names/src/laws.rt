//! What the definitions of `specs/` come to in plain words. Each law is the contract of a function that does nothing.

ghost use Rattle.std.specs.Prelude.{◌≡◌, ◌≤◌, List, Ok, Option, Some, length, ℕ};
ghost use Rattle.object_text.specs.Store.{commit_at};
ghost use Rattle.object_text.specs.declared.commit.Commit.{Commit as CommitFields};
ghost use Rattle.rev_names.specs.Bases.{first_ref};
ghost use Rattle.rev_names.specs.Commits.{found_within};
ghost use Rattle.rev_names.specs.Laws.{IsFirstOf, IsFound, NamesCommit};
ghost use Rattle.rev_names.specs.Revs.{label_at, rev_at};
ghost use Rattle.rev_names.specs.declared.commit.FoundCommit.{FoundCommit};
ghost use Rattle.rev_names.specs.declared.refs.FoundRef.{FoundRef};
ghost use Rattle.seq_base.specs.World.{World};

use seq_base::Bytes;

/// What a word names is a commit that can be read.
#[tactic(auto, using(crate::proofs::Reading::names_read))]
pub fn word_names_commit(word: &[u8])
    ghost w: { World }
    ensures rev { (id : List ℕ) → rev_at w word.now ≡ Ok id → NamesCommit w id }
    ensures label { (id : List ℕ) → label_at w word.now ≡ Ok id → NamesCommit w id }
{}

/// The ref that is found of some names is the first that has a value, by its file and the packed refs.
#[tactic(auto, using(crate::proofs::First::first_laws))]
pub fn first_ref_has_value(names: &[Bytes])
    ghost w: { World }
    ensures first { (found : Option FoundRef) → first_ref w names.now ≡ Ok found → IsFirstOf w names.now found }
{}

/// What an object leads to is the commit that the objects of the store have behind its tags, at most sixteen.
#[tactic(auto, using(crate::proofs::Behind::behind_laws))]
pub fn tags_lead_to_commit(id: &[u8])
    ghost w: { World }
    ensures found { (found : FoundCommit) → found_within 16 w id.now ≡ Ok found → commit_at w id.now ≡ Some found.commit }
    ensures some { (commit : CommitFields) → commit_at w id.now ≡ Some commit → length commit.parents ≤ 16 → IsFound w id.now commit }
{}
