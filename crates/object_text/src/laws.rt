//! What the definitions of `specs/` come to in the words of the formats. Each law is the contract of a function that does nothing.

ghost use Rattle.std.specs.Prelude.{◌≡◌, Contains, List, Ok, Some, ℕ};
ghost use Rattle.ident_text.specs.Idents.{IsIdent};
ghost use Rattle.ident_text.specs.ReadIdents.{ReadsAsIdent};
ghost use Rattle.seq_base.specs.World.{World};
ghost use Rattle.object_text.specs.Chains.{LeadsTo};
ghost use Rattle.object_text.specs.Commits.{IsCommitValue, with_author};
ghost use Rattle.object_text.specs.Kept.{KeepsObject, KeepsTag, KeepsTree, LeadsToCommit, ObjectsStay};
ghost use Rattle.object_text.specs.Store.{commit_at, object_at, tag_at, tree_at};
ghost use Rattle.object_text.specs.TreeMaps.{map_at};

use crate::commit::Commit;
use crate::object::Object;
use crate::tree::TreeEntry;
use ident_text::Ident;
use seq_base::{Entry, Path};

/// An id has an object exactly where its file has the text of one that is not too large, and the text's SHA-1 is the id.
#[tactic(auto, using(crate::proofs::KeptLaws::object_kept, crate::proofs::KeptLaws::kept_object))]
pub fn object_is_kept(id: &[u8], object: &Object)
    ghost w: { World }
    ensures kept { object_at w id.now ≡ Some object.now → KeepsObject w id.now object.now }
    ensures found { KeepsObject w id.now object.now → object_at w id.now ≡ Some object.now }
{}

/// An id has a tree exactly where its object is one, and its content the text of these entries.
#[tactic(auto, using(crate::proofs::KeptLaws::tree_kept, crate::proofs::KeptLaws::kept_tree))]
pub fn tree_is_kept(id: &[u8], entries: &[TreeEntry])
    ghost w: { World }
    ensures kept { tree_at w id.now ≡ Some entries.now → KeepsTree w id.now entries.now }
    ensures found { KeepsTree w id.now entries.now → tree_at w id.now ≡ Some entries.now }
{}

/// An id has a tag exactly where its object is one, and the first lines of its content name the other.
#[tactic(auto, using(crate::proofs::KeptLaws::tag_kept, crate::proofs::KeptLaws::kept_tag))]
pub fn tag_is_kept(id: &[u8], named: &[u8])
    ghost w: { World }
    ensures kept { tag_at w id.now ≡ Some named.now → KeepsTag w id.now named.now }
    ensures found { KeepsTag w id.now named.now → tag_at w id.now ≡ Some named.now }
{}

/// An id has a commit exactly where its object is one, or a tag that leads to one through no more than sixteen.
#[tactic(auto, using(crate::proofs::KeptLaws::commit_found, crate::proofs::KeptLaws::commit_led))]
pub fn commit_is_kept(id: &[u8], commit: &Commit)
    ghost w: { World }
    ensures kept { commit_at w id.now ≡ Some commit.now → LeadsToCommit 16 w id.now commit.now }
    ensures found { LeadsToCommit 16 w id.now commit.now → commit_at w id.now ≡ Some commit.now }
{}

/// The map of a tree has an entry at a path exactly where a chain of trees leads to it along the path's parts.
#[tactic(auto, using(crate::proofs::ChainLaws::row_led_to, crate::proofs::ChainLaws::led_to_row))]
pub fn map_is_led_to(id: &[u8], rows: &[(Path, Entry)], path: &[u8], entry: &Entry)
    ghost w: { World }
    requires { map_at w id.now ≡ Ok rows.now }
    ensures led { Contains rows.now (path.now, entry.now) → LeadsTo w id.now path.now entry.now }
    ensures found { LeadsTo w id.now path.now entry.now → Contains rows.now (path.now, entry.now) }
{}

/// Where the files of objects stay, each object stays, and each map of a tree.
#[tactic(auto, using(crate::proofs::KeptLaws::object_stays, crate::proofs::ChainLaws::map_stays))]
pub fn what_is_kept_stays(id: &[u8], object: &Object, rows: &[(Path, Entry)])
    ensures object { (old new : World) → ObjectsStay old new → object_at old id.now ≡ Some object.now → object_at new id.now ≡ Some object.now }
    ensures map { (old new : World) → ObjectsStay old new → map_at old id.now ≡ Ok rows.now → map_at new id.now ≡ Ok rows.now }
{}

/// The author and the committer of a commit each read as one ident, whose text they are; and the text of an ident may be an author's.
#[tactic(auto, using(crate::proofs::CommitValues::author_laws))]
pub fn author_reads_as_ident(commit: &Commit, ident: &Ident, text: &[u8])
    requires { IsCommitValue commit.now }
    ensures author { ReadsAsIdent commit.now.author }
    ensures committer { ReadsAsIdent commit.now.committer }
    ensures back { IsIdent ident.now text.now → IsCommitValue (with_author text.now commit.now) }
{}
