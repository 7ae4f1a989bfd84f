//! The commit that a pick makes.

ghost use Rattle.std.specs.List.{list_all};
ghost use Rattle.std.specs.Prelude.{◌≡◌, IfOk, true};
ghost use Rattle.ident_text.specs.Idents.{IsIdent, is_ident_byte};
ghost use Rattle.object_text.specs.Commits.{IsCommitValue};
ghost use Rattle.objects.specs.Puts.{object_put};
ghost use Rattle.ref_store.specs.Moves.{head_moved};
ghost use Rattle.ref_text.specs.Heads.{IsHeadValue};
ghost use Rattle.ref_text.specs.Logs.{IsLogValue};
ghost use Rattle.seq_model.specs.Changes.{Changes};
ghost use Rattle.seq_model.specs.Making.{commit_object, commit_on, committed, pick_line, value_of as value_of_id, with_commit};
ghost use Rattle.seq_model.specs.Picked.{finished};
ghost use Rattle.seq_model.specs.Refusing.{denied_git};
ghost use Rattle.seq_outside.specs.Env.{IsZone};
ghost use Rattle.seq_outside.specs.Halts.{halt_cause};
ghost use Rattle.seq_outside.specs.Seen.{Writes};
ghost use Rattle.seq_outside.specs.Turns.{Turns, saying};
ghost use Rattle.seq_pick.specs.Preparing.{IsReady, IsSomeIdent, prepared_is};

use ident_text::{Ident, ident_text};
use message_text::subject;
use object_text::{Commit, Ids, Kind, commit_text};
use objects::write_object;
use ref_store::move_head;
use ref_text::{Head, LogLine};
use seq_base::{Bytes, Id};
use seq_model::{Committer, Denial};
use seq_outside::{Halt, Store};
use start_checks::git_halt;
use std::alloc::{AllocError, Global};

/// A pick whose commit is still to be made.
#[derive(Drop)]
pub struct Prepared {
    /// What HEAD is.
    pub on: Head,
    /// The commit that it is at.
    pub head: Id,
    /// Who commits.
    pub committer: Committer,
    /// The commit that is picked.
    pub commit: Commit,
    /// The tree of the new commit.
    pub tree: Id,
}

/// Who commits and when.
#[tactic(auto, using(crate::proofs::Idents::zone_fits))]
fn ident_of(
    alloc: Global,
    committer: &Committer,
    zone: [u8; 5],
    secs: i64,
) -> Result<Vec<u8>, AllocError>
    requires name { list_all is_ident_byte committer.now.name ≡ true }
    requires email { list_all is_ident_byte committer.now.email ≡ true }
    requires zone { IsZone zone }
    ensures { IfOk result (λ text. IsIdent (record { name = committer.now.name; email = committer.now.email; secs = secs; zone = zone }) text.items) }
{
    let ident = Ident {
        name: committer.name.clone()?,
        email: committer.email.clone()?,
        secs,
        zone,
    };
    let text = ident_text(alloc, &ident)?;
    Ok(text)
}

fn copy_of(text: &Option<Bytes>) -> Result<Option<Bytes>, AllocError>
    ensures { IfOk result (λ copy. copy ≡ text.now) }
{
    match text {
        Some(text) => Ok(Some(text.clone()?)),
        None => Ok(None),
    }
}

/// The commit on HEAD, with the author, the encoding and the message of the one that is picked.
fn new_commit(
    alloc: Global,
    tree: Id,
    head: Id,
    picked: &Commit,
    ident: &[u8],
) -> Result<Commit, AllocError>
    ensures { IfOk result (λ commit. commit ≡ commit_on tree head picked.now ident.now) }
{
    Ok(Commit {
        tree,
        parents: Ids::from_vec(vec![in alloc; head]?),
        author: picked.author.clone()?,
        committer: Bytes::from_vec(ident.to_vec(alloc)?),
        encoding: copy_of(&picked.encoding)?,
        message: picked.message.clone()?,
    })
}

/// No value where the id is of zeros alone.
fn value_of(id: Id) -> Option<Id>
    ensures { result ≡ value_of_id id }
{
    if id.bytes() == [0u8; 20].as_slice() {
        None
    } else {
        Some(id)
    }
}

/// The line that a pick leaves in the logs.
fn line_of(
    alloc: Global,
    head: Id,
    id: Id,
    ident: &[u8],
    message: &[u8],
) -> Result<LogLine, AllocError>
    ensures { IfOk result (λ line. line ≡ pick_line head id ident.now message.now) }
{
    let mut text = b"cherry-pick: ".to_vec(alloc)?;
    let subject = subject(alloc, message)?;
    text.extend_from_slice(&subject)?;
    Ok(LogLine {
        old: value_of(head),
        new: id,
        ident: Bytes::from_vec(ident.to_vec(alloc)?),
        message: Bytes::from_vec(text),
    })
}

/// Puts a commit, and answers its id.
#[tactic(auto, using(seq_model::proofs::Owning::objects_owned))]
fn put_commit<S: Store>(alloc: Global, commit: &Commit, store: &mut S) -> Result<Id, Halt<Denial>>
    requires { IsCommitValue commit.now }
    ensures turns { S.told → Turns (λ id. id) result
        (saying denied_git (object_put (commit_object commit.now)) (S.seen store.old).content)
        (S.seen store.new).content }
    ensures owns { S.told → Changes (S.seen store.old).content (S.seen store.new).content }
    ensures writes { Writes S.told halt_cause result (S.seen store.old) (S.seen store.new) }
{
    let text = commit_text(alloc, commit)?;
    match write_object(alloc, store, Kind::Commit, &text) {
        Ok(id) => Ok(id),
        Err(halt) => Err(git_halt(halt)),
    }
}

/// Moves HEAD to a commit, with this line in its logs.
fn put_head<S: Store>(
    alloc: Global,
    on: &Head,
    id: Id,
    line: &LogLine,
    store: &mut S,
) -> Result<(), Halt<Denial>>
    requires on { IsHeadValue on.now }
    requires line { IsLogValue line.now }
    ensures turns { S.told → Turns (λ x. x) result
        (saying denied_git (head_moved on.now id line.now) (S.seen store.old).content)
        (S.seen store.new).content }
    ensures owns { S.told → Changes (S.seen store.old).content (S.seen store.new).content }
    ensures writes { Writes S.told halt_cause result (S.seen store.old) (S.seen store.new) }
{
    match move_head(alloc, store, on, id, line) {
        Ok(()) => Ok(()),
        Err(halt) => Err(git_halt(halt)),
    }
}

/// Moves HEAD from one commit to another, with the line of a pick in its logs.
fn move_to<S: Store>(
    alloc: Global,
    on: &Head,
    head: Id,
    id: Id,
    ident: &[u8],
    commit: &Commit,
    store: &mut S,
) -> Result<(), Halt<Denial>>
    requires on { IsHeadValue on.now }
    requires who { IsSomeIdent ident.now }
    ensures turns { S.told → Turns (λ x. x) result
        (saying denied_git (head_moved on.now id (pick_line head id ident.now commit.now.message)) (S.seen store.old).content)
        (S.seen store.new).content }
    ensures owns { S.told → Changes (S.seen store.old).content (S.seen store.new).content }
    ensures writes { Writes S.told halt_cause result (S.seen store.old) (S.seen store.new) }
{
    let line = line_of(alloc, head, id, ident, commit.message.as_slice())?;
    put_head(alloc, on, id, &line, store)
}

/// Puts a commit, and moves HEAD to it; answers its id.
#[tactic(auto, unfolding(seq_model::specs::Making::with_commit), using(seq_model::proofs::Owning::owned_both))]
fn commit_with<S: Store>(
    alloc: Global,
    on: &Head,
    head: Id,
    commit: &Commit,
    ident: &[u8],
    store: &mut S,
) -> Result<Id, Halt<Denial>>
    requires on { IsHeadValue on.now }
    requires value { IsCommitValue commit.now }
    requires who { IsSomeIdent ident.now }
    ensures turns { S.told → Turns (λ id. id) result
        (with_commit on.now head commit.now ident.now (S.seen store.old).content)
        (S.seen store.new).content }
    ensures owns { S.told → Changes (S.seen store.old).content (S.seen store.new).content }
    ensures writes { Writes S.told halt_cause result (S.seen store.old) (S.seen store.new) }
{
    let id = put_commit(alloc, commit, store)?;
    move_to(alloc, on, head, id, ident, commit, store)?;
    Ok(id)
}

/// The commit of a pick at a moment.
#[tactic(auto, unfolding(seq_model::specs::Making::committed, seq_model::specs::Picked::finished))]
pub fn commit_pick<S: Store>(
    alloc: Global,
    pick: &Prepared,
    zone: [u8; 5],
    secs: i64,
    store: &mut S,
) -> Result<Id, Halt<Denial>>
    requires ready { IsReady pick.now }
    requires zone { IsZone zone }
    ensures turns { S.told → Turns (λ id. id) result
        (finished (prepared_is pick.now) zone secs (S.seen store.old).content)
        (S.seen store.new).content }
    ensures owns { S.told → Changes (S.seen store.old).content (S.seen store.new).content }
    ensures writes { Writes S.told halt_cause result (S.seen store.old) (S.seen store.new) }
{
    let ident = ident_of(alloc, &pick.committer, zone, secs)?;
    let commit = new_commit(alloc, pick.tree, pick.head, &pick.commit, &ident)?;
    commit_with(alloc, &pick.on, pick.head, &commit, &ident, store)
}
