//! A commit is made.

ghost use Rattle.std.specs.Prelude.{◌≡◌, ◌||◌, IfOk};
ghost use Rattle.child_steps.specs.Causes.{HasStepCause};
ghost use Rattle.commit_maker.specs.Causes.{stop_failed};
ghost use Rattle.child_steps.specs.Children.{spot_of};
ghost use Rattle.commit_maker.specs.Commits.{CanBeMade, IsAuthor, IsMade, author_of, commit_does, commit_of, commit_put, committed};
ghost use Rattle.commit_maker.specs.Commits.{made_of as made_of_commit};
ghost use Rattle.commit_maker.specs.Committers.{CanCommit, committer_at};
ghost use Rattle.commit_maker.specs.declared.stop.MakeStop.TheVariants.{Lacks};
ghost use Rattle.ident_text.specs.Idents.{IsIdent, IsIdentValue, ident_text as text_of_ident};
ghost use Rattle.object_text.specs.Commits.{IsCommitValue, commit_text as commit_text_of};
ghost use Rattle.object_text.specs.declared.object.Kind.TheVariants as kind;
ghost use Rattle.objects.specs.Puts.{object_of, object_put};
ghost use Rattle.seq_outside.specs.Doing.{makes, saying, ticks};
ghost use Rattle.seq_outside.specs.Follows.{Follows};
ghost use Rattle.seq_outside.specs.Halts.{halt_cause};
ghost use Rattle.seq_outside.specs.Seen.{Writes};
ghost use Rattle.seq_outside.specs.Turns.{Turns};

use crate::committers::committer;
use crate::making::{Made, Making};
use crate::messages::message;
use crate::showing::message_editor;
use crate::stop::MakeStop;
use config_text::Config;
use ident_text::{Ident, ident_text};
use message_text::subject;
use object_text::{Commit, Ids, Kind, commit_text};
use objects::write_object;
use seq_base::{Bytes, Id};
use seq_outside::{Clock, Env, Halt, Lack, Spawner, Store};
use std::alloc::{AllocError, Global};

/// The moment is taken.
#[tactic(auto, using(seq_outside::proofs::Seeing::sees_moment))]
fn tick<S: Store, P: Spawner<S>, C: Clock>(
    ran: &mut bool,
    store: &mut S,
    spawner: &mut P,
    clock: &mut C,
) -> Result<i64, Halt<MakeStop>>
    ensures follows { S.told → Follows P.ran C.ticked spawner.old clock.old spawner.new clock.new (λ secs. secs)
        ticks (spot_of (S.seen store.old) ran.old) result (spot_of (S.seen store.new) ran.new) }
    ensures cause { HasStepCause S.told stop_failed result (S.seen store.old) (S.seen store.new) (P.seen spawner.old) (P.seen spawner.new) }
{
    Ok(clock.now())
}

/// The text of an ident.
fn text_of(alloc: Global, who: &Ident) -> Result<Bytes, AllocError>
    requires { IsIdentValue who.now }
    ensures text { IfOk result (λ text. text ≡ text_of_ident who.now) }
    ensures ident { IfOk result (λ text. IsIdent who.now text) }
{
    let text = ident_text(alloc, who)?;
    Ok(Bytes::from_vec(text))
}

/// The text of the author, who is the committer where there is none.
fn author_text(alloc: Global, author: &Option<Ident>, who: &Ident) -> Result<Bytes, AllocError>
    requires author { IsAuthor author.now }
    requires who { IsIdentValue who.now }
    ensures text { IfOk result (λ text. text ≡ text_of_ident (author_of author.now who.now)) }
    ensures ident { IfOk result (λ text. IsIdent (author_of author.now who.now) text) }
{
    match author {
        Some(author) => text_of(alloc, author),
        None => text_of(alloc, who),
    }
}

fn copy_of_any(text: &Option<Bytes>) -> Result<Option<Bytes>, AllocError>
    ensures { IfOk result (λ copy. copy ≡ text.now) }
{
    match text {
        Some(text) => Ok(Some(text.clone()?)),
        None => Ok(None),
    }
}

fn copy_of_ids(alloc: Global, ids: &Ids) -> Result<Ids, AllocError>
    ensures { IfOk result (λ copy. copy ≡ ids.now) }
{
    Ok(Ids::from_vec(Vec::from_slice(alloc, ids.as_slice())?))
}

/// The commit, with its message.
#[tactic(auto, using(crate::proofs::Committing::commit_value))]
fn new_commit(
    alloc: Global,
    making: &Making,
    who: &Ident,
    message: Bytes,
) -> Result<Commit, AllocError>
    requires making { CanBeMade making.now }
    requires who { IsIdentValue who.now }
    ensures commit { IfOk result (λ commit. commit ≡ commit_of making.now who.now message) }
    ensures value { IfOk result IsCommitValue }
{
    let author = author_text(alloc, &making.author, who)?;
    let committer = text_of(alloc, who)?;
    Ok(Commit {
        tree: making.tree,
        parents: copy_of_ids(alloc, &making.parents)?,
        author,
        committer,
        encoding: copy_of_any(&making.encoding)?,
        message,
    })
}

fn summary_of(alloc: Global, id: Id, commit: &Commit) -> Result<Made, AllocError>
    ensures { IfOk result (λ made. made ≡ made_of_commit id commit.now) }
{
    let subject = subject(alloc, commit.message.as_slice())?;
    Ok(Made {
        id,
        ident: commit.committer.clone()?,
        subject: Bytes::from_vec(subject),
    })
}

/// What is told of a commit that was made.
fn made_of(alloc: Global, id: Id, commit: &Commit) -> Result<Made, AllocError>
    requires { IsCommitValue commit.now }
    ensures made { IfOk result (λ made. made ≡ made_of_commit id commit.now) }
    ensures told { IfOk result IsMade }
{
    let made = summary_of(alloc, id, commit)?;
    Ok(made)
}

/// Puts a commit.
fn write_commit<S: Store>(alloc: Global, commit: &Commit, store: &mut S) -> Result<Id, Halt<Lack>>
    requires { IsCommitValue commit.now }
    ensures turns { S.told → Turns (λ id. id) result
        (object_put (object_of kind.Commit (commit_text_of commit.now)) (S.seen store.old).content)
        (S.seen store.new).content }
    ensures writes { Writes S.told halt_cause result (S.seen store.old) (S.seen store.new) }
{
    let text = commit_text(alloc, commit)?;
    write_object(alloc, store, Kind::Commit, &text)
}

/// Puts a commit, as a step.
fn put_commit<S: Store, P: Spawner<S>, C: Clock>(
    alloc: Global,
    commit: &Commit,
    ran: &mut bool,
    store: &mut S,
    spawner: &mut P,
    clock: &mut C,
) -> Result<Id, Halt<MakeStop>>
    requires { IsCommitValue commit.now }
    ensures follows { S.told → Follows P.ran C.ticked spawner.old clock.old spawner.new clock.new (λ id. id)
        (saying Lacks (makes (object_put (object_of kind.Commit (commit_text_of commit.now)))))
        (spot_of (S.seen store.old) ran.old) result (spot_of (S.seen store.new) ran.new) }
    ensures cause { HasStepCause S.told stop_failed result (S.seen store.old) (S.seen store.new) (P.seen spawner.old) (P.seen spawner.new) }
{
    match write_commit(alloc, commit, store) {
        Ok(id) => Ok(id),
        Err(Halt::Stops(lack)) => Err(Halt::Stops(MakeStop::Lacks(lack))),
        Err(Halt::Fault) => Err(Halt::Fault),
        Err(Halt::Memory) => Err(Halt::Memory),
    }
}

/// Puts a commit, and tells of it.
#[tactic(auto, unfolding(crate::specs::Commits::commit_put))]
fn put_made<S: Store, P: Spawner<S>, C: Clock>(
    alloc: Global,
    commit: &Commit,
    ran: &mut bool,
    store: &mut S,
    spawner: &mut P,
    clock: &mut C,
) -> Result<Made, Halt<MakeStop>>
    requires { IsCommitValue commit.now }
    ensures follows { S.told → Follows P.ran C.ticked spawner.old clock.old spawner.new clock.new (λ made. made)
        (commit_put commit.now) (spot_of (S.seen store.old) ran.old) result (spot_of (S.seen store.new) ran.new) }
    ensures made { IfOk result IsMade }
    ensures cause { HasStepCause S.told stop_failed result (S.seen store.old) (S.seen store.new) (P.seen spawner.old) (P.seen spawner.new) }
{
    let id = put_commit(alloc, commit, ran, store, spawner, clock)?;
    Ok(made_of(alloc, id, commit)?)
}

/// The commit by whom commits at a moment.
fn commit_at(
    alloc: Global,
    making: &Making,
    config: &Config,
    env: &Env,
    secs: i64,
    message: Bytes,
) -> Result<Commit, AllocError>
    requires making { CanBeMade making.now }
    requires who { CanCommit config.now env.now }
    ensures commit { IfOk result (λ commit. commit ≡ commit_of making.now (committer_at config.now env.now secs) message) }
    ensures value { IfOk result IsCommitValue }
{
    let who = committer(alloc, config, env, secs)?;
    new_commit(alloc, making, &who, message)
}

/// Makes the commit, where nothing has run before.
#[tactic(auto, unfolding(crate::specs::Commits::commit_does))]
fn commit<S: Store, P: Spawner<S>, C: Clock>(
    alloc: Global,
    making: &Making,
    config: &Config,
    env: &Env,
    ran: &mut bool,
    store: &mut S,
    spawner: &mut P,
    clock: &mut C,
) -> Result<Made, Halt<MakeStop>>
    requires making { CanBeMade making.now }
    requires who { CanCommit config.now env.now }
    ensures follows { S.told → Follows P.ran C.ticked spawner.old clock.old spawner.new clock.new (λ made. made)
        (commit_does config.now env.now making.now) (spot_of (S.seen store.old) ran.old) result (spot_of (S.seen store.new) ran.new) }
    ensures made { IfOk result IsMade }
    ensures cause { HasStepCause S.told stop_failed result (S.seen store.old) (S.seen store.new) (P.seen spawner.old) (P.seen spawner.new) }
{
    let editor = message_editor(alloc, config, env, making.edit)?;
    let message = message(alloc, &editor, making, ran, store, spawner, clock)?;
    let secs = tick(ran, store, spawner, clock)?;
    let commit = commit_at(alloc, making, config, env, secs, message)?;
    let made = put_made(alloc, &commit, ran, store, spawner, clock)?;
    Ok(made)
}

/// Whether a hook or an editor has ended, before or now.
fn has_run(before: bool, now: bool) -> bool
    ensures { result ≡ (before || now) }
{
    before || now
}

/// Makes a commit as `git commit` does (git-commit(1), githooks(5)), and changes no ref. The message is put into `.git/COMMIT_EDITMSG`; where it
/// is edited the hook `pre-commit` runs; then `prepare-commit-msg`; then, where it is edited, the editor of messages and `commit-msg`. A hook that is
/// not there is passed over, and so is an editor that is not set. What then stands in the file is the message, cleaned where the editor ran or
/// where it is the text of a squash chain. The moment is taken, and the commit is put. The committer is that of the environment, else of the
/// configuration; `post-commit` is the caller's, once a ref is moved.
///
/// It stops with `HookRefused` and `EditorFailed` where a hook or the editor does not end with 0; with `EmptyMessage` where one of them ran and left
/// no byte but blanks and line feeds; with `Lacks` where a file is in the way of the message's or the commit's, the commit passes its limit, or
/// another text stands in its file. `unseen` is set where a hook or the editor has ended: index and files are to be looked at again.
pub fn make<S: Store, P: Spawner<S>, C: Clock>(
    alloc: Global,
    making: &Making,
    config: &Config,
    env: &Env,
    unseen: &mut bool,
    store: &mut S,
    spawner: &mut P,
    clock: &mut C,
) -> Result<Made, Halt<MakeStop>>
    requires making { CanBeMade making.now }
    requires who { CanCommit config.now env.now }
    ensures follows { S.told → Follows P.ran C.ticked spawner.old clock.old spawner.new clock.new (λ made. made)
        (committed config.now env.now making.now) (spot_of (S.seen store.old) unseen.old) result (spot_of (S.seen store.new) unseen.new) }
    ensures made { IfOk result IsMade }
    ensures cause { HasStepCause S.told stop_failed result (S.seen store.old) (S.seen store.new) (P.seen spawner.old) (P.seen spawner.new) }
{
    let mut ran = false;
    let made = commit(alloc, making, config, env, &mut ran, store, spawner, clock);
    *unseen = has_run(*unseen, ran);
    made
}
