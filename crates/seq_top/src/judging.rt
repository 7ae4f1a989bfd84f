//! What the words ask for, done in a draft that is made where nothing is refused.

ghost use Rattle.std.specs.Prelude.{◌≡◌, [], true};
ghost use Rattle.seq_model.specs.Changes.{Changes as ChangesOwn, KeepsRepository};
ghost use Rattle.seq_model.specs.Commands.{command_of};
ghost use Rattle.seq_model.specs.Judged.{Does, Ends, FitsReply, HasEndCause, HasJudgedCause, IsJudged, IsPlain, IsUnmade};
ghost use Rattle.seq_model.specs.Picked.{finished, picked};
ghost use Rattle.seq_model.specs.Unbuilt.{not_built};
ghost use Rattle.seq_model.specs.declared.reply.Reply.{Reply as ReplyValue};
ghost use Rattle.seq_outside.specs.Env.{IsZone};
ghost use Rattle.seq_outside.specs.Halts.{Denies, halt_cause};
ghost use Rattle.seq_outside.specs.Seen.{HasReadCause};
ghost use Rattle.seq_outside.specs.Turns.{looks};
ghost use Rattle.seq_outside.specs.Writes.{written};
ghost use Rattle.seq_pick.specs.Preparing.{IsReady, prepared_is};
ghost use Rattle.seq_plumb.specs.Plumbed.{prints_own as prints_own_of};
ghost use Rattle.seq_top.specs.Answers.{IsTold, Judges, tells as tells_of};
ghost use Rattle.seq_top.specs.Built.{commits, meant, picked_alone as picked_alone_by, picked_or_not, replied, tells_itself as tells_itself_of};

use crate::built::picked_alone;
use seq_base::Bytes;
use seq_model::{
    Command, Denial, Outcome, PlumbWords, Refusal, Reply, StartWords, outcome_of, refused,
};
use seq_outside::{Changes, Clock, DraftStore, Env, Halt, Store};
use seq_pick::{Prepared, finish, prepare};
use seq_plumb::plumb;
use seq_words::{BadWords, read_words};
use start_checks::want_repository;
use std::alloc::Global;

/// What an invocation comes to before it is printed: its outcome, what it prints itself, and whether it does so in the place of `done`.
#[derive(Drop)]
pub struct Judged {
    pub outcome: Outcome,
    pub own: Bytes,
    pub tells: bool,
}

/// The commit of a pick that was prepared in a draft, which is then made.
fn finish_in<S: Store>(
    alloc: Global,
    pick: &Prepared,
    zone: [u8; 5],
    secs: i64,
    draft: &mut DraftStore<'_, S>,
) -> Result<Reply, Halt<Denial>>
    requires ready { IsReady pick.now }
    requires zone { IsZone zone }
    ensures ends { S.told → Ends result (S.seen draft.old.store.now).content
        (replied (finished (prepared_is pick.now) zone secs) (written (S.seen draft.old.store.now).content draft.old.changes.now))
        (S.seen draft.new.store.now).content }
    ensures owns { S.told → ChangesOwn (S.seen draft.old.store.now).content (written (S.seen draft.old.store.now).content draft.old.changes.now)
        → ChangesOwn (S.seen draft.old.store.now).content (S.seen draft.new.store.now).content }
    ensures cause { HasEndCause S.told result (S.seen draft.old.store.now) (S.seen draft.new.store.now) }
    ensures same_reference { draft.new.store.ghost_name ≡ draft.old.store.ghost_name }
{
    let id = finish(alloc, pick, zone, secs, draft)?;
    draft.make(alloc)?;
    Ok(Reply {
        head: Some(id),
        own: Bytes::from_vec(Vec::new(alloc)),
    })
}

/// A pick of the commit that a word names, in a draft that is made where nothing is refused.
fn pick_in<S: Store, C: Clock>(
    alloc: Global,
    env: &Env,
    word: &[u8],
    draft: &mut DraftStore<'_, S>,
    clock: &mut C,
    out: &mut Vec<u8>,
) -> Outcome
    requires zone { IsZone env.now.zone }
    requires none { draft.old.changes.now ≡ [] }
    ensures judged { IsJudged S.told C.ticked (λ secs. replied (picked env.now secs word.now) (S.seen draft.old.store.now).content)
        (S.seen draft.old.store.now).content clock.old (S.seen draft.new.store.now).content clock.new result out.new.items }
    ensures kind { IsPlain result }
    ensures owns { S.told → ChangesOwn (S.seen draft.old.store.now).content (S.seen draft.new.store.now).content }
    ensures cause { HasJudgedCause S.told result (S.seen draft.old.store.now) (S.seen draft.new.store.now) }
    ensures same_reference { draft.new.store.ghost_name ≡ draft.old.store.ghost_name }
{
    match prepare(alloc, env.vars.as_slice(), word, draft) {
        Ok(pick) => {
            let secs = clock.now();
            outcome_of(finish_in(alloc, &pick, env.zone, secs, draft), out)
        }
        Err(halt) => outcome_of(Err(halt), out),
    }
}

/// A pick of the commit that a word names.
fn pick<S: Store, C: Clock>(
    alloc: Global,
    env: &Env,
    word: &[u8],
    store: &mut S,
    clock: &mut C,
    out: &mut Vec<u8>,
) -> Outcome
    requires { IsZone env.now.zone }
    ensures judged { IsJudged S.told C.ticked (λ secs. replied (picked env.now secs word.now) (S.seen store.old).content)
        (S.seen store.old).content clock.old (S.seen store.new).content clock.new result out.new.items }
    ensures kind { IsPlain result }
    ensures keeps { S.told → KeepsRepository (S.seen store.old).content (S.seen store.new).content }
    ensures cause { HasJudgedCause S.told result (S.seen store.old) (S.seen store.new) }
{
    let mut changes = Changes::new(alloc);
    let mut draft = DraftStore::new(store, &mut changes);
    pick_in(alloc, env, word, &mut draft, clock, out)
}

/// Why a command that is not built yet is refused.
#[tactic(auto, unfolding(seq_model::specs::Unbuilt::not_built))]
fn unbuilt<S: Store>(alloc: Global, store: &mut S) -> Halt<Denial>
    ensures denies { S.told → Denies result (not_built {X = ReplyValue} (S.seen store.old).content) }
    ensures same { S.told → (S.seen store.new).content ≡ (S.seen store.old).content }
    ensures cause { HasReadCause S.told (halt_cause result) (S.seen store.old) (S.seen store.new) }
{
    match want_repository(alloc, store) {
        Ok(()) => refused(Refusal::NotBuilt),
        Err(Halt::Stops(denial)) => Halt::Stops(denial),
        Err(Halt::Fault) => Halt::Fault,
        Err(Halt::Memory) => Halt::Memory,
    }
}

/// A command that is not built yet is refused.
fn refuse<S: Store>(alloc: Global, store: &mut S, out: &mut Vec<u8>) -> Outcome
    ensures unmade { IsUnmade result }
    ensures kind { IsPlain result }
    ensures fits { S.told → FitsReply result out.new.items (not_built (S.seen store.old).content) }
    ensures same { S.told → (S.seen store.new).content ≡ (S.seen store.old).content }
    ensures cause { HasJudgedCause S.told result (S.seen store.old) (S.seen store.new) }
{
    outcome_of(Err(unbuilt(alloc, store)), out)
}

/// A list that is to be started: the pick of one commit, or what is not built yet.
fn start<S: Store, C: Clock>(
    alloc: Global,
    env: &Env,
    words: &StartWords,
    store: &mut S,
    clock: &mut C,
    out: &mut Vec<u8>,
) -> Outcome
    requires { IsZone env.now.zone }
    ensures does { Does S.told C.ticked true (λ secs. picked_or_not env.now secs (picked_alone_by words.now) (S.seen store.old).content)
        (S.seen store.old).content clock.old (S.seen store.new).content clock.new result out.new.items }
    ensures keeps { S.told → KeepsRepository (S.seen store.old).content (S.seen store.new).content }
    ensures cause { HasJudgedCause S.told result (S.seen store.old) (S.seen store.new) }
{
    let _first = clock.now();
    match picked_alone(words) {
        Some(word) => pick(alloc, env, word, store, clock, out),
        None => refuse(alloc, store, out),
    }
}

/// What goes on with a list is not built yet.
fn act<S: Store, C: Clock>(
    alloc: Global,
    store: &mut S,
    clock: &mut C,
    out: &mut Vec<u8>,
) -> Outcome
    ensures does { Does S.told C.ticked true (λ _. looks not_built (S.seen store.old).content)
        (S.seen store.old).content clock.old (S.seen store.new).content clock.new result out.new.items }
    ensures keeps { S.told → KeepsRepository (S.seen store.old).content (S.seen store.new).content }
    ensures cause { HasJudgedCause S.told result (S.seen store.old) (S.seen store.new) }
{
    let _first = clock.now();
    refuse(alloc, store, out)
}

/// What a command asks for.
fn perform<S: Store, C: Clock>(
    alloc: Global,
    env: &Env,
    command: &Command,
    store: &mut S,
    clock: &mut C,
    out: &mut Vec<u8>,
) -> Outcome
    requires { IsZone env.now.zone }
    ensures does { Does S.told C.ticked (commits command.now) (λ secs. meant env.now command.now secs (S.seen store.old).content)
        (S.seen store.old).content clock.old (S.seen store.new).content clock.new result out.new.items }
    ensures keeps { S.told → KeepsRepository (S.seen store.old).content (S.seen store.new).content }
    ensures cause { HasJudgedCause S.told result (S.seen store.old) (S.seen store.new) }
{
    match command {
        Command::Start(words) => start(alloc, env, words, store, clock, out),
        Command::Act(_, _) => act(alloc, store, clock, out),
        Command::Plumb(words) => plumb(alloc, words, env, store, clock, out),
    }
}

fn prints_own(words: &PlumbWords) -> bool
    ensures { result ≡ prints_own_of words.now }
{
    match words {
        PlumbWords::Init
        | PlumbWords::Add { .. }
        | PlumbWords::Rm { .. }
        | PlumbWords::Commit { .. } => false,
        PlumbWords::Status | PlumbWords::Cat { .. } => true,
    }
}

fn tells_itself(command: &Command) -> bool
    ensures { result ≡ tells_itself_of command.now }
{
    match command {
        Command::Start(_) | Command::Act(_, _) => false,
        Command::Plumb(words) => prints_own(words),
    }
}

/// What the words ask for is done; the outcome is not printed yet.
#[tactic(auto, using(crate::proofs::Printed::told_by))]
pub fn judge<S: Store, C: Clock>(
    alloc: Global,
    words: &[Bytes],
    env: &Env,
    store: &mut S,
    clock: &mut C,
) -> Judged
    requires { IsZone env.now.zone }
    ensures judges { Judges S.told C.ticked (command_of words.now) env.now
        (S.seen store.old) clock.old (S.seen store.new) clock.new result.outcome result.own }
    ensures tells { IsTold result.outcome result.tells (tells_of (command_of words.now)) }
    ensures keeps { S.told → KeepsRepository (S.seen store.old).content (S.seen store.new).content }
    ensures cause { HasJudgedCause S.told result.outcome (S.seen store.old) (S.seen store.new) }
{
    let mut own = Vec::new(alloc);
    match read_words(alloc, words) {
        Ok(command) => {
            let outcome = perform(alloc, env, &command, store, clock, &mut own);
            Judged {
                outcome,
                own: Bytes::from_vec(own),
                tells: tells_itself(&command),
            }
        }
        Err(BadWords::Usage(fault)) => Judged {
            outcome: Outcome::Usage(fault),
            own: Bytes::from_vec(own),
            tells: false,
        },
        Err(BadWords::Memory) => Judged {
            outcome: Outcome::Memory,
            own: Bytes::from_vec(own),
            tells: false,
        },
    }
}
