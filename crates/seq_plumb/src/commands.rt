//! One invocation of a command on index, files and objects.

ghost use Rattle.std.specs.Prelude.{◌≡◌, [], false};
ghost use Rattle.seq_model.specs.Changes.{Changes as ChangesOwn, KeepsRepository};
ghost use Rattle.seq_model.specs.Judged.{Does, Ends, Fits, HasEndCause, HasJudgedCause, IsPlain};
ghost use Rattle.seq_model.specs.Unbuilt.{not_built};
ghost use Rattle.seq_outside.specs.Env.{IsZone};
ghost use Rattle.seq_outside.specs.Halts.{Gives, halt_cause};
ghost use Rattle.seq_outside.specs.Seen.{Reads, Writes};
ghost use Rattle.seq_outside.specs.Turns.{Turns};
ghost use Rattle.seq_outside.specs.Writes.{written};
ghost use Rattle.seq_plumb.specs.Plumbed.{plumbed, quiet_reply};

use crate::adding::add;
use crate::printing::print_object;
use crate::removing::remove;
use crate::repository::init;
use seq_base::{Bytes, Id};
use seq_model::{Denial, Outcome, PlumbWords, Refusal, Reply, outcome_of, refused};
use seq_outside::{Changes, Clock, DraftStore, Env, Halt, Store};
use start_checks::want_repository;
use std::alloc::Global;

#[tactic(auto, unfolding(seq_model::specs::Unbuilt::not_built))]
fn refuse<S: Store>(alloc: Global, store: &mut S) -> Result<Reply, Halt<Denial>>
    ensures gives { S.told → Gives (λ reply. reply) result (not_built (S.seen store.old).content) }
    ensures reads { Reads S.told halt_cause result (S.seen store.old) (S.seen store.new) }
{
    want_repository(alloc, store)?;
    Err(refused(Refusal::NotBuilt))
}

fn quiet(alloc: Global, head: Option<Id>) -> Reply
    ensures { result ≡ quiet_reply head }
{
    Reply {
        head,
        own: Bytes::from_vec(Vec::new(alloc)),
    }
}

/// What a command does over any store.
#[tactic(auto, using(seq_model::proofs::Owning::owned_laws))]
fn perform<S: Store>(
    alloc: Global,
    command: &PlumbWords,
    store: &mut S,
) -> Result<Reply, Halt<Denial>>
    ensures turns { S.told → Turns (λ reply. reply) result (plumbed command.now (S.seen store.old).content) (S.seen store.new).content }
    ensures owns { S.told → ChangesOwn (S.seen store.old).content (S.seen store.new).content }
    ensures writes { Writes S.told halt_cause result (S.seen store.old) (S.seen store.new) }
{
    match command {
        PlumbWords::Init => {
            let head = init(alloc, store)?;
            Ok(quiet(alloc, head))
        }
        PlumbWords::Add { paths } => {
            let head = add(alloc, paths.as_slice(), store)?;
            Ok(quiet(alloc, head))
        }
        PlumbWords::Rm { paths } => {
            let head = remove(alloc, paths.as_slice(), store)?;
            Ok(quiet(alloc, head))
        }
        PlumbWords::Commit { .. } => refuse(alloc, store),
        PlumbWords::Status => refuse(alloc, store),
        PlumbWords::Cat { word } => print_object(alloc, word.as_slice(), store),
    }
}

/// What a command does, in a draft that is then made.
fn perform_in<S: Store>(
    alloc: Global,
    command: &PlumbWords,
    draft: &mut DraftStore<'_, S>,
) -> Result<Reply, Halt<Denial>>
    ensures ends { S.told → Ends result (S.seen draft.old.store.now).content
        (plumbed command.now (written (S.seen draft.old.store.now).content draft.old.changes.now))
        (S.seen draft.new.store.now).content }
    ensures owns { S.told → ChangesOwn (S.seen draft.old.store.now).content (written (S.seen draft.old.store.now).content draft.old.changes.now)
        → ChangesOwn (S.seen draft.old.store.now).content (S.seen draft.new.store.now).content }
    ensures cause { HasEndCause S.told result (S.seen draft.old.store.now) (S.seen draft.new.store.now) }
    ensures same_reference { draft.new.store.ghost_name ≡ draft.old.store.ghost_name }
{
    let reply = perform(alloc, command, draft)?;
    draft.make(alloc)?;
    Ok(reply)
}

/// What a command does, in a draft in which nothing is changed yet.
fn plumb_in<S: Store>(
    alloc: Global,
    command: &PlumbWords,
    draft: &mut DraftStore<'_, S>,
    out: &mut Vec<u8>,
) -> Outcome
    requires { draft.old.changes.now ≡ [] }
    ensures fits { S.told → Fits (S.seen draft.old.store.now).content (S.seen draft.new.store.now).content
        (plumbed command.now (S.seen draft.old.store.now).content) result out.new.items }
    ensures kind { IsPlain result }
    ensures owns { S.told → ChangesOwn (S.seen draft.old.store.now).content (S.seen draft.new.store.now).content }
    ensures cause { HasJudgedCause S.told result (S.seen draft.old.store.now) (S.seen draft.new.store.now) }
    ensures same_reference { draft.new.store.ghost_name ≡ draft.old.store.ghost_name }
{
    outcome_of(perform_in(alloc, command, draft), out)
}

/// The same, over a draft that is begun here.
fn plumb_drafted<S: Store>(
    alloc: Global,
    command: &PlumbWords,
    store: &mut S,
    out: &mut Vec<u8>,
) -> Outcome
    ensures fits { S.told → Fits (S.seen store.old).content (S.seen store.new).content
        (plumbed command.now (S.seen store.old).content) result out.new.items }
    ensures kind { IsPlain result }
    ensures keeps { S.told → KeepsRepository (S.seen store.old).content (S.seen store.new).content }
    ensures cause { HasJudgedCause S.told result (S.seen store.old) (S.seen store.new) }
{
    let mut changes = Changes::new(alloc);
    let mut draft = DraftStore::new(store, &mut changes);
    plumb_in(alloc, command, &mut draft, out)
}

/// One invocation of a command on index, files and objects: a moment is taken, and then all that speaks against the command is judged before
/// anything changes. What it prints itself, if it is done, takes the place of what stands in `out`; the report is not among it.
pub fn plumb<S: Store, C: Clock>(
    alloc: Global,
    command: &PlumbWords,
    _env: &Env,
    store: &mut S,
    clock: &mut C,
    out: &mut Vec<u8>,
) -> Outcome
    requires { IsZone _env.now.zone }
    ensures does { Does S.told C.ticked false (λ _. plumbed command.now (S.seen store.old).content)
        (S.seen store.old).content clock.old (S.seen store.new).content clock.new result out.new.items }
    ensures keeps { S.told → KeepsRepository (S.seen store.old).content (S.seen store.new).content }
    ensures cause { HasJudgedCause S.told result (S.seen store.old) (S.seen store.new) }
{
    let _first = clock.now();
    plumb_drafted(alloc, command, store, out)
}
