//! A message is shown to hooks and to an editor.

ghost use Rattle.std.specs.Prelude.{◌≡◌, [], ◌∷◌, IfOk, codes};
ghost use Rattle.child_steps.specs.Causes.{HasStepCause, has_failed};
ghost use Rattle.commit_maker.specs.Causes.{stop_failed};
ghost use Rattle.child_steps.specs.Children.{asked, hook_path, spot_of};
ghost use Rattle.child_jobs.specs.Jobs.{editor_of};
ghost use Rattle.commit_maker.specs.Messages.{commit_msg as commit_msg_does, edited_by, editor_at, editor_failed, hook_does, message_path, pre_commit as pre_commit_does};
ghost use Rattle.commit_maker.specs.Messages.{prepare_commit_msg as prepare_does, shown, source_word as source_word_of};
ghost use Rattle.seq_base.specs.StorePaths.{IsStorePath};
ghost use Rattle.seq_outside.specs.Doing.{saying};
ghost use Rattle.seq_outside.specs.Follows.{Follows};

use crate::bytes::copy_of;
use crate::making::Source;
use crate::stop::MakeStop;
use child_jobs::{editor, editor_job};
use child_steps::{ChildEnd, ask_child, ask_hook};
use config_text::Config;
use seq_base::Bytes;
use seq_outside::{Clock, Env, Halt, Spawner, Store};
use std::alloc::{AllocError, Global};

/// The editor of a message that is to be edited, if one is to be run.
pub fn message_editor(
    alloc: Global,
    config: &Config,
    env: &Env,
    edit: bool,
) -> Result<Option<Bytes>, AllocError>
    ensures { IfOk result (λ found. found ≡ editor_at config.now env.now edit) }
{
    if !edit {
        return Ok(None);
    }
    match editor(alloc, config, env, false)? {
        Some(editor) => Ok(Some(Bytes::from_vec(editor))),
        None => Ok(None),
    }
}

fn source_word(source: Source) -> &'static [u8]
    ensures { result.now ≡ source_word_of source }
{
    match source {
        Source::Message => b"message".as_slice(),
        Source::Merge => b"merge".as_slice(),
        Source::Squash => b"squash".as_slice(),
    }
}

/// Runs a hook that may refuse the commit, where it is there.
fn hook<S: Store, P: Spawner<S>, C: Clock>(
    alloc: Global,
    name: &[u8],
    arguments: &[Bytes],
    ran: &mut bool,
    store: &mut S,
    spawner: &mut P,
    clock: &mut C,
) -> Result<(), Halt<MakeStop>>
    requires { IsStorePath (hook_path name.now) }
    ensures follows { S.told → Follows P.ran C.ticked spawner.old clock.old spawner.new clock.new (λ x. x)
        (hook_does name.now arguments.now) (spot_of (S.seen store.old) ran.old) result (spot_of (S.seen store.new) ran.new) }
    ensures cause { HasStepCause S.told stop_failed result (S.seen store.old) (S.seen store.new) (P.seen spawner.old) (P.seen spawner.new) }
{
    match ask_hook(alloc, name, arguments, ran, store, spawner, clock) {
        Ok(()) => Ok(()),
        Err(Halt::Stops(child)) => Err(Halt::Stops(MakeStop::HookRefused {
            name: copy_of(alloc, name)?,
            exit: child.exit,
            failed: child.failed,
        })),
        Err(Halt::Fault) => Err(Halt::Fault),
        Err(Halt::Memory) => Err(Halt::Memory),
    }
}

/// Runs an editor on the message, which has to end with 0.
fn ask_editor<S: Store, P: Spawner<S>, C: Clock>(
    alloc: Global,
    editor: &[u8],
    ran: &mut bool,
    store: &mut S,
    spawner: &mut P,
    clock: &mut C,
) -> Result<(), Halt<ChildEnd>>
    ensures follows { S.told → Follows P.ran C.ticked spawner.old clock.old spawner.new clock.new (λ x. x)
        (asked (editor_of editor.now message_path)) (spot_of (S.seen store.old) ran.old) result (spot_of (S.seen store.new) ran.new) }
    ensures cause { HasStepCause S.told has_failed result (S.seen store.old) (S.seen store.new) (P.seen spawner.old) (P.seen spawner.new) }
{
    let job = editor_job(alloc, editor, b".git/COMMIT_EDITMSG")?;
    ask_child(alloc, &job, ran, store, spawner, clock)
}

/// Runs an editor on the message.
fn run_editor<S: Store, P: Spawner<S>, C: Clock>(
    alloc: Global,
    editor: &[u8],
    ran: &mut bool,
    store: &mut S,
    spawner: &mut P,
    clock: &mut C,
) -> Result<(), Halt<MakeStop>>
    ensures follows { S.told → Follows P.ran C.ticked spawner.old clock.old spawner.new clock.new (λ x. x)
        (saying editor_failed (asked (editor_of editor.now message_path)))
        (spot_of (S.seen store.old) ran.old) result (spot_of (S.seen store.new) ran.new) }
    ensures cause { HasStepCause S.told stop_failed result (S.seen store.old) (S.seen store.new) (P.seen spawner.old) (P.seen spawner.new) }
{
    match ask_editor(alloc, editor, ran, store, spawner, clock) {
        Ok(()) => Ok(()),
        Err(Halt::Stops(child)) => Err(Halt::Stops(MakeStop::EditorFailed {
            exit: child.exit,
            failed: child.failed,
        })),
        Err(Halt::Fault) => Err(Halt::Fault),
        Err(Halt::Memory) => Err(Halt::Memory),
    }
}

#[tactic(auto, unfolding(crate::specs::Messages::pre_commit))]
fn pre_commit<S: Store, P: Spawner<S>, C: Clock>(
    alloc: Global,
    edit: bool,
    ran: &mut bool,
    store: &mut S,
    spawner: &mut P,
    clock: &mut C,
) -> Result<(), Halt<MakeStop>>
    ensures follows { S.told → Follows P.ran C.ticked spawner.old clock.old spawner.new clock.new (λ x. x)
        (pre_commit_does edit) (spot_of (S.seen store.old) ran.old) result (spot_of (S.seen store.new) ran.new) }
    ensures cause { HasStepCause S.told stop_failed result (S.seen store.old) (S.seen store.new) (P.seen spawner.old) (P.seen spawner.new) }
{
    if edit {
        let arguments = Vec::new(alloc);
        hook(alloc, b"pre-commit", &arguments, ran, store, spawner, clock)?;
        return Ok(());
    }
    Ok(())
}

/// What the hook `prepare-commit-msg` is told.
fn prepare_words(alloc: Global, source: Source) -> Result<Vec<Bytes>, AllocError>
    ensures { IfOk result (λ words. words.items ≡ message_path ∷ source_word_of source ∷ []) }
{
    let path = copy_of(alloc, b".git/COMMIT_EDITMSG")?;
    let word = copy_of(alloc, source_word(source))?;
    Ok(vec![in alloc; path, word]?)
}

#[tactic(auto, unfolding(crate::specs::Messages::prepare_commit_msg))]
fn prepare_with<S: Store, P: Spawner<S>, C: Clock>(
    alloc: Global,
    source: Source,
    words: &[Bytes],
    ran: &mut bool,
    store: &mut S,
    spawner: &mut P,
    clock: &mut C,
) -> Result<(), Halt<MakeStop>>
    requires { words.now ≡ message_path ∷ source_word_of source ∷ [] }
    ensures follows { S.told → Follows P.ran C.ticked spawner.old clock.old spawner.new clock.new (λ x. x)
        (prepare_does source) (spot_of (S.seen store.old) ran.old) result (spot_of (S.seen store.new) ran.new) }
    ensures cause { HasStepCause S.told stop_failed result (S.seen store.old) (S.seen store.new) (P.seen spawner.old) (P.seen spawner.new) }
{
    hook(
        alloc,
        b"prepare-commit-msg",
        words,
        ran,
        store,
        spawner,
        clock,
    )
}

fn prepare_commit_msg<S: Store, P: Spawner<S>, C: Clock>(
    alloc: Global,
    source: Source,
    ran: &mut bool,
    store: &mut S,
    spawner: &mut P,
    clock: &mut C,
) -> Result<(), Halt<MakeStop>>
    ensures follows { S.told → Follows P.ran C.ticked spawner.old clock.old spawner.new clock.new (λ x. x)
        (prepare_does source) (spot_of (S.seen store.old) ran.old) result (spot_of (S.seen store.new) ran.new) }
    ensures cause { HasStepCause S.told stop_failed result (S.seen store.old) (S.seen store.new) (P.seen spawner.old) (P.seen spawner.new) }
{
    let words = prepare_words(alloc, source)?;
    prepare_with(alloc, source, &words, ran, store, spawner, clock)
}

/// What the hook `commit-msg` is told.
fn message_words(alloc: Global) -> Result<Vec<Bytes>, AllocError>
    ensures { IfOk result (λ words. words.items ≡ message_path ∷ []) }
{
    let path = copy_of(alloc, b".git/COMMIT_EDITMSG")?;
    Ok(vec![in alloc; path]?)
}

fn judge_with<S: Store, P: Spawner<S>, C: Clock>(
    alloc: Global,
    words: &[Bytes],
    ran: &mut bool,
    store: &mut S,
    spawner: &mut P,
    clock: &mut C,
) -> Result<(), Halt<MakeStop>>
    requires { words.now ≡ message_path ∷ [] }
    ensures follows { S.told → Follows P.ran C.ticked spawner.old clock.old spawner.new clock.new (λ x. x)
        (hook_does (codes "commit-msg") (message_path ∷ [])) (spot_of (S.seen store.old) ran.old) result (spot_of (S.seen store.new) ran.new) }
    ensures cause { HasStepCause S.told stop_failed result (S.seen store.old) (S.seen store.new) (P.seen spawner.old) (P.seen spawner.new) }
{
    hook(alloc, b"commit-msg", words, ran, store, spawner, clock)
}

fn judge<S: Store, P: Spawner<S>, C: Clock>(
    alloc: Global,
    ran: &mut bool,
    store: &mut S,
    spawner: &mut P,
    clock: &mut C,
) -> Result<(), Halt<MakeStop>>
    ensures follows { S.told → Follows P.ran C.ticked spawner.old clock.old spawner.new clock.new (λ x. x)
        (hook_does (codes "commit-msg") (message_path ∷ [])) (spot_of (S.seen store.old) ran.old) result (spot_of (S.seen store.new) ran.new) }
    ensures cause { HasStepCause S.told stop_failed result (S.seen store.old) (S.seen store.new) (P.seen spawner.old) (P.seen spawner.new) }
{
    let words = message_words(alloc)?;
    judge_with(alloc, &words, ran, store, spawner, clock)
}

#[tactic(auto, unfolding(crate::specs::Messages::commit_msg))]
fn commit_msg<S: Store, P: Spawner<S>, C: Clock>(
    alloc: Global,
    edit: bool,
    ran: &mut bool,
    store: &mut S,
    spawner: &mut P,
    clock: &mut C,
) -> Result<(), Halt<MakeStop>>
    ensures follows { S.told → Follows P.ran C.ticked spawner.old clock.old spawner.new clock.new (λ x. x)
        (commit_msg_does edit) (spot_of (S.seen store.old) ran.old) result (spot_of (S.seen store.new) ran.new) }
    ensures cause { HasStepCause S.told stop_failed result (S.seen store.old) (S.seen store.new) (P.seen spawner.old) (P.seen spawner.new) }
{
    if edit {
        judge(alloc, ran, store, spawner, clock)?;
        return Ok(());
    }
    Ok(())
}

/// The message is edited, where there is an editor.
#[tactic(auto, unfolding(crate::specs::Messages::edited_by))]
fn edit_message<S: Store, P: Spawner<S>, C: Clock>(
    alloc: Global,
    editor: &Option<Bytes>,
    ran: &mut bool,
    store: &mut S,
    spawner: &mut P,
    clock: &mut C,
) -> Result<(), Halt<MakeStop>>
    ensures follows { S.told → Follows P.ran C.ticked spawner.old clock.old spawner.new clock.new (λ x. x)
        (edited_by editor.now) (spot_of (S.seen store.old) ran.old) result (spot_of (S.seen store.new) ran.new) }
    ensures cause { HasStepCause S.told stop_failed result (S.seen store.old) (S.seen store.new) (P.seen spawner.old) (P.seen spawner.new) }
{
    match editor {
        Some(editor) => {
            run_editor(alloc, editor.as_slice(), ran, store, spawner, clock)?;
            Ok(())
        }
        None => Ok(()),
    }
}

/// Hooks and the editor see the message, in their order.
#[tactic(auto, unfolding(crate::specs::Messages::shown))]
pub fn show<S: Store, P: Spawner<S>, C: Clock>(
    alloc: Global,
    edit: bool,
    source: Source,
    editor: &Option<Bytes>,
    ran: &mut bool,
    store: &mut S,
    spawner: &mut P,
    clock: &mut C,
) -> Result<(), Halt<MakeStop>>
    ensures follows { S.told → Follows P.ran C.ticked spawner.old clock.old spawner.new clock.new (λ x. x)
        (shown edit source editor.now) (spot_of (S.seen store.old) ran.old) result (spot_of (S.seen store.new) ran.new) }
    ensures cause { HasStepCause S.told stop_failed result (S.seen store.old) (S.seen store.new) (P.seen spawner.old) (P.seen spawner.new) }
{
    pre_commit(alloc, edit, ran, store, spawner, clock)?;
    prepare_commit_msg(alloc, source, ran, store, spawner, clock)?;
    edit_message(alloc, editor, ran, store, spawner, clock)?;
    commit_msg(alloc, edit, ran, store, spawner, clock)
}
