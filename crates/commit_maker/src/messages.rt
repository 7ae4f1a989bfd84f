//! The message of a commit, once hooks and an editor have seen it.

ghost use Rattle.std.specs.List.{list_all};
ghost use Rattle.std.specs.Prelude.{◌≡◌, ◌||◌, [], IfOk, IsErrOf, is_some, option_map, unwrap_or};
ghost use Rattle.child_steps.specs.Causes.{HasStepCause, NeverStops};
ghost use Rattle.commit_maker.specs.Causes.{RunsNone, stop_failed};
ghost use Rattle.child_steps.specs.Children.{spot_of};
ghost use Rattle.commit_maker.specs.Messages.{cleaned_if, is_blank_or_feed as is_blank_or_feed_byte, left_does, message_does, message_left as message_left_in};
ghost use Rattle.commit_maker.specs.Messages.{message_path, text_at as text_in, unless_empty};
ghost use Rattle.commit_maker.specs.declared.stop.MakeStop.TheVariants.{Lacks};
ghost use Rattle.seq_outside.specs.Doing.{makes, saying};
ghost use Rattle.seq_outside.specs.Follows.{Follows};
ghost use Rattle.seq_outside.specs.Halts.{Gives, halt_cause};
ghost use Rattle.seq_outside.specs.Seen.{Reads};
ghost use Rattle.seq_outside.specs.Turns.{put_in};

use crate::bytes::copy_of;
use crate::making::Making;
use crate::showing::show;
use crate::stop::MakeStop;
use message_text::clean;
use seq_base::{Bytes, is_blank};
use seq_outside::{Clock, Halt, Spawner, Store, put_file};
use std::alloc::{AllocError, Global};

/// Puts the message where hooks and an editor find it.
fn put_message<S: Store, P: Spawner<S>, C: Clock>(
    alloc: Global,
    message: &[u8],
    ran: &mut bool,
    store: &mut S,
    spawner: &mut P,
    clock: &mut C,
) -> Result<(), Halt<MakeStop>>
    ensures follows { S.told → Follows P.ran C.ticked spawner.old clock.old spawner.new clock.new (λ x. x)
        (saying Lacks (makes (put_in message_path message.now))) (spot_of (S.seen store.old) ran.old) result (spot_of (S.seen store.new) ran.new) }
    ensures cause { HasStepCause S.told stop_failed result (S.seen store.old) (S.seen store.new) (P.seen spawner.old) (P.seen spawner.new) }
{
    let path = copy_of(alloc, b".git/COMMIT_EDITMSG")?;
    match put_file(alloc, store, path, message) {
        Ok(()) => Ok(()),
        Err(Halt::Stops(lack)) => Err(Halt::Stops(MakeStop::Lacks(lack))),
        Err(Halt::Fault) => Err(Halt::Fault),
        Err(Halt::Memory) => Err(Halt::Memory),
    }
}

fn text_or_empty(alloc: Global, found: Option<Vec<u8>>) -> Bytes
    ensures { result ≡ unwrap_or (option_map (λ text. text.items) found) [] }
{
    match found {
        Some(text) => Bytes::from_vec(text),
        None => Bytes::from_vec(Vec::new(alloc)),
    }
}

/// The text of the message's file. One that is gone is empty.
fn text_at<S: Store>(alloc: Global, store: &mut S) -> Result<Bytes, Halt<MakeStop>>
    ensures found { S.told → IfOk result (λ text. text ≡ text_in (S.seen store.old).content) }
    ensures never_stops { NeverStops result }
    ensures reads { Reads S.told halt_cause result (S.seen store.old) (S.seen store.new) }
{
    let found = store.get(alloc, b".git/COMMIT_EDITMSG")?;
    Ok(text_or_empty(alloc, found))
}

fn clean_if(alloc: Global, cleans: bool, text: Bytes) -> Result<Bytes, AllocError>
    ensures { IfOk result (λ left. left ≡ cleaned_if cleans text) }
{
    if cleans {
        return Ok(Bytes::from_vec(clean(alloc, text.as_slice())?));
    }
    Ok(text)
}

fn is_blank_or_feed(b: u8) -> bool
    ensures { result ≡ is_blank_or_feed_byte b }
{
    is_blank(b) || b == b'\n'
}

fn is_bare(text: &[u8]) -> bool
    ensures { result ≡ list_all is_blank_or_feed_byte text.now }
{
    text.iter().all(|b| is_blank_or_feed(*b))
}

/// Stops where a hook or an editor has left no message.
fn refuse_empty(ran: bool, text: Bytes) -> Result<Bytes, Halt<MakeStop>>
    ensures gives { Gives (λ text. text) result (unless_empty ran text) }
    ensures no_child { RunsNone result }
    ensures no_fault { IsErrOf result Halt.Fault → ⊥ }
{
    if ran && is_bare(text.as_slice()) {
        return Err(Halt::Stops(MakeStop::EmptyMessage));
    }
    Ok(text)
}

/// What is left of a message.
#[tactic(auto, unfolding(crate::specs::Messages::message_left))]
fn message_left<S: Store>(
    alloc: Global,
    ran: bool,
    cleans: bool,
    store: &mut S,
) -> Result<Bytes, Halt<MakeStop>>
    ensures gives { S.told → Gives (λ text. text) result (message_left_in ran cleans (S.seen store.old).content) }
    ensures no_child { RunsNone result }
    ensures reads { Reads S.told halt_cause result (S.seen store.old) (S.seen store.new) }
{
    let text = text_at(alloc, store)?;
    let text = clean_if(alloc, cleans, text)?;
    refuse_empty(ran, text)
}

/// What is left of a message, as a step.
#[tactic(auto, unfolding(crate::specs::Messages::left_does))]
fn leave<S: Store, P: Spawner<S>, C: Clock>(
    alloc: Global,
    cleans: bool,
    ran: &mut bool,
    store: &mut S,
    spawner: &mut P,
    clock: &mut C,
) -> Result<Bytes, Halt<MakeStop>>
    ensures follows { S.told → Follows P.ran C.ticked spawner.old clock.old spawner.new clock.new (λ text. text)
        (left_does cleans) (spot_of (S.seen store.old) ran.old) result (spot_of (S.seen store.new) ran.new) }
    ensures cause { HasStepCause S.told stop_failed result (S.seen store.old) (S.seen store.new) (P.seen spawner.old) (P.seen spawner.new) }
{
    let text = message_left(alloc, *ran, cleans, store)?;
    Ok(text)
}

/// The message that hooks and the editor leave.
#[tactic(auto, unfolding(crate::specs::Messages::message_does))]
pub fn message<S: Store, P: Spawner<S>, C: Clock>(
    alloc: Global,
    editor: &Option<Bytes>,
    making: &Making,
    ran: &mut bool,
    store: &mut S,
    spawner: &mut P,
    clock: &mut C,
) -> Result<Bytes, Halt<MakeStop>>
    ensures follows { S.told → Follows P.ran C.ticked spawner.old clock.old spawner.new clock.new (λ text. text)
        (message_does editor.now making.now) (spot_of (S.seen store.old) ran.old) result (spot_of (S.seen store.new) ran.new) }
    ensures cause { HasStepCause S.told stop_failed result (S.seen store.old) (S.seen store.new) (P.seen spawner.old) (P.seen spawner.new) }
{
    put_message(alloc, making.message.as_slice(), ran, store, spawner, clock)?;
    show(
        alloc,
        making.edit,
        making.source,
        editor,
        ran,
        store,
        spawner,
        clock,
    )?;
    let cleans = editor.is_some() || making.chain;
    let text = leave(alloc, cleans, ran, store, spawner, clock)?;
    Ok(text)
}
