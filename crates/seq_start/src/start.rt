//! A turn that starts a list, once it was checked.

ghost use Rattle.std.specs.Prelude.{◌≡◌, ◌++◌, ◌∷◌, [], codes, IfOk};
ghost use Rattle.child_steps.specs.Children.{spot_of};
ghost use Rattle.hex.specs.Hex.{encode_lower};
ghost use Rattle.index_file.specs.Entries.{IsInOrder};
ghost use Rattle.line_steps.specs.Heads.{index_found as index_found_at, map_found as map_found_at};
ghost use Rattle.line_steps.specs.Places.{reads, reason_of as reason_of_lack, writes};
ghost use Rattle.line_steps.specs.Writing.{switched_over};
ghost use Rattle.reading.specs.Going.{checkout_words as checkout_words_of, start_heads, start_onto as start_onto_by};
ghost use Rattle.reading.specs.Stages.{between as between_reason, left_as};
ghost use Rattle.reading.specs.Starting.{onto_switched, start_line as start_line_of};
ghost use Rattle.reading.specs.State.{begun, with_state};
ghost use Rattle.ref_text.specs.Heads.{head_text as head_text_of};
ghost use Rattle.ref_text.specs.Logs.{IsLogValue, IsMessage};
ghost use Rattle.seq_model.specs.Refusing.{told_by};
ghost use Rattle.seq_outside.specs.Follows.{Follows};
ghost use Rattle.seq_outside.specs.Halts.{Gives, for_reason, halt_cause};
ghost use Rattle.seq_outside.specs.Seen.{Reads, Writes};
ghost use Rattle.seq_outside.specs.Turns.{Turns, put_in, saying};
ghost use Rattle.seq_step.specs.Causes.{HasLineCause, RunsNone, stop_failed};
ghost use Rattle.seq_step.specs.Keeping.{Keeps};
ghost use Rattle.seq_step.specs.Settings.{MayCommit};
ghost use Rattle.seq_start.specs.Plans.{IsPlan};
ghost use Rattle.line_steps.specs.Hooks.{hook_does};
ghost use Rattle.line_steps.specs.Writing.{head_written};

use index_file::IndexEntry;
use line_steps::{Place, Setting, Stop};
use reading::Planned;
use ref_text::{Head, LogLine, head_text};
use seq_base::{Bytes, PathMap};
use seq_lines::between_halt;
use seq_model::Reason;
use seq_outside::{Clock, Halt, Lack, Spawner, Store, put_file};
use seq_state::begin_state;
use seq_step::{
    index_found, map_found, reason_of, run_hook, switch_over, turn_ident, value_of, write_head,
};
use state_text::Control;
use std::alloc::{AllocError, Global};

fn reason_halt(halt: Halt<Lack>) -> Halt<Reason>
    ensures { result ≡ told_by reason_of_lack halt }
{
    match halt {
        Halt::Stops(lack) => Halt::Stops(reason_of(lack)),
        Halt::Fault => Halt::Fault,
        Halt::Memory => Halt::Memory,
    }
}

/// ORIG_HEAD is the old head (gitrevisions(7)).
fn put_orig_head<S: Store>(alloc: Global, plan: &Planned, store: &mut S) -> Result<(), Halt<Reason>>
    ensures turns { S.told → Turns (λ x. x) result
        (saying reason_of_lack (put_in (codes ".git/ORIG_HEAD") (head_text_of (Head.Detached plan.now.control.orig))) (S.seen store.old).content)
        (S.seen store.new).content }
    ensures writes { Writes S.told halt_cause result (S.seen store.old) (S.seen store.new) }
{
    let path = Bytes::from_vec(b".git/ORIG_HEAD".to_vec(alloc)?);
    let text = head_text(alloc, &Head::Detached(plan.control.orig))?;
    match put_file(alloc, store, path, &text) {
        Ok(()) => Ok(()),
        Err(halt) => Err(reason_halt(halt)),
    }
}

/// Index and files are those of onto.
fn switch_to_onto<S: Store>(
    alloc: Global,
    index: &[IndexEntry],
    onto: &PathMap,
    store: &mut S,
) -> Result<(), Halt<Reason>>
    requires { IsInOrder index.now }
    ensures turns { S.told → Turns (λ x. x) result (saying reason_of_lack (switched_over index.now onto.now) (S.seen store.old).content)
        (S.seen store.new).content }
    ensures writes { Writes S.told halt_cause result (S.seen store.old) (S.seen store.new) }
{
    match switch_over(alloc, index, onto, store) {
        Ok(()) => Ok(()),
        Err(halt) => Err(reason_halt(halt)),
    }
}

#[tactic(auto, using(seq_lines::proofs::Messages::start_is_message))]
fn start_message(alloc: Global, onto_word: &[u8]) -> Result<Bytes, AllocError>
    requires { IsMessage onto_word.now }
    ensures text { IfOk result (λ m. m ≡ codes "rebase (start): checkout " ++ onto_word.now) }
    ensures message { IfOk result IsMessage }
{
    let mut message = b"rebase (start): checkout ".to_vec(alloc)?;
    message.extend_from_slice(onto_word)?;
    Ok(Bytes::from_vec(message))
}

#[tactic(auto, using(seq_lines::proofs::Messages::line_is_value))]
fn start_line(alloc: Global, setting: &Setting, plan: &Planned) -> Result<LogLine, AllocError>
    requires setting { MayCommit setting.now }
    requires word { IsMessage plan.now.onto_word }
    ensures is { IfOk result (λ line. line ≡ start_line_of setting.now plan.now) }
    ensures value { IfOk result IsLogValue }
{
    let ident = turn_ident(alloc, setting)?;
    Ok(LogLine {
        old: value_of(plan.control.orig),
        new: plan.control.onto,
        ident: Bytes::from_vec(ident),
        message: start_message(alloc, plan.onto_word.as_slice())?,
    })
}

fn head_to_onto<S: Store>(
    alloc: Global,
    setting: &Setting,
    plan: &Planned,
    store: &mut S,
) -> Result<(), Halt<Reason>>
    requires setting { MayCommit setting.now }
    requires word { IsMessage plan.now.onto_word }
    ensures turns { S.told → Turns (λ x. x) result
        (head_written plan.now.control.onto (start_line_of setting.now plan.now) (S.seen store.old).content)
        (S.seen store.new).content }
    ensures writes { Writes S.told halt_cause result (S.seen store.old) (S.seen store.new) }
{
    let line = start_line(alloc, setting, plan)?;
    write_head(alloc, plan.control.onto, &line, store)
}

/// ORIG_HEAD is the old head; index and files are those of onto; HEAD is there, detached.
#[tactic(auto, unfolding(reading::specs::Starting::onto_switched))]
fn go_to_onto<S: Store>(
    alloc: Global,
    setting: &Setting,
    plan: &Planned,
    index: &[IndexEntry],
    onto: &PathMap,
    store: &mut S,
) -> Result<(), Halt<Reason>>
    requires setting { MayCommit setting.now }
    requires word { IsMessage plan.now.onto_word }
    requires order { IsInOrder index.now }
    ensures turns { S.told → Turns (λ x. x) result (onto_switched setting.now plan.now index.now onto.now (S.seen store.old).content)
        (S.seen store.new).content }
    ensures writes { Writes S.told halt_cause result (S.seen store.old) (S.seen store.new) }
{
    put_orig_head(alloc, plan, store)?;
    switch_to_onto(alloc, index, onto, store)?;
    head_to_onto(alloc, setting, plan, store)
}

// ---- as steps

/// The old head, the new one, and that a branch was checked out.
fn checkout_words(alloc: Global, control: &Control) -> Result<Vec<Bytes>, AllocError>
    ensures { IfOk result (λ words. words.items ≡ checkout_words_of control.now) }
{
    let mut words = Vec::new(alloc);
    words.push(Bytes::from_vec(control.orig.hex(alloc)?))?;
    words.push(Bytes::from_vec(control.onto.hex(alloc)?))?;
    words.push(Bytes::from_vec(b"1".to_vec(alloc)?))?;
    Ok(words)
}

fn run_post_checkout<S: Store, P: Spawner<S>, C: Clock>(
    alloc: Global,
    control: &Control,
    place: &mut Place,
    store: &mut S,
    spawner: &mut P,
    clock: &mut C,
) -> Result<(), Halt<Stop>>
    ensures follows { S.told → Follows P.ran C.ticked spawner.old clock.old spawner.new clock.new (λ x. x)
        (hook_does (codes "post-checkout") (checkout_words_of control.now) [])
        (spot_of (S.seen store.old) place.old) result (spot_of (S.seen store.new) place.new) }
    ensures cause { HasLineCause stop_failed result (S.seen store.old) (S.seen store.new) (P.seen spawner.old) (P.seen spawner.new) }
    ensures keeps { Keeps place.old result place.new }
{
    let words = checkout_words(alloc, control)?;
    run_hook(
        alloc,
        b"post-checkout",
        &words,
        b"",
        place,
        store,
        spawner,
        clock,
    )
}

/// HEAD is at onto, and the hook is told so.
#[tactic(auto, unfolding(reading::specs::Going::start_heads))]
fn take_onto<S: Store, P: Spawner<S>, C: Clock>(
    alloc: Global,
    control: &Control,
    place: &mut Place,
    store: &mut S,
    spawner: &mut P,
    clock: &mut C,
) -> Result<(), Halt<Stop>>
    ensures follows { S.told → Follows P.ran C.ticked spawner.old clock.old spawner.new clock.new (λ x. x)
        (start_heads control.now)
        (spot_of (S.seen store.old) place.old) result (spot_of (S.seen store.new) place.new) }
    ensures cause { HasLineCause stop_failed result (S.seen store.old) (S.seen store.new) (P.seen spawner.old) (P.seen spawner.new) }
    ensures keeps { Keeps place.old result place.new }
{
    place.head = control.onto;
    run_post_checkout(alloc, control, place, store, spawner, clock)
}

fn onto_step<S: Store, P: Spawner<S>, C: Clock>(
    alloc: Global,
    setting: &Setting,
    plan: &Planned,
    index: &[IndexEntry],
    onto: &PathMap,
    place: &mut Place,
    store: &mut S,
    spawner: &mut P,
    clock: &mut C,
) -> Result<(), Halt<Stop>>
    requires setting { MayCommit setting.now }
    requires word { IsMessage plan.now.onto_word }
    requires order { IsInOrder index.now }
    ensures follows { S.told → Follows P.ran C.ticked spawner.old clock.old spawner.new clock.new (λ x. x)
        (writes between_reason (onto_switched setting.now plan.now index.now onto.now))
        (spot_of (S.seen store.old) place.old) result (spot_of (S.seen store.new) place.new) }
    ensures none { RunsNone result }
    ensures cause { HasLineCause stop_failed result (S.seen store.old) (S.seen store.new) (P.seen spawner.old) (P.seen spawner.new) }
    ensures keeps { Keeps place.old result place.new }
{
    match go_to_onto(alloc, setting, plan, index, onto, store) {
        Ok(()) => Ok(()),
        Err(halt) => Err(between_halt(halt)),
    }
}

/// Index, files and HEAD go to onto, behind the files of the list.
#[tactic(auto, unfolding(reading::specs::Going::start_onto))]
pub fn start_onto<S: Store, P: Spawner<S>, C: Clock>(
    alloc: Global,
    setting: &Setting,
    plan: &Planned,
    index: &[IndexEntry],
    onto: &PathMap,
    place: &mut Place,
    store: &mut S,
    spawner: &mut P,
    clock: &mut C,
) -> Result<(), Halt<Stop>>
    requires setting { MayCommit setting.now }
    requires word { IsMessage plan.now.onto_word }
    requires order { IsInOrder index.now }
    ensures follows { S.told → Follows P.ran C.ticked spawner.old clock.old spawner.new clock.new (λ x. x)
        (start_onto_by setting.now plan.now index.now onto.now)
        (spot_of (S.seen store.old) place.old) result (spot_of (S.seen store.new) place.new) }
    ensures cause { HasLineCause stop_failed result (S.seen store.old) (S.seen store.new) (P.seen spawner.old) (P.seen spawner.new) }
    ensures keeps { Keeps place.old result place.new }
{
    onto_step(
        alloc, setting, plan, index, onto, place, store, spawner, clock,
    )?;
    take_onto(alloc, &plan.control, place, store, spawner, clock)
}

/// The files of the list are there, and an invocation is at work.
pub fn start_state<S: Store, P: Spawner<S>, C: Clock>(
    alloc: Global,
    plan: &Planned,
    place: &mut Place,
    store: &mut S,
    spawner: &mut P,
    clock: &mut C,
) -> Result<(), Halt<Stop>>
    requires { IsPlan plan.now }
    ensures follows { S.told → Follows P.ran C.ticked spawner.old clock.old spawner.new clock.new (λ x. x)
        (left_as (λ w. begun plan.now.control (with_state plan.now.control w)))
        (spot_of (S.seen store.old) place.old) result (spot_of (S.seen store.new) place.new) }
    ensures cause { HasLineCause stop_failed result (S.seen store.old) (S.seen store.new) (P.seen spawner.old) (P.seen spawner.new) }
    ensures keeps { Keeps place.old result place.new }
{
    begin_state(alloc, &plan.control, store)?;
    Ok(())
}

/// The index, as a start finds it.
pub fn start_index<S: Store>(alloc: Global, store: &mut S) -> Result<Vec<IndexEntry>, Halt<Stop>>
    ensures gives { S.told → Gives (λ v. v.items) result (for_reason between_reason (index_found_at (S.seen store.old).content)) }
    ensures order { IfOk result (λ v. IsInOrder v.items) }
    ensures none { RunsNone result }
    ensures reads { Reads S.told halt_cause result (S.seen store.old) (S.seen store.new) }
{
    match index_found(alloc, store) {
        Ok(entries) => Ok(entries),
        Err(halt) => Err(between_halt(halt)),
    }
}

/// The map of onto.
pub fn start_map<S: Store>(
    alloc: Global,
    plan: &Planned,
    store: &mut S,
) -> Result<PathMap, Halt<Stop>>
    ensures gives { S.told → Gives (λ m. m) result (for_reason between_reason (map_found_at (S.seen store.old).content plan.now.control.onto)) }
    ensures none { RunsNone result }
    ensures reads { Reads S.told halt_cause result (S.seen store.old) (S.seen store.new) }
{
    match map_found(alloc, plan.control.onto, store) {
        Ok(map) => Ok(map),
        Err(halt) => Err(between_halt(halt)),
    }
}
