//! Whether a rebase begins: the children that belong to its checks, and what is looked at behind them.

ghost use Rattle.std.specs.Prelude.{◌≡◌, ◌∷◌, [], codes, IfOk};
ghost use Rattle.child_jobs.specs.Jobs.{editor_of};
ghost use Rattle.child_steps.specs.Children.{asked, hook_asked, spot_of};
ghost use Rattle.line_steps.specs.Places.{reads};
ghost use Rattle.reading.specs.Beginning.{children_do, denied as denied_by, edited_does, found_does, looks_again, or_hidden, planned_by};
ghost use Rattle.reading.specs.Beginning.{planned_does, pre_rebase_does, refused_by, shows, still_does};
ghost use Rattle.reading.specs.Going.{bad_in};
ghost use Rattle.reading.specs.Looking.{may_begin, unchanged};
ghost use Rattle.reading.specs.State.{todo_hidden as todo_hidden_in, todo_path as path_of_todo, todo_shown as todo_shown_in};
ghost use Rattle.reading.specs.Todos.{todo_kept};
ghost use Rattle.seq_start.specs.Causes.{HasBeginCause, RunsNone};
ghost use Rattle.seq_start.specs.Plans.{IsChecked, IsPlan, plan_with, with_left as control_with};
ghost use Rattle.state_text.specs.Controls.{IsLeft};
ghost use Rattle.seq_outside.specs.Doing.{saying};
ghost use Rattle.seq_outside.specs.Follows.{Follows};
ghost use Rattle.seq_outside.specs.Halts.{Gives, for_reason, halt_cause};
ghost use Rattle.seq_outside.specs.Seen.{Reads, Writes, store_cause};
ghost use Rattle.std.specs.Prelude.{OnOk};
ghost use Rattle.seq_model.specs.Refusing.{told_by};

use crate::looking::{want_clear_way, want_unchanged};
use child_jobs::editor_job;
use child_steps::{ChildEnd, ask_child, ask_hook};
use reading::{Checked, NotBegun, Planned};
use seq_base::Bytes;
use seq_model::{Denial, Refusal, TodoKind};
use seq_outside::{Clock, Exit, Halt, Spawner, Store, StoreError};
use seq_state::{KeptTodo, keep_todo, todo_in};
use state_text::{Control, Left, StateFile, Verb, in_step_path, state_path};
use std::alloc::{AllocError, Global};

fn denied(halt: Halt<Denial>) -> Halt<NotBegun>
    ensures { result ≡ told_by denied_by halt }
{
    match halt {
        Halt::Stops(why) => Halt::Stops(NotBegun { why, failed: false }),
        Halt::Fault => Halt::Fault,
        Halt::Memory => Halt::Memory,
    }
}

fn hook_refused(child: ChildEnd) -> NotBegun
    ensures { result ≡ refused_by (λ exit. Refusal.HookRefused exit) child }
{
    NotBegun {
        why: Denial::Refused(Refusal::HookRefused { exit: child.exit }),
        failed: child.failed,
    }
}

fn editor_failed(child: ChildEnd) -> NotBegun
    ensures { result ≡ refused_by (λ exit. Refusal.EditorFailed exit) child }
{
    NotBegun {
        why: Denial::Refused(Refusal::EditorFailed { exit: child.exit }),
        failed: child.failed,
    }
}

/// The hook may refuse the rebase (githooks(5)).
#[tactic(auto, unfolding(reading::specs::Beginning::pre_rebase_does))]
fn ask_pre_rebase<S: Store, P: Spawner<S>, C: Clock>(
    alloc: Global,
    upstream: &Bytes,
    ran: &mut bool,
    store: &mut S,
    spawner: &mut P,
    clock: &mut C,
) -> Result<(), Halt<NotBegun>>
    ensures follows { S.told → Follows P.ran C.ticked spawner.old clock.old spawner.new clock.new (λ x. x)
        (pre_rebase_does upstream.now) (spot_of (S.seen store.old) ran.old) result (spot_of (S.seen store.new) ran.new) }
    ensures cause { HasBeginCause result (S.seen store.old) (S.seen store.new) (P.seen spawner.old) (P.seen spawner.new) }
{
    let mut words = Vec::new(alloc);
    words.push(upstream.clone()?)?;
    match ask_hook(alloc, b"pre-rebase", &words, ran, store, spawner, clock) {
        Ok(()) => Ok(()),
        Err(Halt::Stops(child)) => Err(Halt::Stops(hook_refused(child))),
        Err(Halt::Fault) => Err(Halt::Fault),
        Err(Halt::Memory) => Err(Halt::Memory),
    }
}

// ---- what is looked at again

/// HEAD, index and files are those with which the list was checked, whatever is left of its todo.
#[tactic(auto, using(crate::proofs::Plans::unchanged_with))]
fn look_at_files<S: Store>(
    alloc: Global,
    control: &Control,
    store: &mut S,
) -> Result<(), Halt<NotBegun>>
    ensures gives { (left : Left) → S.told → Gives (λ x. x) result
        (for_reason denied_by (unchanged (control_with control.now left) (S.seen store.old).content)) }
    ensures none { RunsNone result }
    ensures reads { Reads S.told halt_cause result (S.seen store.old) (S.seen store.new) }
{
    match want_unchanged(alloc, control, store) {
        Ok(()) => Ok(()),
        Err(halt) => Err(denied(halt)),
    }
}

/// HEAD, index and files are as they were, where a child has run.
#[tactic(auto, unfolding(reading::specs::Beginning::still_does))]
fn look_if_ran<S: Store, P: Spawner<S>, C: Clock>(
    alloc: Global,
    control: &Control,
    ran: &mut bool,
    store: &mut S,
    spawner: &mut P,
    clock: &mut C,
) -> Result<(), Halt<NotBegun>>
    ensures follows { (left : Left) → S.told → Follows P.ran C.ticked spawner.old clock.old spawner.new clock.new (λ x. x)
        (still_does (control_with control.now left)) (spot_of (S.seen store.old) ran.old) result (spot_of (S.seen store.new) ran.new) }
    ensures same { S.told → (S.seen store.new).content ≡ (S.seen store.old).content }
    ensures cause { HasBeginCause result (S.seen store.old) (S.seen store.new) (P.seen spawner.old) (P.seen spawner.new) }
{
    if *ran {
        look_at_files(alloc, control, store)?;
    }
    Ok(())
}

#[tactic(auto, using(crate::proofs::Plans::may_begin_with))]
fn look_at_way<S: Store>(
    alloc: Global,
    control: &Control,
    store: &mut S,
) -> Result<(), Halt<NotBegun>>
    ensures gives { (left : Left) → S.told → Gives (λ x. x) result
        (for_reason denied_by (may_begin (control_with control.now left) (S.seen store.old).content)) }
    ensures none { RunsNone result }
    ensures reads { Reads S.told halt_cause result (S.seen store.old) (S.seen store.new) }
{
    match want_clear_way(alloc, control, store) {
        Ok(()) => Ok(()),
        Err(halt) => Err(denied(halt)),
    }
}

/// What a child may have changed is looked at again, and then what is in the way.
#[tactic(auto, unfolding(reading::specs::Beginning::looks_again))]
fn look_again<S: Store, P: Spawner<S>, C: Clock>(
    alloc: Global,
    checked: &Checked,
    todo: KeptTodo,
    ran: &mut bool,
    store: &mut S,
    spawner: &mut P,
    clock: &mut C,
) -> Result<KeptTodo, Halt<NotBegun>>
    ensures follows { S.told → Follows P.ran C.ticked spawner.old clock.old spawner.new clock.new (λ kept. plan_with checked.now kept.left)
        (looks_again (control_with checked.now.control todo.left) checked.now.onto_word)
        (spot_of (S.seen store.old) ran.old) result (spot_of (S.seen store.new) ran.new) }
    ensures todo { IfOk result (λ kept. kept ≡ todo) }
    ensures same { S.told → (S.seen store.new).content ≡ (S.seen store.old).content }
    ensures cause { HasBeginCause result (S.seen store.old) (S.seen store.new) (P.seen spawner.old) (P.seen spawner.new) }
{
    look_if_ran(alloc, &checked.control, ran, store, spawner, clock)?;
    look_at_way(alloc, &checked.control, store)?;
    Ok(todo)
}

/// What is kept of this todo.
fn kept<S: Store>(alloc: Global, todo: &[u8], store: &mut S) -> Result<KeptTodo, Halt<NotBegun>>
    ensures gives { (k : Control) → S.told → Gives (λ kept. control_with k kept.left) result
        (for_reason denied_by (todo_kept k todo.now (S.seen store.old).content)) }
    ensures left { IfOk result (λ kept. IsLeft kept.left) }
    ensures bad { S.told → IfOk result (λ kept. kept.bad ≡ bad_in (S.seen store.old).content kept.left) }
    ensures none { RunsNone result }
    ensures reads { Reads S.told halt_cause result (S.seen store.old) (S.seen store.new) }
{
    match keep_todo(alloc, todo, store) {
        Ok(kept) => Ok(kept),
        Err(halt) => Err(denied(halt)),
    }
}

/// The todo is read.
#[tactic(auto, unfolding(reading::specs::Beginning::planned_does))]
fn plan<S: Store, P: Spawner<S>, C: Clock>(
    alloc: Global,
    checked: &Checked,
    todo: &[u8],
    ran: &mut bool,
    store: &mut S,
    spawner: &mut P,
    clock: &mut C,
) -> Result<KeptTodo, Halt<NotBegun>>
    ensures follows { S.told → Follows P.ran C.ticked spawner.old clock.old spawner.new clock.new (λ kept. plan_with checked.now kept.left)
        (planned_does checked.now todo.now) (spot_of (S.seen store.old) ran.old) result (spot_of (S.seen store.new) ran.new) }
    ensures left { IfOk result (λ kept. IsLeft kept.left) }
    ensures bad { S.told → IfOk result (λ kept. kept.bad ≡ bad_in (S.seen store.new).content kept.left) }
    ensures cause { HasBeginCause result (S.seen store.old) (S.seen store.new) (P.seen spawner.old) (P.seen spawner.new) }
{
    let todo = kept(alloc, todo, store)?;
    look_again(alloc, checked, todo, ran, store, spawner, clock)
}

// ---- the todo's editor

/// The todo stands in its file, and an invocation is at work.
#[tactic(auto, unfolding(reading::specs::State::todo_shown))]
fn show_todo<S: Store>(alloc: Global, todo: &[u8], store: &mut S) -> Result<(), StoreError>
    ensures left { S.told → OnOk result ((S.seen store.new).content ≡ todo_shown_in todo.now (S.seen store.old).content) }
    ensures writes { Writes S.told store_cause result (S.seen store.old) (S.seen store.new) }
{
    store.put(alloc, in_step_path(Verb::Rebase), b"rebase\n")?;
    store.put(alloc, state_path(Verb::Rebase, StateFile::RebaseTodo), todo)
}

/// Both are taken away again.
#[tactic(auto, unfolding(reading::specs::State::todo_hidden))]
fn hide_todo<S: Store>(alloc: Global, store: &mut S) -> Result<(), StoreError>
    ensures left { S.told → OnOk result ((S.seen store.new).content ≡ todo_hidden_in (S.seen store.old).content) }
    ensures writes { Writes S.told store_cause result (S.seen store.old) (S.seen store.new) }
{
    let _todo = store.remove(alloc, state_path(Verb::Rebase, StateFile::RebaseTodo))?;
    let _step = store.remove(alloc, in_step_path(Verb::Rebase))?;
    Ok(())
}

fn show<S: Store, P: Spawner<S>, C: Clock>(
    alloc: Global,
    todo: &[u8],
    ran: &mut bool,
    store: &mut S,
    spawner: &mut P,
    clock: &mut C,
) -> Result<(), Halt<NotBegun>>
    ensures follows { S.told → Follows P.ran C.ticked spawner.old clock.old spawner.new clock.new (λ x. x)
        (shows todo.now) (spot_of (S.seen store.old) ran.old) result (spot_of (S.seen store.new) ran.new) }
    ensures cause { HasBeginCause result (S.seen store.old) (S.seen store.new) (P.seen spawner.old) (P.seen spawner.new) }
{
    show_todo(alloc, todo, store)?;
    Ok(())
}

fn ask_editor<S: Store, P: Spawner<S>, C: Clock>(
    alloc: Global,
    editor: &[u8],
    ran: &mut bool,
    store: &mut S,
    spawner: &mut P,
    clock: &mut C,
) -> Result<(), Halt<NotBegun>>
    ensures follows { S.told → Follows P.ran C.ticked spawner.old clock.old spawner.new clock.new (λ x. x)
        (saying (refused_by (λ exit. Refusal.EditorFailed exit)) (asked (editor_of editor.now path_of_todo)))
        (spot_of (S.seen store.old) ran.old) result (spot_of (S.seen store.new) ran.new) }
    ensures cause { HasBeginCause result (S.seen store.old) (S.seen store.new) (P.seen spawner.old) (P.seen spawner.new) }
{
    let job = editor_job(
        alloc,
        editor,
        state_path(Verb::Rebase, StateFile::RebaseTodo),
    )?;
    match ask_child(alloc, &job, ran, store, spawner, clock) {
        Ok(()) => Ok(()),
        Err(Halt::Stops(child)) => Err(Halt::Stops(editor_failed(child))),
        Err(Halt::Fault) => Err(Halt::Fault),
        Err(Halt::Memory) => Err(Halt::Memory),
    }
}

/// The todo as it is found.
#[tactic(auto, unfolding(reading::specs::Beginning::found_does))]
fn plan_found<S: Store, P: Spawner<S>, C: Clock>(
    alloc: Global,
    checked: &Checked,
    ran: &mut bool,
    store: &mut S,
    spawner: &mut P,
    clock: &mut C,
) -> Result<KeptTodo, Halt<NotBegun>>
    ensures follows { S.told → Follows P.ran C.ticked spawner.old clock.old spawner.new clock.new (λ kept. plan_with checked.now kept.left)
        (found_does checked.now) (spot_of (S.seen store.old) ran.old) result (spot_of (S.seen store.new) ran.new) }
    ensures left { IfOk result (λ kept. IsLeft kept.left) }
    ensures bad { S.told → IfOk result (λ kept. kept.bad ≡ bad_in (S.seen store.new).content kept.left) }
    ensures cause { HasBeginCause result (S.seen store.old) (S.seen store.new) (P.seen spawner.old) (P.seen spawner.new) }
{
    let todo = todo_in(alloc, store)?;
    plan(alloc, checked, &todo, ran, store, spawner, clock)
}

/// The todo is shown to its editor, and taken as that left it.
#[tactic(auto, unfolding(reading::specs::Beginning::edited_does))]
fn edit<S: Store, P: Spawner<S>, C: Clock>(
    alloc: Global,
    checked: &Checked,
    editor: &[u8],
    ran: &mut bool,
    store: &mut S,
    spawner: &mut P,
    clock: &mut C,
) -> Result<KeptTodo, Halt<NotBegun>>
    ensures follows { S.told → Follows P.ran C.ticked spawner.old clock.old spawner.new clock.new (λ kept. plan_with checked.now kept.left)
        (edited_does checked.now editor.now) (spot_of (S.seen store.old) ran.old) result (spot_of (S.seen store.new) ran.new) }
    ensures left { IfOk result (λ kept. IsLeft kept.left) }
    ensures bad { S.told → IfOk result (λ kept. kept.bad ≡ bad_in (S.seen store.new).content kept.left) }
    ensures cause { HasBeginCause result (S.seen store.old) (S.seen store.new) (P.seen spawner.old) (P.seen spawner.new) }
{
    let todo = checked.control.backup.as_slice();
    show(alloc, todo, ran, store, spawner, clock)?;
    ask_editor(alloc, editor, ran, store, spawner, clock)?;
    plan_found(alloc, checked, ran, store, spawner, clock)
}

/// The same; where it stops, the todo is taken away again.
fn edit_or_hide<S: Store, P: Spawner<S>, C: Clock>(
    alloc: Global,
    checked: &Checked,
    editor: &[u8],
    ran: &mut bool,
    store: &mut S,
    spawner: &mut P,
    clock: &mut C,
) -> Result<KeptTodo, Halt<NotBegun>>
    ensures follows { S.told → Follows P.ran C.ticked spawner.old clock.old spawner.new clock.new (λ kept. plan_with checked.now kept.left)
        (or_hidden (edited_does checked.now editor.now)) (spot_of (S.seen store.old) ran.old) result (spot_of (S.seen store.new) ran.new) }
    ensures left { IfOk result (λ kept. IsLeft kept.left) }
    ensures bad { S.told → IfOk result (λ kept. kept.bad ≡ bad_in (S.seen store.new).content kept.left) }
    ensures cause { HasBeginCause result (S.seen store.old) (S.seen store.new) (P.seen spawner.old) (P.seen spawner.new) }
{
    match edit(alloc, checked, editor, ran, store, spawner, clock) {
        Ok(kept) => Ok(kept),
        Err(Halt::Stops(why)) => {
            hide_todo(alloc, store)?;
            Err(Halt::Stops(why))
        }
        Err(Halt::Fault) => Err(Halt::Fault),
        Err(Halt::Memory) => Err(Halt::Memory),
    }
}

fn plan_by<S: Store, P: Spawner<S>, C: Clock>(
    alloc: Global,
    checked: &Checked,
    ran: &mut bool,
    store: &mut S,
    spawner: &mut P,
    clock: &mut C,
) -> Result<KeptTodo, Halt<NotBegun>>
    ensures follows { S.told → Follows P.ran C.ticked spawner.old clock.old spawner.new clock.new (λ kept. plan_with checked.now kept.left)
        (planned_by checked.now checked.now.editor) (spot_of (S.seen store.old) ran.old) result (spot_of (S.seen store.new) ran.new) }
    ensures left { IfOk result (λ kept. IsLeft kept.left) }
    ensures bad { S.told → IfOk result (λ kept. kept.bad ≡ bad_in (S.seen store.new).content kept.left) }
    ensures cause { HasBeginCause result (S.seen store.old) (S.seen store.new) (P.seen spawner.old) (P.seen spawner.new) }
{
    match &checked.editor {
        Some(editor) => edit_or_hide(
            alloc,
            checked,
            editor.as_slice(),
            ran,
            store,
            spawner,
            clock,
        ),
        None => plan(
            alloc,
            checked,
            checked.control.backup.as_slice(),
            ran,
            store,
            spawner,
            clock,
        ),
    }
}

/// The children of a start are run, and what they may have changed is looked at again.
#[tactic(auto, unfolding(reading::specs::Beginning::children_do))]
fn ask_children<S: Store, P: Spawner<S>, C: Clock>(
    alloc: Global,
    checked: &Checked,
    ran: &mut bool,
    store: &mut S,
    spawner: &mut P,
    clock: &mut C,
) -> Result<KeptTodo, Halt<NotBegun>>
    ensures follows { S.told → Follows P.ran C.ticked spawner.old clock.old spawner.new clock.new (λ kept. plan_with checked.now kept.left)
        (children_do checked.now) (spot_of (S.seen store.old) ran.old) result (spot_of (S.seen store.new) ran.new) }
    ensures left { IfOk result (λ kept. IsLeft kept.left) }
    ensures bad { S.told → IfOk result (λ kept. kept.bad ≡ bad_in (S.seen store.new).content kept.left) }
    ensures cause { HasBeginCause result (S.seen store.old) (S.seen store.new) (P.seen spawner.old) (P.seen spawner.new) }
{
    ask_pre_rebase(alloc, &checked.upstream, ran, store, spawner, clock)?;
    plan_by(alloc, checked, ran, store, spawner, clock)
}

// ---- the plan

fn with_left(control: Control, left: Left) -> Control
    ensures { result ≡ control_with control left }
{
    Control {
        verb: control.verb,
        options: control.options,
        head_name: control.head_name,
        orig: control.orig,
        onto: control.onto,
        done: control.done,
        left,
        backup: control.backup,
        labels: control.labels,
        updates: control.updates,
        rewritten: control.rewritten,
        waiting: control.waiting,
        chain: control.chain,
        stop: control.stop,
        stopped_head: control.stopped_head,
        stopped_commit: control.stopped_commit,
        pending: control.pending,
    }
}

/// A start that begins: its plan, and the first bad line of a todo that does not read.
#[derive(Drop)]
pub struct Beginning {
    pub plan: Planned,
    pub bad: Option<(u64, TodoKind)>,
}

fn planned(checked: Checked, todo: KeptTodo) -> Beginning
    requires checked { IsChecked checked }
    requires left { IsLeft todo.left }
    ensures is { result ≡ record { plan = plan_with checked todo.left; bad = todo.bad } }
    ensures plan { IsPlan result.plan }
{
    let plan = Planned {
        control: with_left(checked.control, todo.left),
        onto_word: checked.onto_word,
    };
    Beginning {
        plan,
        bad: todo.bad,
    }
}

/// A start that was checked: its own children are run, and what they may have changed is looked at again.
pub fn begin_checked<S: Store, P: Spawner<S>, C: Clock>(
    alloc: Global,
    checked: Checked,
    ran: &mut bool,
    store: &mut S,
    spawner: &mut P,
    clock: &mut C,
) -> Result<Beginning, Halt<NotBegun>>
    requires { IsChecked checked }
    ensures follows { S.told → Follows P.ran C.ticked spawner.old clock.old spawner.new clock.new (λ begun. begun.plan)
        (children_do checked) (spot_of (S.seen store.old) ran.old) result (spot_of (S.seen store.new) ran.new) }
    ensures plan { IfOk result (λ begun. IsPlan begun.plan) }
    ensures bad { S.told → IfOk result (λ begun. begun.bad ≡ bad_in (S.seen store.new).content begun.plan.control.left) }
    ensures cause { HasBeginCause result (S.seen store.old) (S.seen store.new) (P.seen spawner.old) (P.seen spawner.new) }
{
    match ask_children(alloc, &checked, ran, store, spawner, clock) {
        Ok(todo) => Ok(planned(checked, todo)),
        Err(halt) => Err(halt),
    }
}
