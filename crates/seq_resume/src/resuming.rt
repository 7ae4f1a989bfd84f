//! Whether a stopped list is gone on with, as it is found.

ghost use Rattle.std.specs.Prelude.{◌≡◌, ℤ, All, drop, IfOk, IsErrOf, Some};
ghost use Rattle.index_file.specs.Entries.{IsInOrder, IsIndex};
ghost use Rattle.line_steps.specs.Finding.{map_held as map_held_by};
ghost use Rattle.reading.specs.Resuming.{asks_staged as asks_staged_by, is_amend as is_amend_form, lines_after as lines_after_by};
ghost use Rattle.reading.specs.Resuming.{may_continue, may_go, may_reset};
ghost use Rattle.reading.specs.Resuming.{resumes as resumes_by, resumes_at, resumes_with, staged_known, staged_refused};
ghost use Rattle.reading.specs.Resuming.{was_put_back as was_put_back_at};
ghost use Rattle.seq_start.specs.Checks.{checks, opened_is};
ghost use Rattle.seq_model.specs.Committers.{committer_in};
ghost use Rattle.seq_model.specs.Refusing.{denied_file, refuse_found};
ghost use Rattle.seq_outside.specs.Env.{IsZone};
ghost use Rattle.seq_outside.specs.Halts.{Gives, for_reason, halt_cause};
ghost use Rattle.seq_outside.specs.Seen.{Reads};
ghost use Rattle.seq_step.specs.Settings.{MayCommit};
ghost use Rattle.stage_index.specs.Changes.{changed, staged};
ghost use Rattle.todo_text.specs.Spells.{IsSpelled};
ghost use Rattle.worktree.specs.Resets.{rows_readable};

use crate::going::{map_held, resets_at};
use crate::pending::has_moved;
use config_text::Config;
use content_merge::IndexEntries;
use index_file::IndexEntry;
use line_steps::Setting;
use reading::{Again, Going};
use seq_base::{Bytes, Id, Path, PathMap};
use seq_model::{Committer, Denial, Refusal, refused};
use seq_outside::{Env, Halt, Store};
use seq_start::{Opened, open, setting_of};
use seq_state::read_todo;
use stage_index::{from_map, staged_path};
use start_checks::{born, commit_map, committer, file_halt, want_merged};
use state_text::{Control, Form, Lines, Pending, StopWord};
use std::alloc::Global;
use todo_text::Line;
use worktree::{check_rows, first_change};

// ---- continue

fn is_amend(form: Form) -> bool
    ensures { result ≡ is_amend_form form }
{
    match form {
        Form::Amend => true,
        Form::New | Form::Merge(_) => false,
    }
}

/// What is staged is looked at, unless it is what a pending commit is made of.
fn asks_staged(moved: bool, pending: &Option<Pending>) -> bool
    ensures { result ≡ asks_staged_by moved pending.now }
{
    match pending {
        None => true,
        Some(pending) => moved || is_amend(pending.form),
    }
}

/// Stops where a tracked file differs from the index.
fn want_added<S: Store>(
    alloc: Global,
    index: &[IndexEntry],
    store: &mut S,
) -> Result<(), Halt<Denial>>
    requires { IsInOrder index.now }
    ensures gives { S.told → Gives (λ x. x) result (refuse_found (changed (S.seen store.old).content index.now) Refusal.Unstaged) }
    ensures reads { Reads S.told halt_cause result (S.seen store.old) (S.seen store.new) }
{
    match first_change(alloc, store, index)? {
        Some(path) => {
            let path = Bytes::from_vec(path.bytes().to_vec(alloc)?);
            Err(refused(Refusal::Unstaged { path }))
        }
        None => Ok(()),
    }
}

/// Stops where the path that is staged belongs to no pending commit.
fn refuse_path(
    alloc: Global,
    moved: bool,
    head: Id,
    pending: &Option<Pending>,
    path: &Path,
) -> Result<(), Halt<Denial>>
    ensures gives { Gives (λ x. x) result (staged_refused moved head pending.now (Some path.now)) }
    ensures no_fault { IsErrOf result Halt.Fault → ⊥ }
{
    match pending {
        None => {
            let path = Bytes::from_vec(path.bytes().to_vec(alloc)?);
            Err(refused(Refusal::Staged { path }))
        }
        Some(_) => {
            if moved {
                return Err(refused(Refusal::HeadMoved { found: Some(head) }));
            }
            Ok(())
        }
    }
}

/// Stops where something is staged that belongs to no pending commit.
fn refuse_staged(
    alloc: Global,
    moved: bool,
    head: Id,
    pending: &Option<Pending>,
    index: &[IndexEntry],
    ours: &PathMap,
) -> Result<(), Halt<Denial>>
    requires { IsInOrder index.now }
    ensures gives { Gives (λ x. x) result (staged_refused moved head pending.now (staged index.now ours.now)) }
    ensures no_fault { IsErrOf result Halt.Fault → ⊥ }
{
    match staged_path(index, ours) {
        Some(path) => refuse_path(alloc, moved, head, pending, path),
        None => Ok(()),
    }
}

#[tactic(auto, unfolding(reading::specs::Resuming::staged_known))]
fn want_known<S: Store>(
    alloc: Global,
    control: &Control,
    head: Id,
    index: &[IndexEntry],
    store: &mut S,
) -> Result<(), Halt<Denial>>
    requires { IsInOrder index.now }
    ensures gives { S.told → Gives (λ x. x) result (staged_known control.now head index.now (S.seen store.old).content) }
    ensures reads { Reads S.told halt_cause result (S.seen store.old) (S.seen store.new) }
{
    let ours = commit_map(alloc, head, store)?;
    refuse_staged(
        alloc,
        has_moved(control, head),
        head,
        &control.pending,
        index,
        &ours,
    )
}

/// All conflicts are resolved, all files are added, and what is staged belongs to the pending commit.
#[tactic(auto, unfolding(reading::specs::Resuming::may_continue))]
fn want_continuable<S: Store>(
    alloc: Global,
    control: &Control,
    head: Id,
    index: &[IndexEntry],
    store: &mut S,
) -> Result<(), Halt<Denial>>
    requires { IsInOrder index.now }
    ensures gives { S.told → Gives (λ x. x) result (may_continue control.now head index.now (S.seen store.old).content) }
    ensures reads { Reads S.told halt_cause result (S.seen store.old) (S.seen store.new) }
{
    want_merged(alloc, index)?;
    want_added(alloc, index, store)?;
    if asks_staged(has_moved(control, head), &control.pending) {
        return want_known(alloc, control, head, index, store);
    }
    Ok(())
}

// ---- skip

fn was_put_back(control: &Control) -> bool
    ensures { result ≡ was_put_back_at control.now control.now.stop }
{
    match control.stop {
        StopWord::ExecFailed => control.options.reschedule,
        StopWord::DriverBroken => true,
        StopWord::Blocked => control.pending.is_none(),
        _ => false,
    }
}

fn held<S: Store>(alloc: Global, head: Id, store: &mut S) -> Result<PathMap, Halt<Denial>>
    ensures gives { S.told → Gives (λ m. m) result (for_reason denied_file (map_held_by head (S.seen store.old).content)) }
    ensures reads { Reads S.told halt_cause result (S.seen store.old) (S.seen store.new) }
{
    match map_held(alloc, head, store) {
        Ok(map) => Ok(map),
        Err(halt) => Err(file_halt(halt)),
    }
}

fn want_blobs<S: Store>(alloc: Global, ours: &PathMap, store: &mut S) -> Result<(), Halt<Denial>>
    ensures gives { S.told → Gives (λ x. x) result (for_reason denied_file (rows_readable (S.seen store.old).content ours.now)) }
    ensures reads { Reads S.told halt_cause result (S.seen store.old) (S.seen store.new) }
{
    let index = from_map(alloc, ours)?;
    match check_rows(alloc, store, &index) {
        Ok(()) => Ok(()),
        Err(halt) => Err(file_halt(halt)),
    }
}

/// Index and files can be reset.
#[tactic(auto, unfolding(reading::specs::Resuming::may_reset))]
pub fn want_resettable<S: Store>(alloc: Global, head: Id, store: &mut S) -> Result<(), Halt<Denial>>
    ensures gives { S.told → Gives (λ x. x) result (may_reset head (S.seen store.old).content) }
    ensures reads { Reads S.told halt_cause result (S.seen store.old) (S.seen store.new) }
{
    let ours = held(alloc, head, store)?;
    want_blobs(alloc, &ours, store)
}

// ---- both

fn want_going<S: Store>(
    alloc: Global,
    again: Again,
    control: &Control,
    head: Id,
    index: &[IndexEntry],
    store: &mut S,
) -> Result<(), Halt<Denial>>
    requires { IsInOrder index.now }
    ensures gives { S.told → Gives (λ x. x) result (may_go again control.now head index.now (S.seen store.old).content) }
    ensures reads { Reads S.told halt_cause result (S.seen store.old) (S.seen store.new) }
{
    match again {
        Again::Continue => want_continuable(alloc, control, head, index, store),
        Again::Skip => {
            if resets_at(control.stop) {
                return want_resettable(alloc, head, store);
            }
            Ok(())
        }
    }
}

/// The lines but the first.
fn without_first(lines: Vec<Line>) -> Vec<Line>
    ensures others { result.items ≡ drop 1 lines.items }
    ensures spelled { All IsSpelled lines.items → All IsSpelled result.items }
{
    let mut others = lines;
    if others.is_empty() {
        return others;
    }
    let _first = others.remove(0);
    others
}

/// The lines that are gone on with.
fn lines_after(again: Again, control: &Control, lines: Vec<Line>) -> Vec<Line>
    ensures left { result.items ≡ lines_after_by again control.now lines.items }
    ensures spelled { All IsSpelled lines.items → All IsSpelled result.items }
{
    match again {
        Again::Continue => lines,
        Again::Skip => {
            if was_put_back(control) {
                return without_first(lines);
            }
            lines
        }
    }
}

/// HEAD is at this commit, and the turn is given this.
#[tactic(auto, unfolding(reading::specs::Resuming::resumes_at))]
fn resume_at<S: Store>(
    alloc: Global,
    again: Again,
    control: &Control,
    lines: Vec<Line>,
    index: Vec<IndexEntry>,
    head: Id,
    setting: Setting,
    store: &mut S,
) -> Result<Going, Halt<Denial>>
    requires order { IsInOrder index.items }
    requires spelled { All IsSpelled lines.items }
    requires setting { MayCommit setting }
    ensures gives { S.told → Gives (λ going. going) result
        (resumes_at again control.now lines.items index.items head setting (S.seen store.old).content) }
    ensures may { IfOk result (λ going. MayCommit going.setting) }
    ensures index { IfOk result (λ going. going.index ≡ index.items) }
    ensures lines { IfOk result (λ going. All IsSpelled going.left) }
    ensures reads { Reads S.told halt_cause result (S.seen store.old) (S.seen store.new) }
{
    want_going(alloc, again, control, head, &index, store)?;
    Ok(Going {
        setting,
        left: Lines::from_vec(lines_after(again, control, lines)),
        head,
        index: IndexEntries::from_vec(index),
    })
}

/// Who commits in the turn.
pub fn find_committer(alloc: Global, env: &Env, config: &Config) -> Result<Committer, Halt<Denial>>
    requires zone { IsZone env.now.zone }
    ensures gives { Gives (λ committer. committer) result (committer_in env.now.vars config.now) }
    ensures may { IfOk result (λ who. (secs : ℤ) → MayCommit (record { env = env.now; secs = secs; config = config.now; committer = who })) }
    ensures no_fault { IsErrOf result Halt.Fault → ⊥ }
{
    let who = committer(alloc, env.vars.as_slice(), config)?;
    Ok(who)
}

/// These are its lines.
#[tactic(auto, unfolding(reading::specs::Resuming::resumes_with, seq_model::specs::Checks::born))]
fn resume_with<S: Store>(
    alloc: Global,
    again: Again,
    env: &Env,
    secs: i64,
    control: &Control,
    opened: Opened,
    lines: Vec<Line>,
    store: &mut S,
) -> Result<Going, Halt<Denial>>
    requires zone { IsZone env.now.zone }
    requires index { IsIndex opened.index.items }
    requires spelled { All IsSpelled lines.items }
    ensures gives { S.told → Gives (λ going. going) result
        (resumes_with checks again env.now secs control.now (opened_is opened) lines.items (S.seen store.old).content) }
    ensures may { IfOk result (λ going. MayCommit going.setting) }
    ensures index { IfOk result (λ going. IsIndex going.index) }
    ensures lines { IfOk result (λ going. All IsSpelled going.left) }
    ensures reads { Reads S.told halt_cause result (S.seen store.old) (S.seen store.new) }
{
    let head = born(opened.head)?;
    let committer = find_committer(alloc, env, &opened.config)?;
    let setting = setting_of(alloc, env, secs, opened.config, committer)?;
    resume_at(
        alloc,
        again,
        control,
        lines,
        opened.index,
        head,
        setting,
        store,
    )
}

/// The list is gone on with, or it is denied. Nothing is changed.
#[tactic(auto, unfolding(reading::specs::Resuming::resumes))]
pub fn judge_resuming<S: Store>(
    alloc: Global,
    again: Again,
    env: &Env,
    secs: i64,
    control: &Control,
    store: &mut S,
) -> Result<Going, Halt<Denial>>
    requires zone { IsZone env.now.zone }
    ensures gives { S.told → Gives (λ going. going) result (resumes_by checks again env.now secs control.now (S.seen store.old).content) }
    ensures may { IfOk result (λ going. MayCommit going.setting) }
    ensures index { IfOk result (λ going. IsIndex going.index) }
    ensures lines { IfOk result (λ going. All IsSpelled going.left) }
    ensures reads { Reads S.told halt_cause result (S.seen store.old) (S.seen store.new) }
{
    let opened = open(alloc, store)?;
    let lines = read_todo(alloc, control, store)?;
    resume_with(alloc, again, env, secs, control, opened, lines, store)
}
