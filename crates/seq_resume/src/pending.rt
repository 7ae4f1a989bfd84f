//! A pending commit is made, where a list is continued.

ghost use Rattle.std.specs.List.{list_any};
ghost use Rattle.std.specs.Prelude.{◌≡◌, ◌++◌, codes, IfOk, IsErrOf, Some};
ghost use Rattle.std.specs.Str.{bytes_eq};
ghost use Rattle.child_steps.specs.Causes.{HasStepCause};
ghost use Rattle.child_steps.specs.Children.{spot_of};
ghost use Rattle.commit_maker.specs.Causes.{stop_failed as make_failed};
ghost use Rattle.commit_maker.specs.Commits.{CanBeMade, IsMade};
ghost use Rattle.index_file.specs.Entries.{IsInOrder, IsIndex};
ghost use Rattle.line_steps.specs.Finding.{found_at};
ghost use Rattle.line_steps.specs.Making.{commits_by};
ghost use Rattle.line_steps.specs.Picks.{unseen_within};
ghost use Rattle.line_steps.specs.Places.{writes};
ghost use Rattle.line_steps.specs.Writing.{head_moved as head_moved_to, is_same as is_same_map, tree_put};
ghost use Rattle.reading.specs.Going.{commit_pending as commit_pending_by, continue_does, continue_line as continue_line_of};
ghost use Rattle.reading.specs.Going.{continued_does, continued_heads, hook_waits_once, if_nothing_staged};
ghost use Rattle.reading.specs.Going.{pending_blocked as pending_blocked_by, pending_does, pending_lacks as pending_lacks_by};
ghost use Rattle.reading.specs.Going.{pending_making as pending_making_of, pending_map_does, pending_misfit, pending_parents as pending_parents_of};
ghost use Rattle.reading.specs.Going.{pending_source as pending_source_of, pending_stop as pending_stop_by, pending_tree_does};
ghost use Rattle.reading.specs.Going.{pending_unmade as pending_unmade_by, resolved_empty, resolved_form, stop_empty as stop_empty_by};
ghost use Rattle.reading.specs.Going.{unless_nothing_staged};
ghost use Rattle.reading.specs.Going.{waits_once, with_waiting as with_waiting_of};
ghost use Rattle.reading.specs.Resuming.{has_moved as has_moved_from};
ghost use Rattle.ref_text.specs.Logs.{IsLogValue, IsMessage};
ghost use Rattle.seq_outside.specs.Doing.{saying};
ghost use Rattle.seq_outside.specs.Follows.{Follows};
ghost use Rattle.seq_outside.specs.Halts.{Gives, for_reason, halt_cause};
ghost use Rattle.seq_outside.specs.Seen.{Reads};
ghost use Rattle.seq_resume.specs.Pendings.{HasPending, StaysPending};
ghost use Rattle.seq_step.specs.Causes.{stop_failed};
ghost use Rattle.seq_step.specs.Finding.{found_is};
ghost use Rattle.seq_step.specs.Keeping.{CanBeKept, Keeps};
ghost use Rattle.seq_step.specs.Settings.{MayCommit};
ghost use Rattle.stage_index.specs.Mapping.{mapped};
ghost use Rattle.stage_index.specs.Stages.{map_of};
ghost use Rattle.state_text.specs.Controls.{IsPending};

use commit_maker::{Made, MakeStop, Making, Source};
use ident_text::Ident;
use index_file::IndexEntry;
use line_steps::{Place, Setting, Stop};
use object_text::Ids as Parents;
use reading::Going;
use ref_text::LogLine;
use seq_base::{Bytes, Id, PathMap};
use seq_model::{Reason, StopKind};
use seq_outside::{Clock, Halt, Lack, Spawner, Store};
use seq_step::{
    Found, copy_of_any, found_in, head_moved, make_beside, put_tree, reason_of, run_hook, value_of,
    with_id,
};
use stage_index::{StageFault, staged_path, to_map};
use state_text::{Control, Empty, Form, Ids, Pending, StopWord};
use std::alloc::{AllocError, Global};

// ---- stops

fn copy_of_ident(ident: &Option<Ident>) -> Result<Option<Ident>, AllocError>
    ensures { IfOk result (λ copy. copy ≡ ident.now) }
{
    match ident {
        Some(ident) => Ok(Some(ident.clone()?)),
        None => Ok(None),
    }
}

fn copy_of(edit: bool, pending: &Pending) -> Result<Pending, AllocError>
    ensures { IfOk result (λ copy. copy ≡ record pending.now { edit = edit }) }
{
    Ok(Pending {
        form: pending.form,
        edit,
        author: copy_of_ident(&pending.author)?,
        encoding: copy_of_any(&pending.encoding)?,
        message: pending.message.clone()?,
    })
}

/// Its line stays done, and it stays pending.
#[tactic(auto, using(crate::proofs::Pendings::stays_pending))]
fn pending_stop(
    control: &Control,
    pending: &Pending,
    kind: StopKind,
    failed: bool,
) -> Result<Stop, AllocError>
    requires pending { IsPending pending.now }
    ensures stop { IfOk result (λ stop. stop ≡ record (pending_stop_by control.now pending.now kind) { failed = failed }) }
    ensures kept { IfOk result CanBeKept }
{
    Ok(Stop {
        kind,
        put_back: false,
        pending: Some(copy_of(pending.edit, pending)?),
        commit: control.stopped_commit,
        failed,
    })
}

fn pending_blocked(control: &Control, pending: &Pending, why: Reason) -> Result<Stop, AllocError>
    requires pending { IsPending pending.now }
    ensures stop { IfOk result (λ stop. stop ≡ pending_blocked_by control.now pending.now why) }
    ensures kept { IfOk result CanBeKept }
{
    pending_stop(control, pending, StopKind::Blocked(why), false)
}

fn pending_lacks(control: &Control, pending: &Pending, lack: Lack) -> Result<Stop, AllocError>
    requires pending { IsPending pending.now }
    ensures stop { IfOk result (λ stop. stop ≡ pending_lacks_by control.now pending.now lack) }
    ensures kept { IfOk result CanBeKept }
{
    pending_blocked(control, pending, reason_of(lack))
}

fn pending_unmade(control: &Control, pending: &Pending, why: MakeStop) -> Result<Stop, AllocError>
    requires pending { IsPending pending.now }
    ensures stop { IfOk result (λ stop. stop ≡ pending_unmade_by control.now pending.now why) }
    ensures failed { IfOk result (λ stop. stop.failed ≡ make_failed why) }
    ensures kept { IfOk result CanBeKept }
{
    match why {
        MakeStop::HookRefused { name, exit, failed } => {
            pending_stop(
                control,
                pending,
                StopKind::HookRefused { name, exit },
                failed,
            )
        }
        MakeStop::EditorFailed { exit, failed } => {
            pending_stop(control, pending, StopKind::EditorFailed { exit }, failed)
        }
        MakeStop::EmptyMessage => pending_stop(control, pending, StopKind::EmptyMessage, false),
        MakeStop::Lacks(lack) => pending_lacks(control, pending, lack),
    }
}

// ---- the commit

fn pending_parents(
    alloc: Global,
    head: Id,
    parents: &[Id],
    form: Form,
) -> Result<Parents, AllocError>
    ensures { IfOk result (λ ids. ids ≡ pending_parents_of head parents.now form) }
{
    match form {
        Form::New => Ok(Parents::from_vec(vec![in alloc; head]?)),
        Form::Amend => Ok(Parents::from_vec(Vec::from_slice(alloc, parents)?)),
        Form::Merge(other) => Ok(Parents::from_vec(vec![in alloc; head, other]?)),
    }
}

fn pending_source(form: Form) -> Source
    ensures { result ≡ pending_source_of form }
{
    match form {
        Form::New | Form::Amend => Source::Message,
        Form::Merge(_) => Source::Merge,
    }
}

#[tactic(auto, using(crate::proofs::Pendings::can_be_made))]
fn pending_making(
    alloc: Global,
    head: Id,
    parents: &[Id],
    tree: Id,
    pending: &Pending,
) -> Result<Making, AllocError>
    requires pending { IsPending pending.now }
    ensures making { IfOk result (λ making. making ≡ pending_making_of head parents.now tree pending.now) }
    ensures can { IfOk result CanBeMade }
{
    let author = copy_of_ident(&pending.author)?;
    Ok(Making {
        tree,
        parents: pending_parents(alloc, head, parents, pending.form)?,
        author,
        encoding: copy_of_any(&pending.encoding)?,
        message: pending.message.clone()?,
        chain: false,
        edit: pending.edit,
        source: pending_source(pending.form),
    })
}

fn has_id(ids: &[Id], id: Id) -> bool
    ensures { result ≡ list_any (λ other. bytes_eq other id) ids.now }
{
    ids.iter().any(|other| other.bytes() == id.bytes())
}

fn copy_of_ids(alloc: Global, ids: &Ids) -> Result<Ids, AllocError>
    ensures { IfOk result (λ copy. copy ≡ ids.now) }
{
    Ok(Ids::from_vec(Vec::from_slice(alloc, ids.as_slice())?))
}

/// The id waits once.
fn with_once(alloc: Global, waiting: &Ids, id: Id) -> Result<Ids, AllocError>
    ensures { IfOk result (λ more. more ≡ with_waiting_of waiting.now (Some id)) }
{
    if has_id(waiting.as_slice(), id) {
        return copy_of_ids(alloc, waiting);
    }
    with_id(alloc, waiting, id)
}

fn with_waiting(alloc: Global, waiting: &Ids, commit: Option<Id>) -> Result<Ids, AllocError>
    ensures { IfOk result (λ more. more ≡ with_waiting_of waiting.now commit) }
{
    match commit {
        None => copy_of_ids(alloc, waiting),
        Some(id) => with_once(alloc, waiting, id),
    }
}

/// The commit waits to be paired with what became of it, if it does not wait already.
fn wait_once<S: Store, P: Spawner<S>, C: Clock>(
    alloc: Global,
    commit: Option<Id>,
    place: &mut Place,
    store: &mut S,
    spawner: &mut P,
    clock: &mut C,
) -> Result<(), Halt<Stop>>
    ensures follows { S.told → Follows P.ran C.ticked spawner.old clock.old spawner.new clock.new (λ x. x)
        (waits_once commit) (spot_of (S.seen store.old) place.old) result (spot_of (S.seen store.new) place.new) }
    ensures cause { HasStepCause S.told stop_failed result (S.seen store.old) (S.seen store.new) (P.seen spawner.old) (P.seen spawner.new) }
    ensures keeps { Keeps place.old result place.new }
{
    place.waiting = with_waiting(alloc, &place.waiting, commit)?;
    Ok(())
}

/// The hook of a commit that was made is run.
#[tactic(auto, unfolding(reading::specs::Going::hook_waits_once))]
fn run_post_commit<S: Store, P: Spawner<S>, C: Clock>(
    alloc: Global,
    commit: Option<Id>,
    place: &mut Place,
    store: &mut S,
    spawner: &mut P,
    clock: &mut C,
) -> Result<(), Halt<Stop>>
    ensures follows { S.told → Follows P.ran C.ticked spawner.old clock.old spawner.new clock.new (λ x. x)
        (hook_waits_once commit) (spot_of (S.seen store.old) place.old) result (spot_of (S.seen store.new) place.new) }
    ensures cause { HasStepCause S.told stop_failed result (S.seen store.old) (S.seen store.new) (P.seen spawner.old) (P.seen spawner.new) }
    ensures keeps { Keeps place.old result place.new }
{
    let arguments = Vec::new(alloc);
    run_hook(
        alloc,
        b"post-commit",
        &arguments,
        b"",
        place,
        store,
        spawner,
        clock,
    )?;
    wait_once(alloc, commit, place, store, spawner, clock)
}

/// HEAD is at a commit that was made.
#[tactic(auto, unfolding(reading::specs::Going::continued_heads))]
fn take_made<S: Store, P: Spawner<S>, C: Clock>(
    alloc: Global,
    id: Id,
    commit: Option<Id>,
    place: &mut Place,
    store: &mut S,
    spawner: &mut P,
    clock: &mut C,
) -> Result<(), Halt<Stop>>
    ensures follows { S.told → Follows P.ran C.ticked spawner.old clock.old spawner.new clock.new (λ x. x)
        (continued_heads id commit) (spot_of (S.seen store.old) place.old) result (spot_of (S.seen store.new) place.new) }
    ensures cause { HasStepCause S.told stop_failed result (S.seen store.old) (S.seen store.new) (P.seen spawner.old) (P.seen spawner.new) }
    ensures keeps { Keeps place.old result place.new }
{
    place.head = id;
    run_post_commit(alloc, commit, place, store, spawner, clock)
}

#[tactic(auto, using(seq_lines::proofs::Messages::continue_is_message))]
fn continue_message(alloc: Global, subject: &[u8]) -> Result<Bytes, AllocError>
    requires { IsMessage subject.now }
    ensures text { IfOk result (λ m. m ≡ codes "rebase (" ++ codes "continue" ++ codes "): " ++ subject.now) }
    ensures message { IfOk result IsMessage }
{
    let mut message = b"rebase (continue): ".to_vec(alloc)?;
    message.extend_from_slice(subject)?;
    Ok(Bytes::from_vec(message))
}

#[tactic(auto, using(seq_lines::proofs::Messages::line_is_value))]
fn continue_line(alloc: Global, head: Id, made: &Made) -> Result<LogLine, AllocError>
    requires { IsMade made.now }
    ensures line { IfOk result (λ line. line ≡ continue_line_of head made.now) }
    ensures value { IfOk result IsLogValue }
{
    Ok(LogLine {
        old: value_of(head),
        new: made.id,
        ident: made.ident.clone()?,
        message: continue_message(alloc, made.subject.as_slice())?,
    })
}

/// HEAD goes from the one commit to the other.
fn move_pending<S: Store, P: Spawner<S>, C: Clock>(
    alloc: Global,
    control: &Control,
    pending: &Pending,
    head: Id,
    id: Id,
    line: &LogLine,
    place: &mut Place,
    store: &mut S,
    spawner: &mut P,
    clock: &mut C,
) -> Result<(), Halt<Stop>>
    requires line { IsLogValue line.now }
    requires pending { IsPending pending.now }
    ensures follows { S.told → Follows P.ran C.ticked spawner.old clock.old spawner.new clock.new (λ x. x)
        (writes (pending_blocked_by control.now pending.now) (head_moved_to head id line.now))
        (spot_of (S.seen store.old) place.old) result (spot_of (S.seen store.new) place.new) }
    ensures cause { HasStepCause S.told stop_failed result (S.seen store.old) (S.seen store.new) (P.seen spawner.old) (P.seen spawner.new) }
    ensures keeps { Keeps place.old result place.new }
{
    match head_moved(alloc, head, id, line, store) {
        Ok(()) => Ok(()),
        Err(Halt::Stops(why)) => Err(Halt::Stops(pending_blocked(control, pending, why)?)),
        Err(Halt::Fault) => Err(Halt::Fault),
        Err(Halt::Memory) => Err(Halt::Memory),
    }
}

fn move_to_made<S: Store, P: Spawner<S>, C: Clock>(
    alloc: Global,
    control: &Control,
    pending: &Pending,
    head: Id,
    made: &Made,
    place: &mut Place,
    store: &mut S,
    spawner: &mut P,
    clock: &mut C,
) -> Result<(), Halt<Stop>>
    requires made { IsMade made.now }
    requires pending { IsPending pending.now }
    ensures follows { S.told → Follows P.ran C.ticked spawner.old clock.old spawner.new clock.new (λ x. x)
        (writes (pending_blocked_by control.now pending.now) (head_moved_to head made.now.id (continue_line_of head made.now)))
        (spot_of (S.seen store.old) place.old) result (spot_of (S.seen store.new) place.new) }
    ensures cause { HasStepCause S.told stop_failed result (S.seen store.old) (S.seen store.new) (P.seen spawner.old) (P.seen spawner.new) }
    ensures keeps { Keeps place.old result place.new }
{
    let line = continue_line(alloc, head, made)?;
    move_pending(
        alloc, control, pending, head, made.id, &line, place, store, spawner, clock,
    )
}

/// HEAD goes to the commit that was made.
#[tactic(auto, unfolding(reading::specs::Going::continued_does))]
fn go_to_made<S: Store, P: Spawner<S>, C: Clock>(
    alloc: Global,
    control: &Control,
    pending: &Pending,
    head: Id,
    made: &Made,
    place: &mut Place,
    store: &mut S,
    spawner: &mut P,
    clock: &mut C,
) -> Result<(), Halt<Stop>>
    requires made { IsMade made.now }
    requires pending { IsPending pending.now }
    ensures follows { S.told → Follows P.ran C.ticked spawner.old clock.old spawner.new clock.new (λ x. x)
        (continued_does control.now pending.now head made.now)
        (spot_of (S.seen store.old) place.old) result (spot_of (S.seen store.new) place.new) }
    ensures cause { HasStepCause S.told stop_failed result (S.seen store.old) (S.seen store.new) (P.seen spawner.old) (P.seen spawner.new) }
    ensures keeps { Keeps place.old result place.new }
{
    move_to_made(
        alloc, control, pending, head, made, place, store, spawner, clock,
    )?;
    take_made(
        alloc,
        made.id,
        control.stopped_commit,
        place,
        store,
        spawner,
        clock,
    )
}

/// A commit is made, or stays pending.
#[tactic(auto, using(seq_step::proofs::Halting::said))]
fn make_or_stop<S: Store, P: Spawner<S>, C: Clock>(
    alloc: Global,
    setting: &Setting,
    control: &Control,
    pending: &Pending,
    making: &Making,
    place: &mut Place,
    store: &mut S,
    spawner: &mut P,
    clock: &mut C,
) -> Result<Made, Halt<Stop>>
    requires setting { MayCommit setting.now }
    requires pending { IsPending pending.now }
    requires making { CanBeMade making.now }
    ensures follows { S.told → Follows P.ran C.ticked spawner.old clock.old spawner.new clock.new (λ made. made)
        (saying (pending_unmade_by control.now pending.now) (unseen_within (commits_by setting.now making.now)))
        (spot_of (S.seen store.old) place.old) result (spot_of (S.seen store.new) place.new) }
    ensures made { IfOk result IsMade }
    ensures cause { HasStepCause S.told stop_failed result (S.seen store.old) (S.seen store.new) (P.seen spawner.old) (P.seen spawner.new) }
    ensures keeps { Keeps place.old result place.new }
{
    match make_beside(alloc, setting, making, place, store, spawner, clock) {
        Ok(made) => Ok(made),
        Err(Halt::Stops(why)) => Err(Halt::Stops(pending_unmade(control, pending, why)?)),
        Err(Halt::Fault) => Err(Halt::Fault),
        Err(Halt::Memory) => Err(Halt::Memory),
    }
}

fn make_pending<S: Store, P: Spawner<S>, C: Clock>(
    alloc: Global,
    setting: &Setting,
    control: &Control,
    pending: &Pending,
    head: Id,
    parents: &[Id],
    tree: Id,
    place: &mut Place,
    store: &mut S,
    spawner: &mut P,
    clock: &mut C,
) -> Result<Made, Halt<Stop>>
    requires setting { MayCommit setting.now }
    requires pending { IsPending pending.now }
    ensures follows { S.told → Follows P.ran C.ticked spawner.old clock.old spawner.new clock.new (λ made. made)
        (saying (pending_unmade_by control.now pending.now)
        (unseen_within (commits_by setting.now (pending_making_of head parents.now tree pending.now))))
        (spot_of (S.seen store.old) place.old) result (spot_of (S.seen store.new) place.new) }
    ensures made { IfOk result IsMade }
    ensures cause { HasStepCause S.told stop_failed result (S.seen store.old) (S.seen store.new) (P.seen spawner.old) (P.seen spawner.new) }
    ensures keeps { Keeps place.old result place.new }
{
    let making = pending_making(alloc, head, parents, tree, pending)?;
    make_or_stop(
        alloc, setting, control, pending, &making, place, store, spawner, clock,
    )
}

/// The pending commit has this tree.
#[tactic(auto, unfolding(reading::specs::Going::pending_tree_does))]
fn commit_tree<S: Store, P: Spawner<S>, C: Clock>(
    alloc: Global,
    setting: &Setting,
    control: &Control,
    pending: &Pending,
    head: Id,
    parents: &[Id],
    tree: Id,
    place: &mut Place,
    store: &mut S,
    spawner: &mut P,
    clock: &mut C,
) -> Result<(), Halt<Stop>>
    requires setting { MayCommit setting.now }
    requires pending { IsPending pending.now }
    ensures follows { S.told → Follows P.ran C.ticked spawner.old clock.old spawner.new clock.new (λ x. x)
        (pending_tree_does setting.now control.now pending.now head parents.now tree)
        (spot_of (S.seen store.old) place.old) result (spot_of (S.seen store.new) place.new) }
    ensures cause { HasStepCause S.told stop_failed result (S.seen store.old) (S.seen store.new) (P.seen spawner.old) (P.seen spawner.new) }
    ensures keeps { Keeps place.old result place.new }
{
    let made = make_pending(
        alloc, setting, control, pending, head, parents, tree, place, store, spawner, clock,
    )?;
    go_to_made(
        alloc, control, pending, head, &made, place, store, spawner, clock,
    )
}

/// The map of the index; one that is none is bad.
#[tactic(auto, using(crate::proofs::Pendings::no_folder))]
fn index_map(
    alloc: Global,
    control: &Control,
    pending: &Pending,
    index: &[IndexEntry],
) -> Result<PathMap, Halt<Stop>>
    requires pending { IsPending pending.now }
    requires index { IsIndex index.now }
    ensures gives { Gives (λ m. m) result (for_reason (pending_misfit control.now pending.now) (mapped index.now)) }
    ensures stays { StaysPending result }
    ensures no_fault { IsErrOf result Halt.Fault → ⊥ }
{
    match to_map(alloc, index) {
        Ok(map) => Ok(map),
        Err(StageFault::Memory) => Err(Halt::Memory),
        Err(_fault) => Err(Halt::Stops(pending_blocked(control, pending, Reason::BadIndex)?)),
    }
}

fn put_pending_tree<S: Store, P: Spawner<S>, C: Clock>(
    alloc: Global,
    control: &Control,
    pending: &Pending,
    found: &Found,
    map: &PathMap,
    place: &mut Place,
    store: &mut S,
    spawner: &mut P,
    clock: &mut C,
) -> Result<Id, Halt<Stop>>
    requires pending { IsPending pending.now }
    ensures follows { S.told → Follows P.ran C.ticked spawner.old clock.old spawner.new clock.new (λ id. id)
        (writes (pending_lacks_by control.now pending.now) (tree_put (found_is found.now) map.now))
        (spot_of (S.seen store.old) place.old) result (spot_of (S.seen store.new) place.new) }
    ensures cause { HasStepCause S.told stop_failed result (S.seen store.old) (S.seen store.new) (P.seen spawner.old) (P.seen spawner.new) }
    ensures keeps { Keeps place.old result place.new }
{
    match put_tree(alloc, found, map, store) {
        Ok(tree) => Ok(tree),
        Err(Halt::Stops(lack)) => Err(Halt::Stops(pending_lacks(control, pending, lack)?)),
        Err(Halt::Fault) => Err(Halt::Fault),
        Err(Halt::Memory) => Err(Halt::Memory),
    }
}

/// The pending commit is made of this map.
#[tactic(auto, unfolding(reading::specs::Going::pending_map_does))]
fn commit_map<S: Store, P: Spawner<S>, C: Clock>(
    alloc: Global,
    setting: &Setting,
    control: &Control,
    pending: &Pending,
    head: Id,
    found: &Found,
    map: &PathMap,
    place: &mut Place,
    store: &mut S,
    spawner: &mut P,
    clock: &mut C,
) -> Result<(), Halt<Stop>>
    requires setting { MayCommit setting.now }
    requires pending { IsPending pending.now }
    ensures follows { S.told → Follows P.ran C.ticked spawner.old clock.old spawner.new clock.new (λ x. x)
        (pending_map_does setting.now control.now pending.now head (found_is found.now) map.now)
        (spot_of (S.seen store.old) place.old) result (spot_of (S.seen store.new) place.new) }
    ensures cause { HasStepCause S.told stop_failed result (S.seen store.old) (S.seen store.new) (P.seen spawner.old) (P.seen spawner.new) }
    ensures keeps { Keeps place.old result place.new }
{
    let tree = put_pending_tree(
        alloc, control, pending, found, map, place, store, spawner, clock,
    )?;
    commit_tree(
        alloc,
        setting,
        control,
        pending,
        head,
        found.parents.as_slice(),
        tree,
        place,
        store,
        spawner,
        clock,
    )
}

/// The pending commit is made of the index's map.
#[tactic(auto, unfolding(reading::specs::Going::pending_does))]
fn commit_index<S: Store, P: Spawner<S>, C: Clock>(
    alloc: Global,
    setting: &Setting,
    control: &Control,
    pending: &Pending,
    head: Id,
    found: &Found,
    place: &mut Place,
    store: &mut S,
    spawner: &mut P,
    clock: &mut C,
) -> Result<(), Halt<Stop>>
    requires setting { MayCommit setting.now }
    requires pending { IsPending pending.now }
    requires index { IsIndex found.now.index.items }
    ensures follows { S.told → Follows P.ran C.ticked spawner.old clock.old spawner.new clock.new (λ x. x)
        (pending_does setting.now control.now pending.now head (found_is found.now))
        (spot_of (S.seen store.old) place.old) result (spot_of (S.seen store.new) place.new) }
    ensures cause { HasStepCause S.told stop_failed result (S.seen store.old) (S.seen store.new) (P.seen spawner.old) (P.seen spawner.new) }
    ensures keeps { Keeps place.old result place.new }
{
    let map = index_map(alloc, control, pending, &found.index)?;
    commit_map(
        alloc, setting, control, pending, head, found, &map, place, store, spawner, clock,
    )
}

// ---- where nothing is staged

#[tactic(auto, using(crate::proofs::Pendings::stays_pending))]
fn stop_empty(control: &Control, pending: &Pending) -> Result<Stop, AllocError>
    requires pending { IsPending pending.now }
    ensures stop { IfOk result (λ stop. stop ≡ stop_empty_by control.now pending.now) }
    ensures kept { IfOk result CanBeKept }
{
    let id = match control.stopped_commit {
        Some(id) => id,
        None => Id::from_bytes([0u8; 20]),
    };
    Ok(Stop {
        kind: StopKind::Empty { id },
        put_back: false,
        pending: Some(copy_of(true, pending)?),
        commit: control.stopped_commit,
        failed: false,
    })
}

/// The index's map is HEAD's.
fn is_nothing_staged(found: &Found) -> bool
    requires { IsInOrder found.now.index.items }
    ensures { result ≡ is_same_map (map_of found.now.index.items) found.now.ours }
{
    match staged_path(&found.index, &found.ours) {
        Some(_) => false,
        None => true,
    }
}

/// A conflict was resolved to nothing.
#[tactic(auto, using(seq_step::proofs::Halting::stopped_so))]
fn commit_resolved<S: Store, P: Spawner<S>, C: Clock>(
    alloc: Global,
    setting: &Setting,
    control: &Control,
    pending: &Pending,
    head: Id,
    found: &Found,
    place: &mut Place,
    store: &mut S,
    spawner: &mut P,
    clock: &mut C,
) -> Result<(), Halt<Stop>>
    requires setting { MayCommit setting.now }
    requires pending { IsPending pending.now }
    requires index { IsIndex found.now.index.items }
    ensures follows { S.told → Follows P.ran C.ticked spawner.old clock.old spawner.new clock.new (λ x. x)
        (resolved_empty control.now.options.empty (stop_empty_by control.now pending.now)
        (pending_does setting.now control.now pending.now head (found_is found.now)))
        (spot_of (S.seen store.old) place.old) result (spot_of (S.seen store.new) place.new) }
    ensures cause { HasStepCause S.told stop_failed result (S.seen store.old) (S.seen store.new) (P.seen spawner.old) (P.seen spawner.new) }
    ensures keeps { Keeps place.old result place.new }
{
    match control.options.empty {
        Empty::Drop => Ok(()),
        Empty::Keep => commit_index(
            alloc, setting, control, pending, head, found, place, store, spawner, clock,
        ),
        Empty::Stop => Err(Halt::Stops(stop_empty(control, pending)?)),
    }
}

/// Only a commit beside HEAD's goes by the option.
fn commit_form<S: Store, P: Spawner<S>, C: Clock>(
    alloc: Global,
    setting: &Setting,
    control: &Control,
    pending: &Pending,
    head: Id,
    found: &Found,
    place: &mut Place,
    store: &mut S,
    spawner: &mut P,
    clock: &mut C,
) -> Result<(), Halt<Stop>>
    requires setting { MayCommit setting.now }
    requires pending { IsPending pending.now }
    requires index { IsIndex found.now.index.items }
    ensures follows { S.told → Follows P.ran C.ticked spawner.old clock.old spawner.new clock.new (λ x. x)
        (resolved_form pending.now.form control.now.options.empty (stop_empty_by control.now pending.now)
        (pending_does setting.now control.now pending.now head (found_is found.now)))
        (spot_of (S.seen store.old) place.old) result (spot_of (S.seen store.new) place.new) }
    ensures cause { HasStepCause S.told stop_failed result (S.seen store.old) (S.seen store.new) (P.seen spawner.old) (P.seen spawner.new) }
    ensures keeps { Keeps place.old result place.new }
{
    match pending.form {
        Form::New => commit_resolved(
            alloc, setting, control, pending, head, found, place, store, spawner, clock,
        ),
        Form::Amend | Form::Merge(_) => commit_index(
            alloc, setting, control, pending, head, found, place, store, spawner, clock,
        ),
    }
}

fn commit_nothing<S: Store, P: Spawner<S>, C: Clock>(
    alloc: Global,
    setting: &Setting,
    control: &Control,
    pending: &Pending,
    head: Id,
    found: &Found,
    place: &mut Place,
    store: &mut S,
    spawner: &mut P,
    clock: &mut C,
) -> Result<(), Halt<Stop>>
    requires setting { MayCommit setting.now }
    requires pending { IsPending pending.now }
    requires index { IsIndex found.now.index.items }
    ensures follows { S.told → Follows P.ran C.ticked spawner.old clock.old spawner.new clock.new (λ x. x)
        (if_nothing_staged control.now.stop pending.now.form control.now.options.empty (stop_empty_by control.now pending.now)
        (pending_does setting.now control.now pending.now head (found_is found.now)))
        (spot_of (S.seen store.old) place.old) result (spot_of (S.seen store.new) place.new) }
    ensures cause { HasStepCause S.told stop_failed result (S.seen store.old) (S.seen store.new) (P.seen spawner.old) (P.seen spawner.new) }
    ensures keeps { Keeps place.old result place.new }
{
    match control.stop {
        StopWord::Conflict => commit_form(
            alloc, setting, control, pending, head, found, place, store, spawner, clock,
        ),
        StopWord::Edit => Ok(()),
        _ => commit_index(
            alloc, setting, control, pending, head, found, place, store, spawner, clock,
        ),
    }
}

fn commit_unless_empty<S: Store, P: Spawner<S>, C: Clock>(
    alloc: Global,
    setting: &Setting,
    control: &Control,
    pending: &Pending,
    head: Id,
    found: &Found,
    place: &mut Place,
    store: &mut S,
    spawner: &mut P,
    clock: &mut C,
) -> Result<(), Halt<Stop>>
    requires setting { MayCommit setting.now }
    requires pending { IsPending pending.now }
    requires index { IsIndex found.now.index.items }
    ensures follows { S.told → Follows P.ran C.ticked spawner.old clock.old spawner.new clock.new (λ x. x)
        (unless_nothing_staged control.now pending.now (found_is found.now)
        (pending_does setting.now control.now pending.now head (found_is found.now)))
        (spot_of (S.seen store.old) place.old) result (spot_of (S.seen store.new) place.new) }
    ensures cause { HasStepCause S.told stop_failed result (S.seen store.old) (S.seen store.new) (P.seen spawner.old) (P.seen spawner.new) }
    ensures keeps { Keeps place.old result place.new }
{
    if is_nothing_staged(found) {
        return commit_nothing(
            alloc, setting, control, pending, head, found, place, store, spawner, clock,
        );
    }
    commit_index(
        alloc, setting, control, pending, head, found, place, store, spawner, clock,
    )
}

fn pending_found<S: Store>(
    alloc: Global,
    control: &Control,
    pending: &Pending,
    head: Id,
    store: &mut S,
) -> Result<Found, Halt<Stop>>
    requires pending { IsPending pending.now }
    ensures gives { S.told → Gives found_is result
        (for_reason (pending_blocked_by control.now pending.now) (found_at head (S.seen store.old).content)) }
    ensures index { IfOk result (λ found. IsIndex found.index.items) }
    ensures stays { StaysPending result }
    ensures reads { Reads S.told halt_cause result (S.seen store.old) (S.seen store.new) }
{
    match found_in(alloc, head, store) {
        Ok(found) => Ok(found),
        Err(Halt::Stops(why)) => Err(Halt::Stops(pending_blocked(control, pending, why)?)),
        Err(Halt::Fault) => Err(Halt::Fault),
        Err(Halt::Memory) => Err(Halt::Memory),
    }
}

#[tactic(auto, unfolding(reading::specs::Going::commit_pending))]
fn commit_pending<S: Store, P: Spawner<S>, C: Clock>(
    alloc: Global,
    setting: &Setting,
    control: &Control,
    pending: &Pending,
    head: Id,
    place: &mut Place,
    store: &mut S,
    spawner: &mut P,
    clock: &mut C,
) -> Result<(), Halt<Stop>>
    requires setting { MayCommit setting.now }
    requires pending { IsPending pending.now }
    ensures follows { S.told → Follows P.ran C.ticked spawner.old clock.old spawner.new clock.new (λ x. x)
        (commit_pending_by setting.now control.now pending.now head)
        (spot_of (S.seen store.old) place.old) result (spot_of (S.seen store.new) place.new) }
    ensures cause { HasStepCause S.told stop_failed result (S.seen store.old) (S.seen store.new) (P.seen spawner.old) (P.seen spawner.new) }
    ensures keeps { Keeps place.old result place.new }
{
    let found = pending_found(alloc, control, pending, head, store)?;
    commit_unless_empty(
        alloc, setting, control, pending, head, &found, place, store, spawner, clock,
    )
}

/// HEAD is another commit than the one that the list stopped at.
pub fn has_moved(control: &Control, head: Id) -> bool
    ensures { result ≡ has_moved_from control.now head }
{
    control.stopped_head.bytes() != head.bytes()
}

/// The pending commit is made. Where HEAD has moved, the user made it.
fn continue_with<S: Store, P: Spawner<S>, C: Clock>(
    alloc: Global,
    going: &Going,
    control: &Control,
    pending: &Pending,
    place: &mut Place,
    store: &mut S,
    spawner: &mut P,
    clock: &mut C,
) -> Result<(), Halt<Stop>>
    requires setting { MayCommit going.now.setting }
    requires pending { IsPending pending.now }
    ensures follows { S.told → Follows P.ran C.ticked spawner.old clock.old spawner.new clock.new (λ x. x)
        (continue_does going.now control.now (Some pending.now))
        (spot_of (S.seen store.old) place.old) result (spot_of (S.seen store.new) place.new) }
    ensures cause { HasStepCause S.told stop_failed result (S.seen store.old) (S.seen store.new) (P.seen spawner.old) (P.seen spawner.new) }
    ensures keeps { Keeps place.old result place.new }
{
    if has_moved(control, going.head) {
        return wait_once(alloc, control.stopped_commit, place, store, spawner, clock);
    }
    commit_pending(
        alloc,
        &going.setting,
        control,
        pending,
        going.head,
        place,
        store,
        spawner,
        clock,
    )
}

/// The pending commit, if there is one, is made.
pub fn continue_pending<S: Store, P: Spawner<S>, C: Clock>(
    alloc: Global,
    going: &Going,
    control: &Control,
    place: &mut Place,
    store: &mut S,
    spawner: &mut P,
    clock: &mut C,
) -> Result<(), Halt<Stop>>
    requires setting { MayCommit going.now.setting }
    requires pending { HasPending control.now }
    ensures follows { S.told → Follows P.ran C.ticked spawner.old clock.old spawner.new clock.new (λ x. x)
        (continue_does going.now control.now control.now.pending)
        (spot_of (S.seen store.old) place.old) result (spot_of (S.seen store.new) place.new) }
    ensures cause { HasStepCause S.told stop_failed result (S.seen store.old) (S.seen store.new) (P.seen spawner.old) (P.seen spawner.new) }
    ensures keeps { Keeps place.old result place.new }
{
    match &control.pending {
        None => Ok(()),
        Some(pending) => continue_with(
            alloc, going, control, pending, place, store, spawner, clock,
        ),
    }
}
