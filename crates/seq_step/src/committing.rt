//! The commit of a pick.

ghost use Rattle.std.specs.Prelude.{◌≡◌, [], IfOk};
ghost use Rattle.child_steps.specs.Causes.{HasStepCause};
ghost use Rattle.child_steps.specs.Children.{spot_of};
ghost use Rattle.commit_maker.specs.Causes.{stop_failed as make_failed};
ghost use Rattle.commit_maker.specs.Commits.{CanBeMade, IsMade};
ghost use Rattle.line_steps.specs.Making.{commits_by};
ghost use Rattle.line_steps.specs.Picks.{at_unmade as at_unmade_of, commit_does, hook_waits, made_does};
ghost use Rattle.line_steps.specs.Picks.{made_heads, made_line, making_of as making_of_pick, or_back};
ghost use Rattle.line_steps.specs.Picks.{tree_does, unseen_within};
ghost use Rattle.line_steps.specs.Places.{blocked_at, writes};
ghost use Rattle.line_steps.specs.Writing.{back_from, head_moved};
ghost use Rattle.seq_outside.specs.Doing.{saying};
ghost use Rattle.seq_outside.specs.Follows.{Follows};
ghost use Rattle.seq_step.specs.Causes.{stop_failed};
ghost use Rattle.seq_step.specs.Finding.{IsPicked, IsPicking, picked_is, picking_is};
ghost use Rattle.seq_step.specs.Keeping.{HasSameLists, Keeps};
ghost use Rattle.seq_step.specs.Settings.{MayCommit};

use crate::back::go_back_if;
use crate::finding::{Picked, Picking};
use crate::forwarding::wait;
use crate::job::run_hook;
use crate::moving::{move_head, pick_line};
use crate::pending::{at_unmade, author_of, copy_of_any};
use crate::switching::switch_merged;
use commit_maker::{Made, MakeStop, Making, Source, make};
use content_merge::Texts;
use line_steps::{Place, Setting, Stop};
use object_text::Ids;
use seq_base::{Id, PathMap};
use seq_outside::{Clock, Halt, Spawner, Store};
use std::alloc::{AllocError, Global};

/// The commit that is to be made of a tree.
fn making_of(alloc: Global, edit: bool, at: &Picking, tree: Id) -> Result<Making, AllocError>
    requires pick { IsPicked at.now.pick }
    ensures making { IfOk result (λ making. making ≡ making_of_pick edit at.now.head (picked_is at.now.pick) tree) }
    ensures can { IfOk result CanBeMade }
{
    let author = author_of(alloc, at.pick.commit.author.as_slice())?;
    Ok(Making {
        tree,
        parents: Ids::from_vec(vec![in alloc; at.head]?),
        author,
        encoding: copy_of_any(&at.pick.commit.encoding)?,
        message: at.pick.commit.message.clone()?,
        chain: false,
        edit,
        source: Source::Message,
    })
}

/// A commit is made beside what has run before.
pub fn make_beside<S: Store, P: Spawner<S>, C: Clock>(
    alloc: Global,
    setting: &Setting,
    making: &Making,
    place: &mut Place,
    store: &mut S,
    spawner: &mut P,
    clock: &mut C,
) -> Result<Made, Halt<MakeStop>>
    requires setting { MayCommit setting.now }
    requires making { CanBeMade making.now }
    ensures follows { S.told → Follows P.ran C.ticked spawner.old clock.old spawner.new clock.new (λ made. made)
        (unseen_within (commits_by setting.now making.now)) (spot_of (S.seen store.old) place.old) result (spot_of (S.seen store.new) place.new) }
    ensures told { IfOk result IsMade }
    ensures cause { HasStepCause S.told make_failed result (S.seen store.old) (S.seen store.new) (P.seen spawner.old) (P.seen spawner.new) }
    ensures keeps { HasSameLists place.old place.new }
{
    make(
        alloc,
        making,
        &setting.config,
        &setting.env,
        &mut place.unseen,
        store,
        spawner,
        clock,
    )
}

/// The same, or the line stops with its commit pending.
#[tactic(auto, using(crate::proofs::Halting::said))]
fn make_or_stop<S: Store, P: Spawner<S>, C: Clock>(
    alloc: Global,
    setting: &Setting,
    edit: bool,
    pick: &Picked,
    making: &Making,
    place: &mut Place,
    store: &mut S,
    spawner: &mut P,
    clock: &mut C,
) -> Result<Made, Halt<Stop>>
    requires setting { MayCommit setting.now }
    requires pick { IsPicked pick.now }
    requires making { CanBeMade making.now }
    ensures follows { S.told → Follows P.ran C.ticked spawner.old clock.old spawner.new clock.new (λ made. made)
        (saying (at_unmade_of edit (picked_is pick.now)) (unseen_within (commits_by setting.now making.now)))
        (spot_of (S.seen store.old) place.old) result (spot_of (S.seen store.new) place.new) }
    ensures told { IfOk result IsMade }
    ensures cause { HasStepCause S.told stop_failed result (S.seen store.old) (S.seen store.new) (P.seen spawner.old) (P.seen spawner.new) }
    ensures keeps { Keeps place.old result place.new }
{
    match make_beside(alloc, setting, making, place, store, spawner, clock) {
        Ok(made) => Ok(made),
        Err(Halt::Stops(why)) => Err(Halt::Stops(at_unmade(alloc, edit, pick, why)?)),
        Err(Halt::Fault) => Err(Halt::Fault),
        Err(Halt::Memory) => Err(Halt::Memory),
    }
}

/// The commit is made, with its hooks and its editor.
fn make_commit<S: Store, P: Spawner<S>, C: Clock>(
    alloc: Global,
    setting: &Setting,
    edit: bool,
    at: &Picking,
    tree: Id,
    place: &mut Place,
    store: &mut S,
    spawner: &mut P,
    clock: &mut C,
) -> Result<Made, Halt<Stop>>
    requires setting { MayCommit setting.now }
    requires at { IsPicking at.now }
    ensures follows { S.told → Follows P.ran C.ticked spawner.old clock.old spawner.new clock.new (λ made. made)
        (saying (at_unmade_of edit (picked_is at.now.pick))
        (unseen_within (commits_by setting.now (making_of_pick edit at.now.head (picked_is at.now.pick) tree))))
        (spot_of (S.seen store.old) place.old) result (spot_of (S.seen store.new) place.new) }
    ensures told { IfOk result IsMade }
    ensures cause { HasStepCause S.told stop_failed result (S.seen store.old) (S.seen store.new) (P.seen spawner.old) (P.seen spawner.new) }
    ensures keeps { Keeps place.old result place.new }
{
    let making = making_of(alloc, edit, at, tree)?;
    make_or_stop(
        alloc, setting, edit, &at.pick, &making, place, store, spawner, clock,
    )
}

/// The hook of a commit that was made is run.
#[tactic(auto, unfolding(line_steps::specs::Picks::hook_waits))]
fn run_post_commit<S: Store, P: Spawner<S>, C: Clock>(
    alloc: Global,
    id: Id,
    place: &mut Place,
    store: &mut S,
    spawner: &mut P,
    clock: &mut C,
) -> Result<(), Halt<Stop>>
    ensures follows { S.told → Follows P.ran C.ticked spawner.old clock.old spawner.new clock.new (λ x. x)
        (hook_waits id) (spot_of (S.seen store.old) place.old) result (spot_of (S.seen store.new) place.new) }
    ensures cause { HasStepCause S.told stop_failed result (S.seen store.old) (S.seen store.new) (P.seen spawner.old) (P.seen spawner.new) }
    ensures keeps { Keeps place.old result place.new }
{
    let arguments = Vec::new(alloc);
    run_hook(
        alloc,
        b"post-commit",
        &arguments,
        b"",
        place,
        store,
        spawner,
        clock,
    )?;
    wait(alloc, id, place, store, spawner, clock)
}

/// HEAD is at the commit that was made.
#[tactic(auto, unfolding(line_steps::specs::Picks::made_heads))]
fn take_made<S: Store, P: Spawner<S>, C: Clock>(
    alloc: Global,
    id: Id,
    pick: Id,
    place: &mut Place,
    store: &mut S,
    spawner: &mut P,
    clock: &mut C,
) -> Result<(), Halt<Stop>>
    ensures follows { S.told → Follows P.ran C.ticked spawner.old clock.old spawner.new clock.new (λ x. x)
        (made_heads id pick) (spot_of (S.seen store.old) place.old) result (spot_of (S.seen store.new) place.new) }
    ensures cause { HasStepCause S.told stop_failed result (S.seen store.old) (S.seen store.new) (P.seen spawner.old) (P.seen spawner.new) }
    ensures keeps { Keeps place.old result place.new }
{
    place.head = id;
    run_post_commit(alloc, pick, place, store, spawner, clock)
}

/// HEAD is written at the commit that was made.
fn move_made<S: Store, P: Spawner<S>, C: Clock>(
    alloc: Global,
    at: &Picking,
    made: &Made,
    place: &mut Place,
    store: &mut S,
    spawner: &mut P,
    clock: &mut C,
) -> Result<(), Halt<Stop>>
    requires made { IsMade made.now }
    ensures follows { S.told → Follows P.ran C.ticked spawner.old clock.old spawner.new clock.new (λ x. x)
        (writes (blocked_at at.now.pick.id) (head_moved at.now.head made.now.id (made_line (picking_is at.now) made.now)))
        (spot_of (S.seen store.old) place.old) result (spot_of (S.seen store.new) place.new) }
    ensures cause { HasStepCause S.told stop_failed result (S.seen store.old) (S.seen store.new) (P.seen spawner.old) (P.seen spawner.new) }
    ensures keeps { Keeps place.old result place.new }
{
    let line = pick_line(
        alloc,
        made.subject.as_slice(),
        at.head,
        made.id,
        made.ident.as_slice(),
    )?;
    move_head(
        alloc, at.pick.id, at.head, made.id, &line, place, store, spawner, clock,
    )
}

/// HEAD goes to the commit that was made.
#[tactic(auto, unfolding(line_steps::specs::Picks::made_does))]
fn go_to_made<S: Store, P: Spawner<S>, C: Clock>(
    alloc: Global,
    at: &Picking,
    made: &Made,
    place: &mut Place,
    store: &mut S,
    spawner: &mut P,
    clock: &mut C,
) -> Result<(), Halt<Stop>>
    requires made { IsMade made.now }
    ensures follows { S.told → Follows P.ran C.ticked spawner.old clock.old spawner.new clock.new (λ x. x)
        (made_does (picking_is at.now) made.now) (spot_of (S.seen store.old) place.old) result (spot_of (S.seen store.new) place.new) }
    ensures cause { HasStepCause S.told stop_failed result (S.seen store.old) (S.seen store.new) (P.seen spawner.old) (P.seen spawner.new) }
    ensures keeps { Keeps place.old result place.new }
{
    move_made(alloc, at, made, place, store, spawner, clock)?;
    take_made(alloc, made.id, at.pick.id, place, store, spawner, clock)
}

/// A commit of the tree on HEAD.
#[tactic(auto, unfolding(line_steps::specs::Picks::tree_does))]
fn commit_tree<S: Store, P: Spawner<S>, C: Clock>(
    alloc: Global,
    setting: &Setting,
    edit: bool,
    at: &Picking,
    tree: Id,
    place: &mut Place,
    store: &mut S,
    spawner: &mut P,
    clock: &mut C,
) -> Result<(), Halt<Stop>>
    requires setting { MayCommit setting.now }
    requires at { IsPicking at.now }
    ensures follows { S.told → Follows P.ran C.ticked spawner.old clock.old spawner.new clock.new (λ x. x)
        (tree_does commits_by setting.now edit (picking_is at.now) tree)
        (spot_of (S.seen store.old) place.old) result (spot_of (S.seen store.new) place.new) }
    ensures cause { HasStepCause S.told stop_failed result (S.seen store.old) (S.seen store.new) (P.seen spawner.old) (P.seen spawner.new) }
    ensures keeps { Keeps place.old result place.new }
{
    let made = make_commit(alloc, setting, edit, at, tree, place, store, spawner, clock)?;
    go_to_made(alloc, at, &made, place, store, spawner, clock)
}

/// A commit of the tree on HEAD, or where the line is blocked index and files go back.
#[tactic(auto, using(crate::proofs::Backs::went, crate::proofs::Backs::stopped))]
fn commit_or_back<S: Store, P: Spawner<S>, C: Clock>(
    alloc: Global,
    setting: &Setting,
    edit: bool,
    at: &Picking,
    map: &PathMap,
    tree: Id,
    place: &mut Place,
    store: &mut S,
    spawner: &mut P,
    clock: &mut C,
) -> Result<(), Halt<Stop>>
    requires setting { MayCommit setting.now }
    requires at { IsPicking at.now }
    ensures follows { S.told → Follows P.ran C.ticked spawner.old clock.old spawner.new clock.new (λ x. x)
        (or_back (back_from map.now at.now.found.ours) (tree_does commits_by setting.now edit (picking_is at.now) tree))
        (spot_of (S.seen store.old) place.old) result (spot_of (S.seen store.new) place.new) }
    ensures cause { HasStepCause S.told stop_failed result (S.seen store.old) (S.seen store.new) (P.seen spawner.old) (P.seen spawner.new) }
    ensures keeps { Keeps place.old result place.new }
{
    match commit_tree(alloc, setting, edit, at, tree, place, store, spawner, clock) {
        Ok(()) => Ok(()),
        Err(Halt::Stops(stop)) => {
            match go_back_if(alloc, map, &at.found.ours, &stop, store) {
                Ok(()) => Err(Halt::Stops(stop)),
                Err(Halt::Stops(never)) => Err(Halt::Stops(never)),
                Err(Halt::Fault) => Err(Halt::Fault),
                Err(Halt::Memory) => Err(Halt::Memory),
            }
        }
        Err(Halt::Fault) => Err(Halt::Fault),
        Err(Halt::Memory) => Err(Halt::Memory),
    }
}

/// Index and files are switched to the merged map, and its commit is made.
#[tactic(auto, unfolding(line_steps::specs::Picks::commit_does))]
pub fn commit<S: Store, P: Spawner<S>, C: Clock>(
    alloc: Global,
    setting: &Setting,
    edit: bool,
    at: &Picking,
    map: &PathMap,
    texts: &Texts,
    place: &mut Place,
    store: &mut S,
    spawner: &mut P,
    clock: &mut C,
) -> Result<(), Halt<Stop>>
    requires setting { MayCommit setting.now }
    requires at { IsPicking at.now }
    ensures follows { S.told → Follows P.ran C.ticked spawner.old clock.old spawner.new clock.new (λ x. x)
        (commit_does commits_by setting.now edit (picking_is at.now) map.now texts.now)
        (spot_of (S.seen store.old) place.old) result (spot_of (S.seen store.new) place.new) }
    ensures cause { HasStepCause S.told stop_failed result (S.seen store.old) (S.seen store.new) (P.seen spawner.old) (P.seen spawner.new) }
    ensures keeps { Keeps place.old result place.new }
{
    let tree = switch_merged(
        alloc, at.pick.id, &at.found, map, texts, place, store, spawner, clock,
    )?;
    commit_or_back(
        alloc, setting, edit, at, map, tree, place, store, spawner, clock,
    )
}
