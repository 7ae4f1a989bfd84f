//! The merge of a line.

ghost use Rattle.std.specs.Prelude.{◌≡◌, IfOk, true};
ghost use Rattle.child_steps.specs.Children.{spot_of};
ghost use Rattle.content_merge.specs.Causes.{HasMergeCause, is_unrun};
ghost use Rattle.content_merge.specs.Merging.{HoldsIndex};
ghost use Rattle.line_steps.specs.Making.{merges_by};
ghost use Rattle.line_steps.specs.Picks.{placeless};
ghost use Rattle.line_steps.specs.Places.{lacked_at as lacked_at_of};
ghost use Rattle.seq_outside.specs.Causes.{Rose};
ghost use Rattle.seq_outside.specs.Doing.{saying};
ghost use Rattle.seq_outside.specs.Follows.{Follows};
ghost use Rattle.seq_step.specs.Causes.{HasLineCause, stop_failed};
ghost use Rattle.seq_step.specs.Finding.{sides_is};
ghost use Rattle.seq_step.specs.Keeping.{HasSameLists, Keeps};

use crate::finding::{Picking, Sides};
use crate::stop::lacked_at;
use content_merge::{Merged, merge};
use line_steps::{Place, Setting, Stop};
use seq_outside::{Clock, Halt, Lack, Spawner, Store};
use std::alloc::Global;

/// How many merge drivers run at once.
const DRIVERS_AT_ONCE: u8 = 1;

/// The merge beside the place of a list, which it does not know.
fn merge_beside<S: Store, P: Spawner<S>, C: Clock>(
    alloc: Global,
    setting: &Setting,
    at: &Picking,
    sides: &Sides,
    place: &mut Place,
    store: &mut S,
    spawner: &mut P,
    clock: &mut C,
) -> Result<Merged, Halt<Lack>>
    ensures follows { S.told → Follows P.ran C.ticked spawner.old clock.old spawner.new clock.new (λ m. m)
        (placeless (merges_by setting.now (sides_is at.now sides.now)))
        (spot_of (S.seen store.old) place.old) result (spot_of (S.seen store.new) place.new) }
    ensures index { IfOk result HoldsIndex }
    ensures unrun { IfOk result (λ m. is_unrun m ≡ true → Rose (P.seen spawner.old).faults (P.seen spawner.new).faults) }
    ensures cause { HasMergeCause result (S.seen store.old) (S.seen store.new) (P.seen spawner.old) (P.seen spawner.new) }
    ensures keeps { HasSameLists place.old place.new }
{
    merge(
        alloc,
        store,
        spawner,
        clock,
        &setting.config,
        &sides.base,
        &at.found.ours,
        &sides.theirs,
        DRIVERS_AT_ONCE,
    )
}

/// The merge of a line, as a step.
pub fn merge_step<S: Store, P: Spawner<S>, C: Clock>(
    alloc: Global,
    setting: &Setting,
    at: &Picking,
    sides: &Sides,
    place: &mut Place,
    store: &mut S,
    spawner: &mut P,
    clock: &mut C,
) -> Result<Merged, Halt<Stop>>
    ensures follows { S.told → Follows P.ran C.ticked spawner.old clock.old spawner.new clock.new (λ m. m)
        (saying (lacked_at_of at.now.pick.id) (placeless (merges_by setting.now (sides_is at.now sides.now))))
        (spot_of (S.seen store.old) place.old) result (spot_of (S.seen store.new) place.new) }
    ensures index { IfOk result HoldsIndex }
    ensures unrun { IfOk result (λ m. is_unrun m ≡ true → Rose (P.seen spawner.old).faults (P.seen spawner.new).faults) }
    ensures cause { HasLineCause stop_failed result (S.seen store.old) (S.seen store.new) (P.seen spawner.old) (P.seen spawner.new) }
    ensures keeps { Keeps place.old result place.new }
{
    match merge_beside(alloc, setting, at, sides, place, store, spawner, clock) {
        Ok(merged) => Ok(merged),
        Err(Halt::Stops(lack)) => Err(Halt::Stops(lacked_at(at.pick.id, lack))),
        Err(Halt::Fault) => Err(Halt::Fault),
        Err(Halt::Memory) => Err(Halt::Memory),
    }
}
