//! The control with which a stopped list goes on.

ghost use Rattle.std.specs.List.{filter, list_any};
ghost use Rattle.std.specs.Prelude.{◌≡◌, [], ◌++◌};
ghost use Rattle.reading.specs.Resuming.{chain_kept, taken_up, updates as updates_by, updates_named};
ghost use Rattle.state_found.specs.Reads.{IsControlBut};

use crate::pending::has_moved;
use message_text::ChainKind;
use reading::{Again, Going};
use seq_base::Id;
use state_text::{Chain, Control, Pending, RefUpdate, RefUpdates};
use todo_text::Line;

/// The line updates the ref.
fn updates(name: &[u8], line: &Line) -> bool
    ensures { result ≡ updates_by name.now line.now }
{
    match line {
        Line::UpdateRef { name: other } => other.as_slice() == name,
        _ => false,
    }
}

fn names(lines: &[Line], name: &[u8]) -> bool
    ensures { result ≡ list_any (updates_by name.now) lines.now }
{
    lines.iter().any(|line| updates(name, line))
}

/// A line, done or left, names the ref.
#[tactic(auto, using(crate::proofs::Takings::any_behind))]
fn is_named(done: &[Line], left: &[Line], update: &RefUpdate) -> bool
    ensures { result ≡ list_any (updates_by update.now.name) (done.now ++ left.now) }
{
    names(done, update.name.as_slice()) || names(left, update.name.as_slice())
}

/// A ref is forgotten where no line names it any more.
fn drop_unnamed(updates: &mut Vec<RefUpdate>, done: &[Line], left: &[Line])
    ensures { updates.new.items ≡ updates_named (done.now ++ left.now) updates.old.items }
{
    updates.retain(|update| is_named(done, left, update));
}

fn named_updates(updates: RefUpdates, done: &[Line], left: &[Line]) -> RefUpdates
    ensures { result ≡ updates_named (done.now ++ left.now) updates }
{
    let mut kept = updates.into_vec();
    drop_unnamed(&mut kept, done, left);
    RefUpdates::from_vec(kept)
}

fn no_chain(chain: Chain) -> Chain
    ensures { result ≡ [] }
{
    let mut items = chain.into_vec();
    items.clear();
    Chain::from_vec(items)
}

/// No squash chain goes on past a commit that the user made.
fn keep_chain(again: Again, moved: bool, pending: &Option<Pending>, chain: Chain) -> Chain
    ensures { result ≡ chain_kept again moved pending.now chain }
{
    match again {
        Again::Continue => {
            if moved && pending.is_some() {
                return no_chain(chain);
            }
            chain
        }
        Again::Skip => chain,
    }
}

/// The control with which a turn goes on.
pub fn take_up(again: Again, going: &Going, control: Control) -> Control
    ensures control { result ≡ taken_up again going.now control }
    ensures kept { IsControlBut control → IsControlBut result }
{
    let moved = has_moved(&control, going.head);
    let done = control.done;
    let pending = control.pending;
    let updates = named_updates(control.updates, done.as_slice(), going.left.as_slice());
    let chain = keep_chain(again, moved, &pending, control.chain);
    Control {
        verb: control.verb,
        options: control.options,
        head_name: control.head_name,
        orig: control.orig,
        onto: control.onto,
        done,
        left: control.left,
        backup: control.backup,
        labels: control.labels,
        updates,
        rewritten: control.rewritten,
        waiting: control.waiting,
        chain,
        stop: control.stop,
        stopped_head: control.stopped_head,
        stopped_commit: control.stopped_commit,
        pending,
    }
}
