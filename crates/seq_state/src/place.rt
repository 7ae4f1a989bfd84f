//! The place with which a turn begins.

ghost use Rattle.std.specs.Prelude.{◌≡◌, IfOk};
ghost use Rattle.line_steps.specs.Places.{place_of as place_of_control};

use line_steps::Place;
use seq_base::Bytes;
use state_text::{Chain, Control, IdPairs, Ids, Labels, RefUpdate, RefUpdates};
use std::alloc::{AllocError, Global};

fn copy_of(update: &RefUpdate) -> Result<RefUpdate, AllocError>
    ensures { IfOk result (λ copy. copy ≡ update.now) }
{
    Ok(RefUpdate {
        name: update.name.clone()?,
        expected: update.expected,
        new: update.new,
    })
}

fn updates_of(alloc: Global, updates: &[RefUpdate]) -> Result<RefUpdates, AllocError>
    ensures { IfOk result (λ copy. copy ≡ updates.now) }
{
    let mut copy = Vec::new(alloc);
    let mut rest = updates;
    while let [update, after @ ..] = rest {
        let other = copy_of(update)?;
        copy.push(other)?;
        rest = after;
    }
    Ok(RefUpdates::from_vec(copy))
}

fn name_of(name: &Bytes) -> Result<Bytes, AllocError>
    ensures { IfOk result (λ copy. copy ≡ name.now) }
{
    name.clone()
}

fn labels_of(alloc: Global, labels: &[Bytes]) -> Result<Labels, AllocError>
    ensures { IfOk result (λ copy. copy ≡ labels.now) }
{
    let mut copy = Vec::new(alloc);
    let mut rest = labels;
    while let [label, after @ ..] = rest {
        let other = name_of(label)?;
        copy.push(other)?;
        rest = after;
    }
    Ok(Labels::from_vec(copy))
}

/// The place with which a turn of this control begins.
pub fn place_of(alloc: Global, control: &Control) -> Result<Place, AllocError>
    ensures { IfOk result (λ place. place ≡ place_of_control control.now) }
{
    Ok(Place {
        head: control.stopped_head,
        waiting: Ids::from_vec(Vec::from_slice(alloc, control.waiting.as_slice())?),
        rewritten: IdPairs::from_vec(Vec::from_slice(alloc, control.rewritten.as_slice())?),
        chain: Chain::from_vec(Vec::from_slice(alloc, control.chain.as_slice())?),
        labels: labels_of(alloc, control.labels.as_slice())?,
        updates: updates_of(alloc, control.updates.as_slice())?,
        unseen: false,
    })
}
