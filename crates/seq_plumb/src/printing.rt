//! An object that is printed.

ghost use Rattle.std.specs.Prelude.{◌≡◌, IsErrOf};
ghost use Rattle.objects.specs.Named.{object_named};
ghost use Rattle.ref_text.specs.ReadHeads.{id_in as id_in_text};
ghost use Rattle.seq_model.specs.Refusing.{denied_file};
ghost use Rattle.seq_outside.specs.Halts.{Gives, for_reason, halt_cause};
ghost use Rattle.seq_outside.specs.Seen.{Reads};
ghost use Rattle.seq_plumb.specs.Printing.{id_named as id_by, printed_object};

use crate::begin::begin;
use object_text::Object;
use objects::read_object;
use seq_base::{Bytes, Id};
use seq_model::{Denial, Refusal, Reply, refused};
use seq_outside::{Halt, Store};
use start_checks::{Basis, file_halt};
use std::alloc::Global;

/// The id that forty hex digits spell, in either case.
#[tactic(auto, unfolding(ref_text::specs::ReadHeads::id_in), using(ref_text::proofs::HeadLaws::no_id))]
fn id_in(text: &[u8]) -> Option<Id>
    ensures { result ≡ id_in_text text.now }
{
    match Id::from_hex(text) {
        Ok(id) => Some(id),
        Err(_) => None,
    }
}

#[tactic(auto, unfolding(crate::specs::Printing::id_named))]
fn id_named(alloc: Global, word: &[u8]) -> Result<Id, Halt<Denial>>
    ensures gives { Gives (λ id. id) result (id_by word.now) }
    ensures no_fault { IsErrOf result Halt.Fault → ⊥ }
{
    match id_in(word) {
        Some(id) => Ok(id),
        None => {
            let word = Bytes::from_vec(word.to_vec(alloc)?);
            Err(refused(Refusal::BadRevForm { word }))
        }
    }
}

fn object<S: Store>(alloc: Global, id: Id, store: &mut S) -> Result<Object, Halt<Denial>>
    ensures gives { S.told → Gives (λ o. o) result (for_reason denied_file (object_named (S.seen store.old).content id)) }
    ensures reads { Reads S.told halt_cause result (S.seen store.old) (S.seen store.new) }
{
    match read_object(alloc, store, id) {
        Ok(object) => Ok(object),
        Err(halt) => Err(file_halt(halt)),
    }
}

/// The content of the object whose id the word is (git-cat-file(1)). BadRevForm where it is no forty hex digits, then BadObject, or Limit,
/// where the object cannot be read.
#[tactic(auto, unfolding(crate::specs::Printing::printed_object))]
pub fn print_object<S: Store>(
    alloc: Global,
    word: &[u8],
    store: &mut S,
) -> Result<Reply, Halt<Denial>>
    ensures gives { S.told → Gives (λ reply. reply) result (printed_object word.now (S.seen store.old).content) }
    ensures reads { Reads S.told halt_cause result (S.seen store.old) (S.seen store.new) }
{
    let Basis { place, .. } = begin(alloc, store)?;
    let id = id_named(alloc, word)?;
    let Object { bytes, .. } = object(alloc, id, store)?;
    Ok(Reply {
        head: place.tip,
        own: bytes,
    })
}
