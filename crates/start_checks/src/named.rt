//! The commits that a command begins with.

ghost use Rattle.std.specs.Prelude.{◌≡◌, IfOk, IsErrOf};
ghost use Rattle.seq_model.specs.Checks.{born as born_at, commit_by as commit_by_word, denied_rev as denied_rev_of};
ghost use Rattle.seq_outside.specs.Halts.{Gives, halt_cause};
ghost use Rattle.seq_outside.specs.Seen.{Reads};

use rev_names::{RevFault, resolve_rev};
use seq_base::{Bytes, Id};
use seq_model::{Denial, LimitWhat, Refusal, refused};
use seq_outside::{Halt, Store};
use std::alloc::{AllocError, Global};

/// What is refused of a word that names no commit.
fn denied_word(word: Bytes, fault: RevFault) -> Denial
    ensures { result ≡ denied_rev_of word fault }
{
    match fault {
        RevFault::NoSuch => Denial::Refused(Refusal::NoSuchRev { word }),
        RevFault::Ambiguous { first, second } => Denial::Refused(Refusal::AmbiguousRev {
            word,
            first,
            second,
        }),
        RevFault::NotACommit => Denial::Refused(Refusal::NotACommit { word }),
        RevFault::NoParent => Denial::Refused(Refusal::NoParent { word }),
        RevFault::NoLogEntry => Denial::Refused(Refusal::NoLogEntry { word }),
        RevFault::Form => Denial::Refused(Refusal::BadRevForm { word }),
        RevFault::BadObject { id } => Denial::Refused(Refusal::BadObject { id }),
        RevFault::TooLarge { length } => Denial::Limit {
            what: LimitWhat::ObjectBytes,
            number: length,
        },
        RevFault::Parents { count } => Denial::Limit {
            what: LimitWhat::Parents,
            number: count,
        },
        RevFault::BadRef { .. } => Denial::Refused(Refusal::NoSuchRev { word }),
    }
}

fn denied_rev(alloc: Global, word: &[u8], fault: RevFault) -> Result<Denial, AllocError>
    ensures { IfOk result (λ denial. denial ≡ denied_rev_of word.now fault) }
{
    let word = Bytes::from_vec(word.to_vec(alloc)?);
    Ok(denied_word(word, fault))
}

/// The commit that a word names (gitrevisions(7)), else the refusal of the word, or that of an object on the way.
#[tactic(auto, unfolding(seq_model::specs::Checks::commit_by))]
pub fn commit_by<S: Store>(alloc: Global, word: &[u8], store: &mut S) -> Result<Id, Halt<Denial>>
    ensures gives { S.told → Gives (λ id. id) result (commit_by_word (S.seen store.old).content word.now) }
    ensures reads { Reads S.told halt_cause result (S.seen store.old) (S.seen store.new) }
{
    match resolve_rev(alloc, store, word) {
        Ok(id) => Ok(id),
        Err(Halt::Stops(fault)) => Err(Halt::Stops(denied_rev(alloc, word, fault)?)),
        Err(Halt::Fault) => Err(Halt::Fault),
        Err(Halt::Memory) => Err(Halt::Memory),
    }
}

/// The commit that HEAD is at. UnbornHead where its branch has none yet.
#[tactic(auto, unfolding(seq_model::specs::Checks::born))]
pub fn born(tip: Option<Id>) -> Result<Id, Halt<Denial>>
    ensures gives { Gives (λ id. id) result (born_at tip) }
    ensures no_fault { IsErrOf result Halt.Fault → ⊥ }
{
    match tip {
        Some(id) => Ok(id),
        None => Err(refused(Refusal::UnbornHead)),
    }
}
