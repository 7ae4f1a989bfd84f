//! The commit that a word names.

ghost use Rattle.std.specs.Prelude.{◌≡◌, IsErrOf};
ghost use Rattle.rev_names.specs.Revs.{label_at, rev_at, said_by};
ghost use Rattle.rev_text.specs.Revs.{said};
ghost use Rattle.seq_outside.specs.Halts.{Gives, halt_cause};
ghost use Rattle.seq_outside.specs.Seen.{Reads};

use crate::base::{base_id, label_id};
use crate::fault::RevFault;
use crate::steps::commit_behind;
use rev_text::{Rev, RevTextFault, parse_rev};
use seq_base::Id;
use seq_outside::{Halt, Store};
use std::alloc::Global;

#[tactic(auto, unfolding(crate::specs::Revs::said_by))]
fn said_in(alloc: Global, word: &[u8]) -> Result<Rev, Halt<RevFault>>
    ensures gives { Gives said result (said_by word.now) }
    ensures no_fault { IsErrOf result Halt.Fault → ⊥ }
{
    match parse_rev(alloc, word) {
        Ok(rev) => Ok(rev),
        Err(RevTextFault::Form) => Err(Halt::Stops(RevFault::Form)),
        Err(RevTextFault::Memory) => Err(Halt::Memory),
    }
}

/// The commit that a word names (gitrevisions(7)). Form where the word has no form that names one. Its base is forty digits of an id; else
/// the first of `<base>`, `refs/<base>`, `refs/tags/<base>`, `refs/heads/<base>`, `refs/remotes/<base>` and `refs/remotes/<base>/HEAD` that
/// has a value, where `@` is HEAD; else the object whose id begins with its 4 to 39 digits: NoSuch and Ambiguous, by the objects of all kinds. BadRef
/// where a ref on the way is bad. `@{N}` is the new value of the line N lines before the last of the log of the ref that was found, or NoLogEntry;
/// Form behind an id or its digits. The object is followed through at most sixteen tags to a commit; NotACommit where it leads to none.
/// Then each step is taken, from left to right; NoParent where there is none. BadObject, TooLarge or Parents at the first object that is
/// missing, damaged, too large, or a commit with more than 16 parents.
#[tactic(auto, unfolding(crate::specs::Revs::rev_at))]
pub fn resolve_rev<S: Store>(
    alloc: Global,
    store: &mut S,
    word: &[u8],
) -> Result<Id, Halt<RevFault>>
    ensures gives { S.told → Gives (λ id. id) result (rev_at (S.seen store.old).content word.now) }
    ensures reads { Reads S.told halt_cause result (S.seen store.old) (S.seen store.new) }
{
    let rev = said_in(alloc, word)?;
    let id = base_id(alloc, store, rev.base.as_slice(), rev.entry)?;
    commit_behind(alloc, store, id, &rev.steps)
}

/// The same, where a label, `refs/rewritten/<base>`, goes before all others, also before forty digits (git-rebase(1), "REBASING MERGES").
#[tactic(auto, unfolding(crate::specs::Revs::label_at))]
pub fn resolve_label<S: Store>(
    alloc: Global,
    store: &mut S,
    word: &[u8],
) -> Result<Id, Halt<RevFault>>
    ensures gives { S.told → Gives (λ id. id) result (label_at (S.seen store.old).content word.now) }
    ensures reads { Reads S.told halt_cause result (S.seen store.old) (S.seen store.new) }
{
    let rev = said_in(alloc, word)?;
    let id = label_id(alloc, store, rev.base.as_slice(), rev.entry)?;
    commit_behind(alloc, store, id, &rev.steps)
}
