//! The only parent of a commit.

ghost use Rattle.std.specs.Prelude.{◌≡◌, IsErrOf};
ghost use Rattle.seq_model.specs.Pick.{only_parent as only_parent_of};
ghost use Rattle.seq_outside.specs.Halts.{Gives};

use object_text::Commit;
use seq_base::Id;
use seq_model::{Denial, Refusal, refused};
use seq_outside::Halt;

/// The only parent of a commit.
pub fn only_parent(commit: &Commit) -> Result<Id, Halt<Denial>>
    ensures gives { Gives (λ id. id) result (only_parent_of commit.now.parents) }
    ensures no_fault { IsErrOf result Halt.Fault → ⊥ }
{
    match commit.parents.as_slice() {
        [parent] => Ok(*parent),
        _ => Err(refused(Refusal::NotBuilt)),
    }
}
