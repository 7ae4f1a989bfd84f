//! The laws.

ghost use Rattle.pick_laws.specs.Leaving.{IsMade, Leaves, Pick};

use seq_base::Id;
use seq_outside::Env;

/// After a pick HEAD is at the new commit, and so is its branch, if it is on one; that reads back as one on what HEAD was at, by the author
/// and with the message of the one that was picked; its tree has the map of the merge, the index is that map, and no file differs from it.
pub fn pick_leaves(env: &Env, word: &[u8], id: &Id)
    ghost pick: { Pick }
    requires { IsMade env.now word.now pick id.now }
    ensures { Leaves pick.new pick.finding id.now }
{}
