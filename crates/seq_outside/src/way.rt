//! What is in the way of a put.

ghost use Rattle.std.specs.Prelude.{◌≡◌, IfOk};
ghost use Rattle.seq_base.specs.StorePaths.{IsStorePath};
ghost use Rattle.seq_base.specs.World.{is_blocked as is_blocked_in};
ghost use Rattle.seq_outside.specs.Seen.{Reads, store_cause};

use crate::changes::Changes;
use crate::drafted;
use crate::store::{Store, StoreError};
use std::alloc::Global;

/// Whether a put at the path would be blocked: a file stands in the place of one of its folders, or below it.
pub fn is_blocked<S: Store>(alloc: Global, store: &mut S, path: &[u8]) -> Result<bool, StoreError>
    requires { IsStorePath path.now }
    ensures found { S.told → IfOk result (λ found. found ≡ is_blocked_in (S.seen store.old).content path.now) }
    ensures reads { Reads S.told store_cause result (S.seen store.old) (S.seen store.new) }
{
    let changes = Changes::new(alloc);
    drafted::is_blocked(alloc, &changes, store, path)
}
