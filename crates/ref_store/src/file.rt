//! Files that are read.

ghost use Rattle.std.specs.FinMap as map;
ghost use Rattle.std.specs.Prelude.{◌≡◌, [], IfOk, unwrap_or};
ghost use Rattle.seq_base.specs.StorePaths.{IsStorePath};
ghost use Rattle.seq_outside.specs.Seen.{Reads, store_cause};

use seq_outside::{Store, StoreError};
use std::alloc::Global;

/// The bytes of a file, of which a missing one has none.
pub fn file_text<S: Store>(alloc: Global, store: &mut S, path: &[u8]) -> Result<Vec<u8>, StoreError>
    requires { IsStorePath path.now }
    ensures text { S.told → IfOk result (λ text. text.items ≡ unwrap_or (map.get (S.seen store.old).content path.now) []) }
    ensures reads { Reads S.told store_cause result (S.seen store.old) (S.seen store.new) }
{
    match store.get(alloc, path)? {
        Some(text) => Ok(text),
        None => Ok(Vec::new(alloc)),
    }
}
