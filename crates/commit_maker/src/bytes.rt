//! Copies.

ghost use Rattle.std.specs.Prelude.{◌≡◌, IfOk};

use seq_base::Bytes;
use std::alloc::{AllocError, Global};

pub fn copy_of(alloc: Global, text: &[u8]) -> Result<Bytes, AllocError>
    ensures { IfOk result (λ copy. copy ≡ text.now) }
{
    Ok(Bytes::from_vec(text.to_vec(alloc)?))
}
