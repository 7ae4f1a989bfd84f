//! Names of labels and of refs to be updated.

ghost use Rattle.std.specs.Prelude.{◌≡◌, IfOk};
ghost use Rattle.todo_text.specs.Names.{is_label, is_updatable};

use crate::words::is_hash;
use seq_base::is_ref_name;
use std::alloc::{AllocError, Global};

/// Whether a label may have the name: it is not `#`, and makes a ref below `refs/rewritten/`.
#[tactic(auto, unfolding(crate::specs::Names::is_label))]
pub fn is_label(alloc: Global, name: &[u8]) -> Result<bool, AllocError>
    ensures { IfOk result (λ answer. answer ≡ is_label name.now) }
{
    if is_hash(name) {
        return Ok(false);
    }
    let mut full = Vec::from_slice(alloc, b"refs/rewritten/")?;
    full.extend_from_slice(name)?;
    Ok(is_ref_name(full.as_slice()))
}

/// Whether a ref may be updated: it lies below `refs/`, and is no label's.
#[tactic(auto, unfolding(crate::specs::Names::is_updatable))]
pub fn is_updatable(name: &[u8]) -> bool
    ensures { result ≡ is_updatable name.now }
{
    is_ref_name(name) && name.starts_with(b"refs/") && !name.starts_with(b"refs/rewritten/")
}
