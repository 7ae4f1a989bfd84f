//! Writes, in answers.

use crate::answer::Answer;
use seq_outside::Write;
use std::alloc::AllocError;

/// How many there are, and each in its order.
pub fn put_writes(out: &mut Answer, writes: &[Write]) -> Result<(), AllocError> {
    out.counted(b"writes", writes.len() as u64)?;
    for write in writes {
        match write {
            Write::Put { path, bytes } => {
                out.named(b"put", path.as_slice())?;
                out.bytes(bytes.as_slice())?;
            }
            Write::Remove { path } => out.named(b"removed", path.as_slice())?,
        }
    }
    Ok(())
}
