//! What HEAD is, in answers.

use crate::answer::Answer;
use ref_text::Head;
use std::alloc::AllocError;

/// `branch` and its name, or `detached` and an id.
pub fn put_head(out: &mut Answer, head: &Head) -> Result<(), AllocError> {
    match head {
        Head::Branch(name) => out.named(b"branch", name.as_slice()),
        Head::Detached(id) => {
            out.word(b"detached")?;
            out.id(*id)
        }
    }
}
