//! What is left of a rebase.

ghost use Rattle.std.specs.Prelude.{◌≡◌, IfOk};
ghost use Rattle.state_found.specs.Judged.{IsOnlyLeft};

use seq_base::Bytes;
use state_text::{Left, Lines};
use std::alloc::{AllocError, Global};
use todo_text::{TodoFault, parse_todo};

fn raw_left(alloc: Global, bytes: &[u8]) -> Result<Left, AllocError>
    ensures { IfOk result (λ left. left ≡ Left.Raw bytes.now) }
{
    Ok(Left::Raw(Bytes::from_vec(Vec::from_slice(alloc, bytes)?)))
}

/// The lines that a todo reads as, where there is an earlier line or not; else its bytes.
#[tactic(auto, using(crate::proofs::LeftLaws::only_lines, crate::proofs::LeftLaws::only_bytes))]
pub fn left_of(alloc: Global, bytes: &[u8], earlier: bool) -> Result<Left, AllocError>
    ensures { IfOk result (λ left. IsOnlyLeft earlier bytes.now left) }
{
    match parse_todo(alloc, bytes, earlier) {
        Ok(lines) => Ok(Left::Lines(Lines::from_vec(lines))),
        Err(TodoFault::Bad { .. }) => raw_left(alloc, bytes),
        Err(TodoFault::Memory) => Err(AllocError),
    }
}
