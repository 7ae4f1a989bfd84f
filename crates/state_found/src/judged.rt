//! The files of a stopped list are judged.

ghost use Rattle.std.specs.Prelude.{◌≡◌, ◌<◌, ◌^◌, IfOk, length};
ghost use Rattle.state_found.specs.Judged.{IsRebaseJudged, IsSequenceJudged, RebaseJudged, SequenceJudged};
ghost use Rattle.state_found.specs.Found.{has_lines as has_lines_by};
ghost use Rattle.state_found.specs.Recalled.{IsRebaseIn, IsSequenceIn};

use crate::judge::{first_misfit, number_at};
use crate::left::left_of;
use crate::rebase::rebase_in;
use crate::sequence::sequence_in;
use seq_base::Bytes;
use state_reading::bytes_at;
use state_text::{Control, StateFile};
use std::alloc::{AllocError, Global};

fn line_count(control: &Control) -> usize
    ensures same { result ≡ length control.now.done }
    ensures small { length control.now.done < 2 ^ 64 }
{
    control.done.as_slice().len()
}

fn has_lines(control: &Control) -> bool
    ensures { result ≡ has_lines_by control.now.done }
{
    !control.done.as_slice().is_empty()
}

/// The first file that does not hold what the rebase has that was recalled.
#[tactic(auto, using(crate::proofs::ToldLaws::rebase_told))]
fn rebase_misfit(
    alloc: Global,
    control: &Control,
    found: &[(StateFile, Option<Bytes>)],
) -> Result<Option<StateFile>, AllocError>
    requires { IsRebaseIn found.now control.now }
    ensures { IfOk result (λ misfit. RebaseJudged found.now misfit control.now) }
{
    let _count = line_count(control);
    let number = number_at(bytes_at(found, StateFile::End))?;
    first_misfit(alloc, number, control, found)
}

/// The rebase that the files tell, with what is left of it; or the first file that tells of none.
#[tactic(auto, using(crate::proofs::ToldLaws::rebase_kept, crate::proofs::ToldLaws::rebase_bad))]
pub fn judge_rebase(
    alloc: Global,
    found: &[(StateFile, Option<Bytes>)],
    todo: &[u8],
) -> Result<Result<Control, StateFile>, AllocError>
    ensures { IfOk result (λ judged. IsRebaseJudged found.now todo.now judged) }
{
    let mut control = rebase_in(alloc, found)?;
    if let Some(file) = rebase_misfit(alloc, &control, found)? {
        return Ok(Err(file));
    }
    control.left = left_of(alloc, todo, has_lines(&control))?;
    Ok(Ok(control))
}

#[tactic(auto, using(crate::proofs::ToldLaws::sequence_told))]
fn sequence_misfit(
    alloc: Global,
    control: &Control,
    found: &[(StateFile, Option<Bytes>)],
) -> Result<Option<StateFile>, AllocError>
    requires { IsSequenceIn found.now control.now }
    ensures { IfOk result (λ misfit. SequenceJudged found.now misfit control.now) }
{
    first_misfit(alloc, 0, control, found)
}

/// The cherry-pick or revert that the files tell, or the first file that tells of none.
#[tactic(auto, using(crate::proofs::ToldLaws::sequence_bad))]
pub fn judge_sequence(
    alloc: Global,
    found: &[(StateFile, Option<Bytes>)],
) -> Result<Result<Control, StateFile>, AllocError>
    ensures { IfOk result (λ judged. IsSequenceJudged found.now judged) }
{
    let control = sequence_in(alloc, found)?;
    match sequence_misfit(alloc, &control, found)? {
        Some(file) => Ok(Err(file)),
        None => Ok(Ok(control)),
    }
}
