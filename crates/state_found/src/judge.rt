//! The first file that is not what the control that was recalled has.

ghost use Rattle.std.specs.Prelude.{◌≡◌, IfOk, max};
ghost use Rattle.state_found.specs.Judged.{first_misfit as first_misfit_by, number_at as number_at_by, same_text as same_text_by, wanted as wanted_by};
ghost use Rattle.state_reading.specs.Recalls.{is_file as is_file_by};
ghost use Rattle.state_text.specs.Controls.{IsTold};
ghost use Rattle.state_text.specs.Texts.{number_line};

use grammar::{ReadError, decimal_of};
use itoa::Buffer;
use seq_base::Bytes;
use state_text::{Control, StateFile, file_name, file_text};
use std::alloc::{AllocError, Global};

/// The number that `end` tells.
pub fn number_at(bytes: &[u8]) -> Result<u64, AllocError>
    ensures { IfOk result (λ number. number ≡ number_at_by bytes.now) }
{
    match decimal_of(b'\n', bytes) {
        Ok((number, _)) => Ok(number),
        Err(ReadError::Memory) => Err(AllocError),
        Err(ReadError::Stopped { .. }) => Ok(0),
    }
}

fn number_text(alloc: Global, number: u64) -> Result<Bytes, AllocError>
    ensures { IfOk result (λ text. text ≡ number_line number) }
{
    let mut text = Vec::new(alloc);
    let mut buffer = Buffer::new();
    text.extend_from_slice(buffer.format(number).as_bytes())?;
    text.push(b'\n')?;
    Ok(Bytes::from_vec(text))
}

fn most(number: u64, lines: usize) -> u64
    ensures { result ≡ max number lines }
{
    if number < lines as u64 {
        lines as u64
    } else {
        number
    }
}

fn is_end(file: StateFile) -> bool
    ensures { result ≡ is_file_by file StateFile.End }
{
    file_name(file) == file_name(StateFile::End)
}

/// What the file is to hold, where so many lines were in all.
fn wanted(
    alloc: Global,
    number: u64,
    file: StateFile,
    control: &Control,
) -> Result<Option<Bytes>, AllocError>
    requires { IsTold control.now }
    ensures { IfOk result (λ text. text ≡ wanted_by number file control.now) }
{
    if is_end(file) {
        let lines = most(number, control.done.as_slice().len());
        return Ok(Some(number_text(alloc, lines)?));
    }
    file_text(alloc, file, control)
}

fn same_text(a: &Option<Bytes>, b: &Option<Bytes>) -> bool
    ensures { result ≡ same_text_by a.now b.now }
{
    match (a, b) {
        (Some(a), Some(b)) => a.as_slice() == b.as_slice(),
        (None, None) => true,
        (Some(_), None) | (None, Some(_)) => false,
    }
}

/// The first file that does not hold what it is to hold.
pub fn first_misfit(
    alloc: Global,
    number: u64,
    control: &Control,
    found: &[(StateFile, Option<Bytes>)],
) -> Result<Option<StateFile>, AllocError>
    requires { IsTold control.now }
    ensures { IfOk result (λ misfit. misfit ≡ first_misfit_by number control.now found.now) }
{
    let mut rest = found;
    while let [(file, text), after @ ..] = rest {
        if !same_text(text, &wanted(alloc, number, *file, control)?) {
            return Ok(Some(*file));
        }
        rest = after;
    }
    Ok(None)
}
