//! The file `opts`.

ghost use Rattle.std.specs.Prelude.{◌≡◌, IfOk};
ghost use Rattle.grammar.specs.Decimals.{capped_decimal_at};
ghost use Rattle.state_reading.specs.Lines.{behind as behind_key};
ghost use Rattle.state_reading.specs.Recalls.{Recalls};
ghost use Rattle.state_reading.specs.Settings.{AreSet, flags_at as flags_at_by, is_there, mainline_at as mainline_at_by, opts_at as opts_at_by, parent_of as parent_of_by, read_mainline, rest_or, set_text};

use crate::keys::behind_of;
use crate::settings::behind_line;
use grammar::{ReadError, decimal_of};
use std::alloc::AllocError;

/// What `opts` says.
#[derive(Clone, Copy, Debug, PartialEq, Eq)]
pub struct SetOptions {
    /// The parent, from 1, against which a merge is picked.
    pub mainline: Option<u32>,
    pub edit: bool,
    pub record_origin: bool,
    pub allow_empty: bool,
}

/// Whether the line of a key stands there, and what stands behind it.
fn flag_at(line: &[u8], bytes: &[u8]) -> Result<bool, AllocError>
    ensures { IfOk result (λ there. there ≡ is_there (behind_key line.now bytes.now)) }
{
    match behind_of(line, bytes)? {
        Some(_) => Ok(true),
        None => Ok(false),
    }
}

fn behind_flag<'a>(line: &[u8], bytes: &'a [u8]) -> Result<&'a [u8], AllocError>
    ensures { IfOk result (λ rest. rest.now ≡ rest_or (behind_key line.now bytes.now) bytes.now) }
{
    match behind_of(line, bytes)? {
        Some(rest) => Ok(rest),
        None => Ok(bytes),
    }
}

fn parent_of(number: u64) -> Option<u32>
    ensures { result ≡ parent_of_by number }
{
    if number < 0x1_0000_0000 {
        Some(number as u32)
    } else {
        None
    }
}

fn number_at(bytes: &[u8]) -> Result<(Option<u32>, &[u8]), AllocError>
    ensures { IfOk result (λ x. (x.0, x.1.now) ≡ read_mainline (capped_decimal_at 10 bytes.now) bytes.now) }
{
    match decimal_of(b'\n', bytes) {
        Ok((number, rest)) => Ok((parent_of(number), rest)),
        Err(ReadError::Memory) => Err(AllocError),
        Err(ReadError::Stopped { .. }) => Ok((None, bytes)),
    }
}

fn mainline_at(bytes: &[u8]) -> Result<(Option<u32>, &[u8]), AllocError>
    ensures { IfOk result (λ x. (x.0, x.1.now) ≡ mainline_at_by bytes.now) }
{
    match behind_of(b"\tmainline = ", bytes)? {
        Some(rest) => number_at(rest),
        None => Ok((None, bytes)),
    }
}

fn flags_at(mainline: Option<u32>, bytes: &[u8]) -> Result<SetOptions, AllocError>
    ensures { IfOk result (λ options. options ≡ flags_at_by (mainline, bytes.now)) }
{
    let edit = flag_at(b"\tedit = true\n", bytes)?;
    let behind_edit = behind_flag(b"\tedit = true\n", bytes)?;
    let record_origin = flag_at(b"\trecord-origin = true\n", behind_edit)?;
    let behind_origin = behind_flag(b"\trecord-origin = true\n", behind_edit)?;
    let allow_empty = flag_at(b"\tallow-empty = true\n", behind_origin)?;
    Ok(SetOptions {
        mainline,
        edit,
        record_origin,
        allow_empty,
    })
}

fn opts_at(bytes: &[u8]) -> Result<SetOptions, AllocError>
    ensures { IfOk result (λ options. options ≡ opts_at_by bytes.now) }
{
    let (mainline, rest) = mainline_at(behind_line(bytes))?;
    flags_at(mainline, rest)
}

/// The options of a cherry-pick or a revert.
pub fn read_opts(bytes: &[u8]) -> Result<SetOptions, AllocError>
    ensures { IfOk result (λ options. Recalls AreSet set_text bytes.now options) }
{
    opts_at(bytes)
}
