//! Lines of a reflog, in cases and in answers.

ghost use Rattle.ref_text.specs.Logs.{IsLogValue, IsOldValue};
ghost use Rattle.std.specs.List.{list_all};
ghost use Rattle.std.specs.Prelude.{◌≡◌, ◌==◌, IfOk, not};

use crate::answer::Answer;
use crate::case::Case;
use crate::fault::CaseFault;
use ident_text::parse_ident;
use ref_text::LogLine;
use seq_base::{Bytes, Id};
use std::alloc::AllocError;

fn has_no_line_feed(message: &[u8]) -> bool
    ensures { result ≡ list_all (λ b. not (b == 10)) message.now }
{
    message.iter().all(|b| *b != b'\n')
}

/// NEW IDENT MESSAGE: a line behind this old value.
pub fn log_line_behind(case: &mut Case<'_>, old: Option<Id>) -> Result<LogLine, CaseFault>
    requires { IsOldValue old }
    ensures { IfOk result (λ line. IsLogValue line) }
{
    let new = case.fields.id()?;
    let ident = case.fields.bytes()?;
    let message = case.fields.bytes()?;
    if !has_no_line_feed(message) {
        return Err(CaseFault::Value);
    }
    let Ok(_who) = parse_ident(case.alloc, ident) else {
        return Err(CaseFault::Value)
    };
    Ok(LogLine {
        old,
        new,
        ident: Bytes::from_vec(Vec::from_slice(case.alloc, ident)?),
        message: Bytes::from_vec(Vec::from_slice(case.alloc, message)?),
    })
}

/// OLD NEW IDENT MESSAGE: a line. OLD is `none` or an id other than forty zeros.
pub fn log_line_of(case: &mut Case<'_>) -> Result<LogLine, CaseFault>
    ensures { IfOk result (λ line. IsLogValue line) }
{
    let old = case.fields.id_or_none()?;
    if let Some(id) = old {
        if id == Id::from_bytes([0; 20]) {
            return Err(CaseFault::Value);
        }
    }
    log_line_behind(case, old)
}

/// Old value, new value, ident and message.
pub fn put_log_line(out: &mut Answer, line: &LogLine) -> Result<(), AllocError> {
    out.id_or_none(line.old)?;
    out.id(line.new)?;
    out.bytes(line.ident.as_slice())?;
    out.bytes(line.message.as_slice())
}
