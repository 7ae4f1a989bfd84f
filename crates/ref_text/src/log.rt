//! Reflogs.

ghost use Rattle.std.specs.Prelude.{◌≡◌, ◌++◌, IfOk};
ghost use Rattle.hex.specs.Hex.{encode_lower};
ghost use Rattle.ref_text.specs.Logs.{IsLogLine, IsLogValue, IsOldValue, SpellsOld, line_of_fields, log_text as text_of_line, old_text as digits_of};

use seq_base::{Bytes, Id};
use std::alloc::{AllocError, Global};

/// A line of a reflog.
#[derive(Debug, Clone, PartialEq, Eq, Drop)]
pub struct LogLine {
    /// The value before, if there was one.
    pub old: Option<Id>,
    pub new: Id,
    /// Who moved the ref and when, as an ident's text.
    pub ident: Bytes,
    /// Without a line feed.
    pub message: Bytes,
}

pub const NO_VALUE: &[u8; 40] = b"0000000000000000000000000000000000000000";

/// The digits of the old value, or forty zeros.
#[tactic(auto, using(crate::proofs::Written::old_spells))]
fn old_text(alloc: Global, old: &Option<Id>) -> Result<Vec<u8>, AllocError>
    requires { IsOldValue old.now }
    ensures text { IfOk result (λ text. text.items ≡ digits_of old.now) }
    ensures spells { IfOk result (λ _. SpellsOld old.now (digits_of old.now)) }
{
    match old {
        None => Vec::from_slice(alloc, NO_VALUE),
        Some(id) => id.hex(alloc),
    }
}

/// The fields with what stands between them.
fn joined(
    alloc: Global,
    old: &[u8],
    new: &[u8],
    ident: &[u8],
    message: &[u8],
) -> Result<Vec<u8>, AllocError>
    ensures { IfOk result (λ text. text.items ≡ line_of_fields old.now new.now ident.now message.now) }
{
    let mut text = Vec::from_slice(alloc, old)?;
    text.push(b' ')?;
    text.extend_from_slice(new)?;
    text.push(b' ')?;
    text.extend_from_slice(ident)?;
    text.push(b'\t')?;
    text.extend_from_slice(message)?;
    text.push(b'\n')?;
    Ok(text)
}

/// The text of a line of a reflog: `<old> SP <new> SP <ident> TAB <message> LF`, with digits in lower case, and forty zeros for no
/// old value (git-reflog(1); gitrepository-layout(5), "logs"). The ident is an ident's text, the message holds no LF, and no old
/// value is an id of zeros.
#[tactic(auto, using(crate::proofs::Written::line_spells))]
pub fn log_text(alloc: Global, line: &LogLine) -> Result<Vec<u8>, AllocError>
    requires { IsLogValue line.now }
    ensures text { IfOk result (λ text. text.items ≡ text_of_line line.now) }
    ensures spells { IfOk result (λ text. IsLogLine line.now text.items) }
{
    let old = old_text(alloc, &line.old)?;
    let new = line.new.hex(alloc)?;
    joined(
        alloc,
        &old,
        &new,
        line.ident.as_slice(),
        line.message.as_slice(),
    )
}
