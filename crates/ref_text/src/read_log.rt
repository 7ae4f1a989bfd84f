//! Reflogs, read from left to right.

ghost use Rattle.std.specs.Prelude.{◌≡◌, IfOk};
ghost use Rattle.grammar.specs.Gives.{Gives};
ghost use Rattle.grammar.specs.Grammar.{IsReading};
ghost use Rattle.hex.specs.Hex.{is_hex_digit};
ghost use Rattle.ref_text.specs.Faults.{IsLineFault};
ghost use Rattle.ref_text.specs.Logs.{IsLog};
ghost use Rattle.ref_text.specs.ReadLines.{GivesLines, log_of};
ghost use Rattle.ref_text.specs.ReadLogs.{AreDigits, digits_from, id_of as id_of_digits, in_line, line_from, log_from, made, old_of as old_of_digits, who_from};

use crate::fault::{LineFault, bad_line};
use crate::log::{LogLine, NO_VALUE};
use grammar::{ByteTest, ReadError, behind_literal, passing_front, word_of};
use ident_text::ident_of;
use seq_base::{Bytes, Id};
use std::alloc::{AllocError, Global};

#[derive(Drop)]
pub struct HexDigit;

impl ByteTest for HexDigit {
    ghost passes = { λ _ b. is_hex_digit b };

    fn is_met(&self, byte: u8) -> bool {
        byte.is_ascii_hexdigit()
    }
}

#[derive(Drop)]
pub struct LineByte;

impl ByteTest for LineByte {
    ghost passes = { λ _ b. in_line b };

    fn is_met(&self, byte: u8) -> bool {
        byte != b'\n'
    }
}

/// The fields of a line, where they stand in its text.
#[derive(Drop)]
struct Fields<'a> {
    old: &'a [u8],
    new: &'a [u8],
    ident: &'a [u8],
    message: &'a [u8],
}

/// Forty hex digits, and what is behind the SP that follows.
#[tactic(auto, unfolding(crate::specs::ReadLogs::digits_from))]
pub fn digits_of(bytes: &[u8]) -> Result<(&[u8], &[u8]), ReadError>
    ensures read { Gives (λ x. (x.0.now, x.1.now)) result (digits_from bytes.now) }
    ensures digits { IfOk result (λ x. AreDigits x.0.now) }
{
    let (digits, rest) = passing_front(&HexDigit, 40, bytes)?;
    let rest = behind_literal(b" ", rest)?;
    Ok((digits, rest))
}

/// The text of the ident, and what is behind the TAB that follows.
#[tactic(auto, unfolding(crate::specs::ReadLogs::who_from))]
fn who_of(bytes: &[u8]) -> Result<(&[u8], &[u8]), ReadError>
    ensures { Gives (λ x. (x.0.now, x.1.now)) result (who_from bytes.now) }
{
    let (_, rest) = ident_of(bytes)?;
    let ident = &bytes[..bytes.len() - rest.len()];
    let rest = behind_literal(b"\t", rest)?;
    Ok((ident, rest))
}

#[tactic(auto, unfolding(crate::specs::ReadLogs::line_from))]
fn fields_of(bytes: &[u8]) -> Result<(Fields<'_>, &[u8]), ReadError>
    ensures read { Gives (λ x. (made x.0.old.now x.0.new.now x.0.ident.now x.0.message.now, x.1.now)) result (line_from bytes.now) }
    ensures old { IfOk result (λ x. AreDigits x.0.old.now) }
    ensures new { IfOk result (λ x. AreDigits x.0.new.now) }
{
    let (old, rest) = digits_of(bytes)?;
    let (new, rest) = digits_of(rest)?;
    let (ident, rest) = who_of(rest)?;
    let (message, rest) = word_of(LineByte, b'\n', rest)?;
    let fields = Fields {
        old,
        new,
        ident,
        message,
    };
    Ok((fields, rest))
}

#[tactic(auto, using(crate::proofs::LogLaws::digits_spell, crate::proofs::LogLaws::spelled_id))]
pub fn id_of(digits: &[u8]) -> Id
    requires { AreDigits digits.now }
    ensures { result ≡ id_of_digits digits.now }
{
    match Id::from_hex(digits) {
        Ok(id) => id,
        Err(_) => unreachable!(),
    }
}

fn old_of(digits: &[u8]) -> Option<Id>
    requires { AreDigits digits.now }
    ensures { result ≡ old_of_digits digits.now }
{
    if digits == NO_VALUE.as_slice() {
        None
    } else {
        Some(id_of(digits))
    }
}

fn line_of(alloc: Global, fields: &Fields<'_>) -> Result<LogLine, AllocError>
    requires old { AreDigits fields.now.old.now }
    requires new { AreDigits fields.now.new.now }
    ensures { IfOk result (λ line. line ≡ made fields.now.old.now fields.now.new.now fields.now.ident.now fields.now.message.now) }
{
    let ident = Vec::from_slice(alloc, fields.ident)?;
    let message = Vec::from_slice(alloc, fields.message)?;
    Ok(LogLine {
        old: old_of(fields.old),
        new: id_of(fields.new),
        ident: Bytes::from_vec(ident),
        message: Bytes::from_vec(message),
    })
}

fn lines_of(alloc: Global, text: &[u8]) -> Result<Vec<LogLine>, ReadError>
    ensures { Gives (λ v. v.items) result (log_from text.now) }
{
    let mut lines = Vec::new(alloc);
    let mut rest = text;
    while !rest.is_empty() {
        match fields_of(rest) {
            Ok((fields, after)) => {
                let line = line_of(alloc, &fields)?;
                lines.push(line)?;
                rest = after;
            }
            Err(e) => return Err(e),
        }
    }
    Ok(lines)
}

#[tactic(auto, unfolding(crate::specs::ReadLines::log_of))]
fn log_in(alloc: Global, text: &[u8]) -> Result<Vec<LogLine>, LineFault>
    ensures { GivesLines (λ v. v.items) result (log_of text.now) }
{
    match lines_of(alloc, text) {
        Ok(lines) => Ok(lines),
        Err(ReadError::Memory) => Err(LineFault::Memory),
        Err(ReadError::Stopped { left }) => Err(bad_line(text, left)),
    }
}

/// The lines of a reflog, all of its text: for each `<old> SP <new> SP <ident> TAB <message> LF`, where forty zeros stand for no old
/// value, digits stand in either case, and the ident is one of git-commit-tree(1). Bad where it is none, with the first line with
/// which no reflog goes on, counted from 1, or the last one where the text ends too early (git-reflog(1)).
pub fn parse_log(alloc: Global, text: &[u8]) -> Result<Vec<LogLine>, LineFault>
    ensures read { IsReading (λ v. v.items) (IsLineFault IsLog text.now) IsLog text.now result }
    ensures gives { GivesLines (λ v. v.items) result (log_of text.now) }
{
    log_in(alloc, text)
}
