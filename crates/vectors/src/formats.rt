//! Cases of `grammar`.

use crate::failure::{Failure, value};
use cases::{Answer, Case, CaseFault};
use grammar::{
    ByteTest, ReadError, behind_literal, decimal_of, line_of_place, passing_front, word_of,
};
use std::alloc::AllocError;

#[derive(Drop)]
struct Digit;

impl ByteTest for Digit {
    ghost use Rattle.std.specs.Char.{is_ascii_digit};

    ghost passes = { λ _ b. is_ascii_digit b };

    fn is_met(&self, byte: u8) -> bool {
        byte.is_ascii_digit()
    }
}

impl Failure for ReadError {
    fn tell(self, out: &mut Answer) -> Result<(), AllocError> {
        match self {
            ReadError::Memory => Err(AllocError),
            ReadError::Stopped { left } => out.counted(b"stopped", left as u64),
        }
    }
}

/// A format of one line: `v`, two digits, `.`, digits, and the end of the line.
fn minor_of(bytes: &[u8]) -> Result<(&[u8], &[u8]), ReadError> {
    let rest = behind_literal(b"v", bytes)?;
    let (_, rest) = passing_front(&Digit, 2, rest)?;
    let rest = behind_literal(b".", rest)?;
    word_of(Digit, b'\n', rest)
}

/// TEXT
pub fn minor(case: &mut Case<'_>) -> Result<(), CaseFault> {
    let read = minor_of(case.fields.bytes()?);
    let (minor, rest) = value(read, &mut case.out)?;
    case.out.bytes(minor)?;
    case.out.bytes(rest)?;
    Ok(())
}

/// TEXT
pub fn decimal(case: &mut Case<'_>) -> Result<(), CaseFault> {
    let read = decimal_of(b' ', case.fields.bytes()?);
    let (number, rest) = value(read, &mut case.out)?;
    case.out.number(number)?;
    case.out.bytes(rest)?;
    Ok(())
}

/// PLACE TEXT
pub fn line(case: &mut Case<'_>) -> Result<(), CaseFault> {
    let place = case.fields.number()?;
    let text = case.fields.bytes()?;
    if place > text.len() as u64 {
        return Err(CaseFault::Value);
    }
    case.out.number(line_of_place(text, place as usize))?;
    Ok(())
}
