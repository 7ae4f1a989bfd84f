//! The packed refs, read from left to right.

ghost use Rattle.std.specs.Prelude.{◌≡◌, ◌==◌, [], IfOk, None, Some, is_some, List, ℕ};
ghost use Rattle.grammar.specs.Gives.{Gives};
ghost use Rattle.grammar.specs.Grammar.{IsReading};
ghost use Rattle.grammar.specs.Readers.{begins, valued_at};
ghost use Rattle.ref_text.specs.Faults.{IsLineFault};
ghost use Rattle.ref_text.specs.Packed.{ArePackedNames, IsPacked};
ghost use Rattle.ref_text.specs.ReadLines.{GivesLines, packed_of};
ghost use Rattle.ref_text.specs.ReadLogs.{AreDigits, id_of as id_of_digits};
ghost use Rattle.ref_text.specs.ReadPacked.{at_name, behind_all, comment_from, may_name, name_value, named_from, packed_from, packed_line_from, peeled_from};

use crate::fault::{LineFault, bad_line};
use crate::read_log::{HexDigit, LineByte, digits_of, id_of};
use grammar::{ReadError, Scan, behind_literal, passing_front, span_of, word_of};
use seq_base::{Bytes, Id, RefFront, is_ref_name};
use std::alloc::{AllocError, Global};

#[derive(Drop)]
struct NameScan {
    stands: RefFront,
}

impl Scan for NameScan {
    ghost may = { λ _ front. may_name front };

    ghost has_seen = { λ s seen. behind_all at_name [] seen ≡ Some s.stands };

    fn goes_on(&mut self, front: &[u8]) -> bool {
        match self.stands.behind(front) {
            Some(stands) => {
                self.stands = stands;
                true
            }
            None => false,
        }
    }
}

/// The name up to the LF, and what is behind that.
fn name_of(bytes: &[u8]) -> Result<(&[u8], &[u8]), ReadError>
    ensures { Gives (λ x. (x.0.now, x.1.now)) result (valued_at may_name name_value 10 bytes.now) }
{
    let mut scan = NameScan {
        stands: RefFront::new(),
    };
    let (name, rest) = span_of(&mut scan, b'\n', bytes)?;
    if !is_ref_name(name) {
        return Err(ReadError::Stopped {
            left: rest.len() + 1,
        });
    }
    Ok((name, rest))
}

/// What is behind a comment.
#[tactic(auto, unfolding(crate::specs::ReadPacked::comment_from))]
fn behind_comment(bytes: &[u8]) -> Result<&[u8], ReadError>
    ensures { Gives (λ x. (None, x.now)) result (comment_from bytes.now) }
{
    let rest = behind_literal(b"#", bytes)?;
    let (_, rest) = word_of(LineByte, b'\n', rest)?;
    Ok(rest)
}

/// What is behind the line of what a tag points to.
#[tactic(auto, unfolding(crate::specs::ReadPacked::peeled_from))]
fn behind_peeled(bytes: &[u8]) -> Result<&[u8], ReadError>
    ensures { Gives (λ x. (None, x.now)) result (peeled_from bytes.now) }
{
    let rest = behind_literal(b"^", bytes)?;
    let (_, rest) = passing_front(&HexDigit, 40, rest)?;
    behind_literal(b"\n", rest)
}

/// The digits and the name of a ref, and what is behind its line.
#[tactic(auto, unfolding(crate::specs::ReadPacked::named_from))]
fn named_of(bytes: &[u8]) -> Result<(&[u8], &[u8], &[u8]), ReadError>
    ensures read { Gives (λ x. (Some (x.1.now, id_of_digits x.0.now), x.2.now)) result (named_from bytes.now) }
    ensures digits { IfOk result (λ x. AreDigits x.0.now) }
{
    let (digits, rest) = digits_of(bytes)?;
    let (name, rest) = name_of(rest)?;
    Ok((digits, name, rest))
}

fn begins_with(byte: u8, bytes: &[u8]) -> bool
    ensures { result ≡ begins (λ b. b == byte) bytes.now }
{
    match bytes {
        [first, ..] => *first == byte,
        [] => false,
    }
}

fn ref_of(alloc: Global, digits: &[u8], name: &[u8]) -> Result<(Bytes, Id), AllocError>
    requires { AreDigits digits.now }
    ensures { IfOk result (λ r. r ≡ (name.now, id_of_digits digits.now)) }
{
    let name = Vec::from_slice(alloc, name)?;
    Ok((Bytes::from_vec(name), id_of(digits)))
}

/// The ref of a line, if it is one, and what is behind the line.
#[tactic(auto, unfolding(crate::specs::ReadPacked::packed_line_from))]
fn line_of(
    alloc: Global,
    after: bool,
    bytes: &[u8],
) -> Result<(Option<(Bytes, Id)>, &[u8]), ReadError>
    ensures { Gives (λ x. (x.0, x.1.now)) result (packed_line_from after bytes.now) }
{
    if begins_with(b'#', bytes) {
        let rest = behind_comment(bytes)?;
        return Ok((None, rest));
    }
    if after && begins_with(b'^', bytes) {
        let rest = behind_peeled(bytes)?;
        return Ok((None, rest));
    }
    let (digits, name, rest) = named_of(bytes)?;
    let named = ref_of(alloc, digits, name)?;
    Ok((Some(named), rest))
}

fn refs_of(alloc: Global, text: &[u8]) -> Result<Vec<(Bytes, Id)>, ReadError>
    ensures { Gives (λ v. v.items) result (packed_from text.now) }
{
    let mut refs = Vec::new(alloc);
    let mut after = false;
    let mut rest = text;
    while !rest.is_empty() {
        match line_of(alloc, after, rest) {
            Ok((line, behind)) => {
                after = line.is_some();
                if let Some(named) = line {
                    refs.push(named)?;
                }
                rest = behind;
            }
            Err(e) => return Err(e),
        }
    }
    Ok(refs)
}

#[tactic(auto, unfolding(crate::specs::ReadLines::packed_of))]
fn packed_in(alloc: Global, text: &[u8]) -> Result<Vec<(Bytes, Id)>, LineFault>
    ensures { GivesLines (λ v. v.items) result (packed_of text.now) }
{
    match refs_of(alloc, text) {
        Ok(refs) => Ok(refs),
        Err(ReadError::Memory) => Err(LineFault::Memory),
        Err(ReadError::Stopped { left }) => Err(bad_line(text, left)),
    }
}

/// The refs of the file, all of its text, in its order: lines `<hex> SP <name> LF` with the name of a ref, of which the first counts
/// where two have one name; lines that begin with `#`; and lines `^<hex> LF` right behind that of a ref, which say what a tag points
/// to. Digits stand in either case. Bad where it is none, with the first line with which no such file goes on, counted from 1, or
/// the last one where the text ends too early (git-pack-refs(1); gitrepository-layout(5), "packed-refs").
pub fn parse_packed(alloc: Global, text: &[u8]) -> Result<Vec<(Bytes, Id)>, LineFault>
    ensures read { IsReading (λ v. v.items) (IsLineFault IsPacked text.now) IsPacked text.now result }
    ensures gives { GivesLines (λ v. v.items) result (packed_of text.now) }
    ensures names { IfOk result (λ v. ArePackedNames v.items) }
{
    packed_in(alloc, text)
}
