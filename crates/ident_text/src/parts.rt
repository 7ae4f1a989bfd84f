//! The parts of an ident, from the front of bytes.

ghost use Rattle.std.specs.Prelude.{◌≡◌, ◌++◌, ◌∷◌, ◌-◌, ◌^◌, ◌<◌, ◌≤◌, ◌&&◌, ◌||◌, ◌==◌, not, nat_le, true, length, slice_index, negsuc};
ghost use Rattle.std.specs.List.{list_all};
ghost use Rattle.std.specs.Char.{is_ascii_digit as is_digit};
ghost use Rattle.std.specs.Str.Parse.{digits_value};
ghost use Rattle.grammar.specs.Gives.{Gives};
ghost use Rattle.grammar.specs.Decimals.{is_decimal_front};
ghost use Rattle.grammar.specs.Readers.{run_at};
ghost use Rattle.ident_text.specs.Idents.{is_ident_byte as may_name, is_sign};
ghost use Rattle.ident_text.specs.ReadIdents.{ends_in_space, is_zero_first, is_secs_front, number_of, name_from, secs_from, zone_from, made, ident_from, ident_text_from};

use grammar::{
    ByteTest, ReadError, Scan, behind_literal, capped_value, passing_front, span_of, word_of,
};

/// The parts of an ident, where they stand in its text.
#[derive(Drop)]
pub struct IdentParts<'a> {
    pub name: &'a [u8],
    pub email: &'a [u8],
    /// Seconds since 1970.
    pub secs: i64,
    /// A sign and four digits, `+0130` for an hour and a half east of Greenwich.
    pub zone: [u8; 5],
}

/// Whether a name or an email may hold the byte.
pub fn is_ident_byte(byte: u8) -> bool
    ensures { result ≡ may_name byte }
{
    byte != b'<' && byte != b'>' && byte != b'\n' && byte != 0
}

struct IdentByte;

impl Drop for IdentByte {
    fn drop(self) {
        let IdentByte = self;
    }
}

impl ByteTest for IdentByte {
    ghost passes = { λ _ b. may_name b };

    fn is_met(&self, byte: u8) -> bool {
        is_ident_byte(byte)
    }
}

struct Sign;

impl ByteTest for Sign {
    ghost passes = { λ _ b. is_sign b };

    fn is_met(&self, byte: u8) -> bool {
        byte == b'+' || byte == b'-'
    }
}

struct Digit;

impl ByteTest for Digit {
    ghost passes = { λ _ b. is_digit b };

    fn is_met(&self, byte: u8) -> bool {
        byte.is_ascii_digit()
    }
}

/// The name, and the bytes behind the `<` that ends it and its SP.
#[tactic(auto, unfolding(crate::specs::ReadIdents::name_from))]
fn name_of(bytes: &[u8]) -> Result<(&[u8], &[u8]), ReadError>
    ensures { Gives (λ x. (x.0.now, x.1.now)) result (name_from bytes.now) }
{
    let (word, rest) = word_of(IdentByte, b'<', bytes)?;
    if !has_space_at_end(word) {
        return Err(ReadError::Stopped {
            left: rest.len() + 1,
        });
    }
    Ok((&word[..word.len() - 1], rest))
}

fn has_space_at_end(word: &[u8]) -> bool
    ensures { result ≡ ends_in_space word.now }
{
    !word.is_empty() && word[word.len() - 1] == b' '
}

fn are_digits(bytes: &[u8]) -> bool
    ensures { result ≡ list_all is_digit bytes.now }
{
    bytes.iter().all(|b| b.is_ascii_digit())
}

/// Whether no 0 stands before other digits.
fn has_no_leading_zero(digits: &[u8]) -> bool
    ensures { result ≡ (nat_le (length digits.now) 1 || not (slice_index digits.now 0 == 48)) }
{
    digits.len() <= 1 || digits[0] != b'0'
}

/// Whether a decimal number begins so.
#[tactic(auto, using(crate::proofs::Secs::front_is))]
fn begins_decimal(digits: &[u8]) -> bool
    ensures { result ≡ is_decimal_front digits.now }
{
    are_digits(digits) && has_no_leading_zero(digits)
}

/// Whether a decimal number begins so, and is at most so great.
#[tactic(auto, using(crate::proofs::Secs::capped_le))]
fn begins_decimal_within(digits: &[u8], most: u64) -> bool
    requires { most < 2 ^ 64 - 1 }
    ensures { result ≡ (is_decimal_front digits.now && nat_le (digits_value 10 digits.now) most) }
{
    begins_decimal(digits) && capped_value(digits) <= most
}

/// Whether a time begins so.
fn begins_secs(front: &[u8]) -> bool
    ensures { result ≡ is_secs_front front.now }
{
    match front {
        [b'-', b'0', ..] => false,
        [b'-', digits @ ..] => begins_decimal_within(digits, 1 << 63),
        _ => begins_decimal_within(front, (1 << 63) - 1),
    }
}

#[derive(Drop)]
struct SecsScan;

impl Scan for SecsScan {
    ghost may = { λ _ front. is_secs_front front };

    ghost has_seen = { λ _ seen. is_secs_front seen ≡ true };

    fn goes_on(&mut self, front: &[u8]) -> bool {
        begins_secs(front)
    }
}

fn negated(value: u64) -> i64
    requires { (0 < value) × (value ≤ 2 ^ 63) }
    ensures { result ≡ negsuc (value - 1) }
{
    -1 - (value - 1) as i64
}

/// The number that the digits behind a minus sign write, if there is one.
fn minus_number(digits: &[u8]) -> Option<i64>
    requires { is_secs_front (45 ∷ digits.now) ≡ true }
    ensures { result ≡ number_of (45 ∷ digits.now) }
{
    if digits.is_empty() {
        return None;
    }
    Some(negated(capped_value(digits)))
}

/// The number that a time's text writes, if it has a digit.
fn number(word: &[u8]) -> Option<i64>
    requires { is_secs_front word.now ≡ true }
    ensures { result ≡ number_of word.now }
{
    match word {
        [] => None,
        [b'-', digits @ ..] => minus_number(digits),
        _ => Some(capped_value(word) as i64),
    }
}

/// The seconds up to the SP that ends them, and the bytes behind it.
#[tactic(auto, unfolding(crate::specs::ReadIdents::secs_from))]
pub fn secs_of(bytes: &[u8]) -> Result<(i64, &[u8]), ReadError>
    ensures { Gives (λ x. (x.0, x.1.now)) result (secs_from bytes.now) }
{
    let mut scan = SecsScan;
    let (word, rest) = span_of(&mut scan, b' ', bytes)?;
    match number(word) {
        Some(secs) => Ok((secs, rest)),
        None => Err(ReadError::Stopped {
            left: rest.len() + 1,
        }),
    }
}

/// The zone, and the bytes behind it.
#[tactic(auto, unfolding(crate::specs::ReadIdents::zone_from))]
pub fn zone_of(bytes: &[u8]) -> Result<([u8; 5], &[u8]), ReadError>
    ensures { Gives (λ x. (x.0, x.1.now)) result (zone_from bytes.now) }
{
    let (sign, rest) = passing_front(&Sign, 1, bytes)?;
    let (digits, rest) = passing_front(&Digit, 4, rest)?;
    Ok((zone_from_parts(sign, digits), rest))
}

fn zone_from_parts(sign: &[u8], digits: &[u8]) -> [u8; 5]
    requires sign { length sign.now ≡ 1 }
    requires digits { length digits.now ≡ 4 }
    ensures { result ≡ sign.now ++ digits.now }
{
    [sign[0], digits[0], digits[1], digits[2], digits[3]]
}

/// The ident at the front, as its parts stand there, and the bytes behind it.
#[tactic(auto, unfolding(crate::specs::ReadIdents::ident_from))]
pub fn ident_of(bytes: &[u8]) -> Result<(IdentParts<'_>, &[u8]), ReadError>
    ensures { Gives (λ x. (made x.0.name.now x.0.email.now x.0.secs x.0.zone, x.1.now)) result (ident_from bytes.now) }
{
    let (name, rest) = name_of(bytes)?;
    let (email, rest) = word_of(IdentByte, b'>', rest)?;
    let rest = behind_literal(b" ", rest)?;
    let (secs, rest) = secs_of(rest)?;
    let (zone, rest) = zone_of(rest)?;
    let parts = IdentParts {
        name,
        email,
        secs,
        zone,
    };
    Ok((parts, rest))
}

/// The ident at the front, as it stands, and the bytes behind it.
#[tactic(auto, unfolding(crate::specs::ReadIdents::ident_text_from), using(crate::proofs::IdentLaws::ident_within))]
pub fn ident_text_of(bytes: &[u8]) -> Result<(&[u8], &[u8]), ReadError>
    ensures { Gives (λ x. (x.0.now, x.1.now)) result (ident_text_from bytes.now) }
{
    let (_, rest) = ident_of(bytes)?;
    Ok((&bytes[..bytes.len() - rest.len()], rest))
}
