//! Forty hex digits, as an id.

ghost use Rattle.std.specs.Prelude.{◌≡◌, IfOk};
ghost use Rattle.hex.specs.Hex.{is_hex_digit};
ghost use Rattle.grammar.specs.Gives.{Gives};
ghost use Rattle.seq_base.specs.Ids.{SpellsId};
ghost use Rattle.ident_text.specs.Ids.{AreIdDigits, id_of_digits as bytes_of_digits, id_digits_from, id_from};

use grammar::{ByteTest, ReadError, passing_front};
use seq_base::Id;

#[derive(Drop)]
struct HexDigit;

impl ByteTest for HexDigit {
    ghost passes = { λ _ b. is_hex_digit b };

    fn is_met(&self, byte: u8) -> bool {
        byte.is_ascii_hexdigit()
    }
}

/// The forty hex digits at the front, in either case, and the bytes behind them.
#[tactic(auto, unfolding(crate::specs::Ids::id_digits_from), using(crate::proofs::IdLaws::digits_taken))]
pub fn id_digits_of(bytes: &[u8]) -> Result<(&[u8], &[u8]), ReadError>
    ensures read { Gives (λ x. (x.0.now, x.1.now)) result (id_digits_from bytes.now) }
    ensures digits { IfOk result (λ x. AreIdDigits x.0.now) }
{
    passing_front(&HexDigit, 40, bytes)
}

/// The id that forty hex digits spell.
#[tactic(auto, using(crate::proofs::IdLaws::digits_spell, crate::proofs::IdLaws::spelled_id))]
pub fn id_of_digits(digits: &[u8]) -> Id
    requires { AreIdDigits digits.now }
    ensures bytes { result ≡ bytes_of_digits digits.now }
    ensures spells { SpellsId result digits.now }
{
    match Id::from_hex(digits) {
        Ok(id) => id,
        Err(_) => unreachable!(),
    }
}

/// The id at the front, and the bytes behind it.
#[tactic(auto, unfolding(crate::specs::Ids::id_from))]
pub fn id_of(bytes: &[u8]) -> Result<(Id, &[u8]), ReadError>
    ensures { Gives (λ x. (x.0, x.1.now)) result (id_from bytes.now) }
{
    let (digits, rest) = id_digits_of(bytes)?;
    Ok((id_of_digits(digits), rest))
}
