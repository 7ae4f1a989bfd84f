//! Decimal numbers.

ghost use Rattle.std.specs.Prelude.{◌≡◌, ℕ, Bool, true, false, ◌<◌, ◌++◌, ◌∷◌, [], List, IsTrue, length};
ghost use Rattle.std.specs.Char.{is_ascii_digit};
ghost use Rattle.std.specs.List.{list_all};
ghost use Rattle.std.specs.Str.Parse.{digits_value};
ghost use Rattle.grammar.specs.Gives.{Gives};
ghost use Rattle.grammar.specs.Decimals.{is_decimal_front, capped, capped_decimal_at};

use crate::fault::ReadError;
use crate::scan::{Scan, span_of};

#[derive(Drop)]
struct DecimalScan;

impl Scan for DecimalScan {
    ghost may = { λ _ front. is_decimal_front front };

    ghost has_seen = { λ _ seen. is_decimal_front seen ≡ true };

    fn goes_on(&mut self, front: &[u8]) -> bool {
        grows_by_digit(front)
    }
}

/// Whether a decimal number that goes up to the last byte goes on with it.
fn grows_by_digit(front: &[u8]) -> bool
    requires { 0 < length front.now }
    ensures { (seen : List ℕ) (b : ℕ) → is_decimal_front seen ≡ true → front.now ≡ seen ++ b ∷ [] → result ≡ is_decimal_front front.now }
{
    front[front.len() - 1].is_ascii_digit() && (front.len() == 1 || front[0] != b'0')
}

/// The number that the digits write, or the greatest that there is where they write a greater one.
pub fn capped_value(digits: &[u8]) -> u64
    requires { list_all is_ascii_digit digits.now ≡ true }
    ensures { result ≡ capped (digits_value 10 digits.now) }
{
    let mut value: u64 = 0;
    for b in digits {
        value = value.saturating_mul(10).saturating_add((*b - b'0') as u64);
    }
    value
}

/// The decimal number up to the byte that ends it, which is no digit, or the greatest that there is where it is a greater one; and the
/// bytes behind that byte.
#[tactic(auto, unfolding(crate::specs::Decimals::capped_decimal_at, crate::specs::Decimals::decimal_at))]
pub fn decimal_of(stop: u8, bytes: &[u8]) -> Result<(u64, &[u8]), ReadError>
    ensures { Gives (λ x. (x.0, x.1.now)) result (capped_decimal_at stop bytes.now) }
{
    let mut scan = DecimalScan;
    let (digits, rest) = span_of(&mut scan, stop, bytes)?;
    if digits.is_empty() {
        return Err(ReadError::Stopped {
            left: rest.len() + 1,
        });
    }
    Ok((capped_value(digits), rest))
}
