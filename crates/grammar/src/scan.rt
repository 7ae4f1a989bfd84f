//! Words up to a byte that ends them.

ghost use Rattle.std.specs.Prelude.{◌≡◌, ℕ, List, [], ◌∷◌, ◌++◌, IfOk, IsTrue, Bool, length, ◌<◌};
ghost use Rattle.grammar.specs.Gives.{Gives};
ghost use Rattle.grammar.specs.Readers.{span_at};

use crate::fault::ReadError;

/// Goes over the bytes of a word, and says of each whether some word goes on with it. What it remembers of the bytes that it
/// has seen keeps the test of a byte short, however long the word is.
pub trait Scan {
    /// Whether a word begins so.
    ghost may: { Self → List ℕ → Bool };

    /// It stands behind these bytes.
    ghost has_seen: { Self → List ℕ → Type 0 };

    /// Whether a word goes on with the last byte of the front.
    fn goes_on(&mut self, front: &[u8]) -> bool
        requires { 0 < length front.now }
        ensures same { may self.new ≡ may self.old }
        ensures test { (seen : List ℕ) (b : ℕ) → has_seen self.old seen → front.now ≡ seen ++ b ∷ [] → result ≡ may self.old front.now }
        ensures seen { (seen : List ℕ) (b : ℕ) → has_seen self.old seen → front.now ≡ seen ++ b ∷ [] → IsTrue result → has_seen self.new front.now };
}

/// The word at the front, up to the byte that ends it, and the bytes behind that byte. The scan then stands behind the word.
pub fn span_of<'a, S: Scan>(
    scan: &mut S,
    stop: u8,
    bytes: &'a [u8],
) -> Result<(&'a [u8], &'a [u8]), ReadError>
    requires { S.has_seen scan.old [] }
    ensures read { Gives (λ x. (x.0.now, x.1.now)) result (span_at (S.may scan.old) stop bytes.now) }
    ensures same { S.may scan.new ≡ S.may scan.old }
    ensures seen { IfOk result (λ x. S.has_seen scan.new x.0.now) }
{
    for (i, b) in bytes.iter().enumerate() {
        if *b == stop {
            return Ok((&bytes[..i], &bytes[i + 1..]));
        }
        if !scan.goes_on(&bytes[..i + 1]) {
            return Err(ReadError::Stopped {
                left: bytes.len() - i,
            });
        }
    }
    Err(ReadError::Stopped { left: 0 })
}
