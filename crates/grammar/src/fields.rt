//! Parts of a text that most formats have.

ghost use Rattle.std.specs.Prelude.{◌≡◌, ℕ, length, ◌<◌};
ghost use Rattle.grammar.specs.Gives.{Gives};
ghost use Rattle.grammar.specs.Readers.{literal_at, passing_at, run_at};

use crate::bytes::{ByteTest, PassingBytes};
use crate::fault::ReadError;
use crate::scan::span_of;

/// What is behind these very bytes.
pub fn behind_literal<'a>(literal: &[u8], bytes: &'a [u8]) -> Result<&'a [u8], ReadError>
    ensures { Gives (λ x. (tt, x.now)) result (literal_at literal.now bytes.now) }
{
    for (i, c) in literal.iter().enumerate() {
        if i >= bytes.len() {
            return Err(ReadError::Stopped { left: 0 });
        }
        if bytes[i] != *c {
            return Err(ReadError::Stopped {
                left: bytes.len() - i,
            });
        }
    }
    Ok(&bytes[literal.len()..])
}

/// So many bytes, each of which passes the test, and those behind them.
pub fn passing_front<'a, T: ByteTest>(
    test: &T,
    count: usize,
    bytes: &'a [u8],
) -> Result<(&'a [u8], &'a [u8]), ReadError>
    ensures { Gives (λ x. (x.0.now, x.1.now)) result (passing_at (T.passes test.now) count bytes.now) }
{
    for i in 0..count {
        if i >= bytes.len() {
            return Err(ReadError::Stopped { left: 0 });
        }
        if !test.is_met(bytes[i]) {
            return Err(ReadError::Stopped {
                left: bytes.len() - i,
            });
        }
    }
    Ok((&bytes[..count], &bytes[count..]))
}

/// The bytes up to the one that ends them, each of which passes the test, and those behind that one.
pub fn word_of<T: ByteTest + Drop>(
    test: T,
    stop: u8,
    bytes: &[u8],
) -> Result<(&[u8], &[u8]), ReadError>
    ensures { Gives (λ x. (x.0.now, x.1.now)) result (run_at (T.passes test) stop bytes.now) }
{
    let mut scan = PassingBytes { test };
    span_of(&mut scan, stop, bytes)
}
