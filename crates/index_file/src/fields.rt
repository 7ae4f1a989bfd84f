//! Fields of fixed width, and what they mean.

ghost use Rattle.std.specs.Prelude.{◌≡◌, length};
ghost use Rattle.std.specs.Int.{w32, from_be_bytes};
ghost use Rattle.index_file.specs.Reading.{Gives, front_at, number_at, mode_of, are_zero as zeros};

use crate::fault::IndexFault;
use seq_base::Mode;

/// So many bytes, and those behind them.
pub fn front_of(n: usize, bytes: &[u8]) -> Result<(&[u8], &[u8]), IndexFault>
    ensures { Gives (λ x. (x.0.now, x.1.now)) result (front_at n bytes.now) }
{
    if bytes.len() < n {
        return Err(IndexFault::Count);
    }
    Ok(bytes.split_at(n))
}

/// The number that four bytes are, the high byte first.
pub fn number_of(bytes: &[u8]) -> u32
    requires { length bytes.now ≡ 4 }
    ensures { result ≡ from_be_bytes w32 bytes.now }
{
    u32::from_be_bytes([bytes[0], bytes[1], bytes[2], bytes[3]])
}

/// A number of four bytes, and the bytes behind it.
pub fn u32_of(bytes: &[u8]) -> Result<(u32, &[u8]), IndexFault>
    ensures { Gives (λ x. (x.0, x.1.now)) result (number_at bytes.now) }
{
    let (front, rest) = front_of(4, bytes)?;
    Ok((number_of(front), rest))
}

pub fn are_zero(bytes: &[u8]) -> bool
    ensures { result ≡ zeros bytes.now }
{
    bytes.iter().all(|b| *b == 0)
}

/// The mode with this number, but a folder's.
pub fn mode_numbered(number: u32) -> Option<Mode>
    ensures { result ≡ mode_of number }
{
    match number {
        0o100644 => Some(Mode::File),
        0o100755 => Some(Mode::Exec),
        0o120000 => Some(Mode::Link),
        0o160000 => Some(Mode::Gitlink),
        _ => None,
    }
}
