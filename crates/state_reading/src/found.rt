//! The files that were found.

ghost use Rattle.std.specs.Prelude.{◌≡◌, [], unwrap_or};
ghost use Rattle.state_reading.specs.Recalls.{bytes_at as bytes_found, is_file as is_file_by};

use seq_base::Bytes;
use state_text::{StateFile, file_name};

fn is_file(a: StateFile, b: StateFile) -> bool
    ensures { result ≡ is_file_by a b }
{
    file_name(a) == file_name(b)
}

fn bytes_of(text: &Option<Bytes>) -> &[u8]
    ensures { result.now ≡ unwrap_or text.now [] }
{
    match text {
        Some(text) => text.as_slice(),
        None => &[],
    }
}

/// The bytes of a file, of which a missing one has none.
pub fn bytes_at(found: &[(StateFile, Option<Bytes>)], file: StateFile) -> &[u8]
    ensures { result.now ≡ bytes_found found.now file }
{
    let mut rest = found;
    while let [(other, text), after @ ..] = rest {
        if is_file(*other, file) {
            return bytes_of(text);
        }
        rest = after;
    }
    &[]
}
