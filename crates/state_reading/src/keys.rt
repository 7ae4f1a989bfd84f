//! What stands behind a key, and ids at the front.

ghost use Rattle.std.specs.Prelude.{◌≡◌, IfOk};
ghost use Rattle.std.specs.Option.{option_map};
ghost use Rattle.state_reading.specs.Lines.{behind, id_at as id_at_front};
ghost use Rattle.state_reading.specs.Values.{id_or_zeros as id_or_zeros_by, without_feed as without_feed_by};

use grammar::{ReadError, behind_literal};
use ident_text::id_of;
use seq_base::{Bytes, Id};
use std::alloc::{AllocError, Global};

/// What stands behind the key.
pub fn behind_of<'a>(key: &[u8], line: &'a [u8]) -> Result<Option<&'a [u8]>, AllocError>
    ensures { IfOk result (λ found. behind key.now line.now ≡ option_map (λ rest. rest.now) found) }
{
    match behind_literal(key, line) {
        Ok(rest) => Ok(Some(rest)),
        Err(ReadError::Memory) => Err(AllocError),
        Err(ReadError::Stopped { .. }) => Ok(None),
    }
}

/// The id whose digits stand at the front.
pub fn id_at(line: &[u8]) -> Result<Option<Id>, AllocError>
    ensures { IfOk result (λ found. found ≡ id_at_front line.now) }
{
    match id_of(line) {
        Ok((id, _)) => Ok(Some(id)),
        Err(ReadError::Memory) => Err(AllocError),
        Err(ReadError::Stopped { .. }) => Ok(None),
    }
}

pub fn owned(alloc: Global, text: &[u8]) -> Result<Bytes, AllocError>
    ensures { IfOk result (λ bytes. bytes ≡ text.now) }
{
    Ok(Bytes::from_vec(Vec::from_slice(alloc, text)?))
}

/// The id at the front, and zeros where there is none.
pub fn id_or_zeros(bytes: &[u8]) -> Result<Id, AllocError>
    ensures { IfOk result (λ id. id ≡ id_or_zeros_by bytes.now) }
{
    match id_at(bytes)? {
        Some(id) => Ok(id),
        None => Ok(Id::from_bytes([0; 20])),
    }
}

/// All but the last byte.
pub fn without_feed(bytes: &[u8]) -> &[u8]
    ensures { result.now ≡ without_feed_by bytes.now }
{
    if bytes.is_empty() {
        return bytes;
    }
    &bytes[..bytes.len() - 1]
}
