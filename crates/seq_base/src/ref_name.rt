//! Names of refs.

ghost use Rattle.std.specs.Prelude.{◌≡◌, ◌&&◌, ◌==◌, MatchResult};
ghost use Rattle.std.specs.List.{list_all, list_any, zip};
ghost use Rattle.seq_base.specs.Paths.{parts};
ghost use Rattle.seq_base.specs.RefNames.{IsRefName, IsRefNameFault, is_below_refs as is_below_refs_of, is_ref_byte as is_ref_byte_of, is_ref_name as is_ref_name_of, is_ref_part as is_ref_part_of, has_pair as has_pair_of};

use crate::ref_front::RefFront;
use crate::store_path::is_text;
use thiserror::Error;

/// Why bytes are no name of a ref.
#[derive(Clone, Copy, Debug, PartialEq, Eq, Drop, Error)]
pub enum RefNameFault {
    /// The first byte with which no name goes on, or the length of the bytes where they end too early.
    #[error("byte {at} may not stand there in the name of a ref")]
    Bad { at: u64 },
}

pub fn is_ref_byte(byte: u8) -> bool
    ensures { result ≡ is_ref_byte_of byte }
{
    byte >= b'!' && byte != 0x7f && !b"~^:?*[\\".contains(&byte)
}

pub fn is_ref_part(part: &[u8]) -> bool
    ensures { result ≡ is_ref_part_of part.now }
{
    !part.is_empty() && part[0] != b'.' && !part.ends_with(b".lock")
}

/// Whether the one byte stands right before the other.
fn has_pair(first: u8, second: u8, bytes: &[u8]) -> bool
    ensures { result ≡ has_pair_of first second bytes.now }
{
    bytes
        .iter()
        .zip(bytes.iter().skip(1))
        .any(|(a, b)| *a == first && *b == second)
}

fn has_ref_parts(name: &[u8]) -> bool
    ensures { result ≡ list_all is_ref_part_of (parts name.now) }
{
    name.split(|b| *b == b'/').all(|part| is_ref_part(part))
}

fn has_ref_bytes(name: &[u8]) -> bool
    ensures { result ≡ list_all is_ref_byte_of name.now }
{
    name.iter().all(|b| is_ref_byte(*b))
}

fn is_below_refs(name: &[u8]) -> bool
    ensures { result ≡ is_below_refs_of name.now }
{
    name.starts_with(b"refs/")
        && is_text(name)
        && has_ref_bytes(name)
        && has_ref_parts(name)
        && !has_pair(b'.', b'.', name)
        && !has_pair(b'@', b'{', name)
        && !name.ends_with(b".")
}

/// Whether the bytes are the name of a ref: HEAD, or UTF-8 below `refs/`, of which no part is empty, begins with `.` or ends in
/// `.lock`, without `..`, `@{`, control bytes, SP and `~^:?*[\`, and which does not end in `.` (git-check-ref-format(1)).
pub fn is_ref_name(name: &[u8]) -> bool
    ensures { result ≡ is_ref_name_of name.now }
{
    name == b"HEAD".as_slice() || is_below_refs(name)
}

/// Whether the bytes are the name of a ref, or the first byte with which none goes on.
pub fn check_ref_name(name: &[u8]) -> Result<(), RefNameFault>
    ensures { MatchResult result (λ _. IsRefName name.now) (IsRefNameFault name.now) }
{
    let mut front = RefFront::new();
    for i in 0..name.len() {
        match front.behind(&name[..i + 1]) {
            Some(next) => front = next,
            None => return Err(RefNameFault::Bad { at: i as u64 }),
        }
    }
    if !is_ref_name(name) {
        return Err(RefNameFault::Bad {
            at: name.len() as u64,
        });
    }
    Ok(())
}
