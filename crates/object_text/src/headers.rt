//! The headers behind the committer, and the message, from the front of bytes.

ghost use Rattle.std.specs.Prelude.{◌≡◌, ℕ, List, [], ◌∷◌, ◌++◌, ◌==◌, Bool, true, false, codes, OnOk, IfOk, if◌then◌else◌, Some, None};
ghost use Rattle.std.specs.List.{starts_with};
ghost use Rattle.grammar.specs.Gives.{Gives};
ghost use Rattle.object_text.specs.ReadCommits.{tail_from, Takes};

use crate::header::{has_header, header_of, is_continuation};
use grammar::{ReadError, behind_literal};
use seq_base::Bytes;
use std::alloc::{AllocError, Global};

/// The first header `encoding`, as far as it was read.
#[derive(Drop)]
struct Taken {
    found: bool,
    /// Whether the next line may continue it.
    lasts: bool,
    value: Vec<u8>,
}

fn begins_encoding(line: &[u8]) -> bool
    ensures { result ≡ starts_with (λ a b. a == b) line.now (codes "encoding ") }
{
    line.starts_with(b"encoding ")
}

/// Takes a further line of a header.
fn take_line(taken: &mut Taken, line: &[u8]) -> Result<(), AllocError>
    ensures { OnOk result ((lines : List (List ℕ))
        → Takes taken.old.found taken.old.lasts taken.old.value.items lines
        → Takes taken.new.found taken.new.lasts taken.new.value.items (lines ++ line.now ∷ [])) }
{
    if !taken.found {
        if begins_encoding(line) {
            taken.value.extend_from_slice(&line[9..])?;
            taken.found = true;
            taken.lasts = true;
        }
        return Ok(());
    }
    if taken.lasts {
        if is_continuation(line) {
            taken.value.push(b'\n')?;
            taken.value.extend_from_slice(line)?;
        } else {
            taken.lasts = false;
        }
    }
    Ok(())
}

fn encoding_of(taken: Taken) -> Option<Bytes>
    ensures { result ≡ (if taken.found then Some taken.value.items else None) }
{
    let Taken { found, value, .. } = taken;
    if found {
        Some(Bytes::from_vec(value))
    } else {
        None
    }
}

/// What stands behind the committer.
#[derive(Drop)]
pub struct Tail {
    pub encoding: Option<Bytes>,
    pub message: Bytes,
}

/// The headers, of which the encoding is kept, an empty line, and the message to the end.
pub fn tail_of(alloc: Global, bytes: &[u8]) -> Result<Tail, ReadError>
    ensures { Gives (λ t. (t.encoding, t.message)) result (tail_from bytes.now) }
{
    let mut taken = Taken {
        found: false,
        lasts: false,
        value: Vec::new(alloc),
    };
    let mut behind = false;
    let mut rest = bytes;
    while has_header(rest) {
        let (line, after) = header_of(behind, rest)?;
        take_line(&mut taken, line)?;
        behind = true;
        rest = after;
    }
    let message = behind_literal(b"\n", rest)?;
    Ok(Tail {
        encoding: encoding_of(taken),
        message: Bytes::from_vec(Vec::from_slice(alloc, message)?),
    })
}
