//! An object: a kind and a content.

ghost use Rattle.std.specs.Prelude.{◌≡◌, ◌++◌, ◌<◌, ◌^◌, IfOk, MatchOption, length};
ghost use Rattle.grammar.specs.Gives.{Gives};
ghost use Rattle.grammar.specs.Grammar.{IsReading};
ghost use Rattle.grammar.specs.Keywords.{may_of, value_of};
ghost use Rattle.grammar.specs.Readers.{valued_at};
ghost use Rattle.object_text.specs.Faults.{IsTextFault};
ghost use Rattle.object_text.specs.Objects.{header_text as header_of_object, kind_text as text_of_kind, object_text as text_of_object, IsObject};
ghost use Rattle.object_text.specs.ReadObjects.{kinds, kind_from, sized_from, object_from};

use crate::fault::TextFault;
use grammar::{ReadError, Scan, decimal_of, span_of};
use itoa::Buffer;
use seq_base::Bytes;
use std::alloc::{AllocError, Global};

/// What an object is.
#[derive(Clone, Copy, Debug, PartialEq, Eq)]
pub enum Kind {
    Blob,
    Tree,
    Commit,
    Tag,
}

/// An object: its kind and its content.
#[derive(Debug, Drop)]
pub struct Object {
    pub kind: Kind,
    pub bytes: Bytes,
}

/// Whether a kind's word begins so.
fn is_kind_front(front: &[u8]) -> bool
    ensures { result ≡ may_of kinds front.now }
{
    b"blob".starts_with(front)
        || b"tree".starts_with(front)
        || b"commit".starts_with(front)
        || b"tag".starts_with(front)
}

#[derive(Drop)]
struct KindScan;

impl Scan for KindScan {
    ghost may = { λ _ front. may_of kinds front };

    ghost has_seen = { λ _ _. Unit {0} };

    fn goes_on(&mut self, front: &[u8]) -> bool {
        is_kind_front(front)
    }
}

fn kind_named(word: &[u8]) -> Option<Kind>
    ensures { MatchOption result ((kind : Kind) → word.now ≡ text_of_kind kind → ⊥) (λ kind. word.now ≡ text_of_kind kind) }
{
    match word {
        b"blob" => Some(Kind::Blob),
        b"tree" => Some(Kind::Tree),
        b"commit" => Some(Kind::Commit),
        b"tag" => Some(Kind::Tag),
        _ => None,
    }
}

/// The kind whose word stands before the byte that ends it, and what stands behind that byte.
#[tactic(auto, using(crate::proofs::ObjectLaws::kind_read))]
pub fn kind_until(stop: u8, bytes: &[u8]) -> Result<(Kind, &[u8]), ReadError>
    ensures { Gives (λ x. (x.0, x.1.now)) result (valued_at (may_of kinds) (value_of kinds) stop bytes.now) }
{
    let mut scan = KindScan;
    let (word, rest) = span_of(&mut scan, stop, bytes)?;
    match kind_named(word) {
        Some(kind) => Ok((kind, rest)),
        None => Err(ReadError::Stopped {
            left: rest.len() + 1,
        }),
    }
}

#[tactic(auto, unfolding(crate::specs::ReadObjects::kind_from))]
fn kind_of(bytes: &[u8]) -> Result<(Kind, &[u8]), ReadError>
    ensures { Gives (λ x. (x.0, x.1.now)) result (kind_from bytes.now) }
{
    kind_until(b' ', bytes)
}

fn len_of(bytes: &[u8]) -> u64
    ensures same { result ≡ length bytes.now }
    ensures small { result < 2 ^ 63 }
{
    bytes.len() as u64
}

/// The content behind its length, all that is left.
fn sized_of(bytes: &[u8]) -> Result<&[u8], ReadError>
    ensures { Gives (λ x. x.now) result (sized_from bytes.now) }
{
    let (size, content) = decimal_of(0, bytes)?;
    let found = len_of(content);
    if found < size {
        return Err(ReadError::Stopped { left: 0 });
    }
    if size < found {
        return Err(ReadError::Stopped {
            left: (found - size) as usize,
        });
    }
    Ok(content)
}

#[tactic(auto, unfolding(crate::specs::ReadObjects::object_from))]
fn object_of(alloc: Global, bytes: &[u8]) -> Result<Object, ReadError>
    ensures { Gives (λ o. o) result (object_from bytes.now) }
{
    let (kind, rest) = kind_of(bytes)?;
    let content = sized_of(rest)?;
    Ok(Object {
        kind,
        bytes: Bytes::from_vec(Vec::from_slice(alloc, content)?),
    })
}

/// The object whose text the bytes are, `<kind> SP <length> NUL <content>`, all of the bytes.
pub fn parse_object(alloc: Global, text: &[u8]) -> Result<Object, TextFault>
    ensures { IsReading (λ o. o) (IsTextFault IsObject text.now) IsObject text.now result }
{
    match object_of(alloc, text) {
        Ok(object) => Ok(object),
        Err(ReadError::Memory) => Err(TextFault::Memory),
        Err(ReadError::Stopped { left }) => Err(TextFault::Bad {
            at: (text.len() - left) as u64,
        }),
    }
}

fn word_of_kind(kind: Kind) -> &'static [u8]
    ensures { result.now ≡ text_of_kind kind }
{
    match kind {
        Kind::Blob => b"blob",
        Kind::Tree => b"tree",
        Kind::Commit => b"commit",
        Kind::Tag => b"tag",
    }
}

/// What stands before the content in the text of an object, `<kind> SP <length> NUL`.
pub fn object_header(alloc: Global, kind: Kind, length: usize) -> Result<Vec<u8>, AllocError>
    ensures { IfOk result (λ header. header.items ≡ header_of_object kind length) }
{
    let mut buffer = Buffer::new();
    let mut header = Vec::from_slice(alloc, word_of_kind(kind))?;
    header.push(b' ')?;
    header.extend_from_slice(buffer.format(length).as_bytes())?;
    header.push(0)?;
    Ok(header)
}

fn put_together(alloc: Global, kind: Kind, bytes: &[u8]) -> Result<Vec<u8>, AllocError>
    ensures { IfOk result (λ text. text.items ≡ text_of_object (record { kind = kind; bytes = bytes.now })) }
{
    let mut text = object_header(alloc, kind, bytes.len())?;
    text.extend_from_slice(bytes)?;
    Ok(text)
}

/// The text of the object of this kind with this content, whose SHA-1 is its id.
pub fn object_text(alloc: Global, kind: Kind, bytes: &[u8]) -> Result<Vec<u8>, AllocError>
    ensures text { IfOk result (λ text. text.items ≡ text_of_object (record { kind = kind; bytes = bytes.now })) }
    ensures object { IfOk result (λ text. IsObject (record { kind = kind; bytes = bytes.now }) text.items) }
{
    let text = put_together(alloc, kind, bytes)?;
    Ok(text)
}
