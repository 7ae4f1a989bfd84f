//! Words of a line, between blanks.

ghost use Rattle.std.specs.Prelude.{◌≡◌, ◌≤◌, length, IfOk};
ghost use Rattle.todo_text.specs.Words.{from_word, to_word, from_blank, word, behind, lacks_word, is_hash, trimmed};

use seq_base::{Bytes, is_blank};
use std::alloc::{AllocError, Global};

pub fn bytes_of(alloc: Global, bytes: &[u8]) -> Result<Bytes, AllocError>
    ensures { IfOk result (λ b. b ≡ bytes.now) }
{
    Ok(Bytes::from_vec(Vec::from_slice(alloc, bytes)?))
}

/// A text without the blanks in front.
pub fn from_word(text: &[u8]) -> &[u8]
    ensures { result.now ≡ from_word text.now }
{
    let mut rest = text;
    while let [first, after @ ..] = rest {
        if !is_blank(*first) {
            return rest;
        }
        rest = after;
    }
    rest
}

/// A text without the blanks at its end.
fn to_word(text: &[u8]) -> &[u8]
    ensures { result.now ≡ to_word text.now }
{
    let mut rest = text;
    while let [before @ .., last] = rest {
        if !is_blank(*last) {
            return rest;
        }
        rest = before;
    }
    rest
}

/// A text without the blanks around it.
pub fn trimmed(text: &[u8]) -> &[u8]
    ensures { result.now ≡ trimmed text.now }
{
    to_word(from_word(text))
}

/// The first blank of a text, and what stands behind it.
fn from_blank(text: &[u8]) -> &[u8]
    ensures same { result.now ≡ from_blank text.now }
    ensures within { length result.now ≤ length text.now }
{
    let mut rest = text;
    while let [first, after @ ..] = rest {
        if is_blank(*first) {
            return rest;
        }
        rest = after;
    }
    rest
}

/// The first word of a text, which is empty where there is none, and what stands behind it.
#[tactic(auto, unfolding(crate::specs::Words::word, crate::specs::Words::behind))]
pub fn first_word(text: &[u8]) -> (&[u8], &[u8])
    ensures word { result.0.now ≡ word text.now }
    ensures behind { result.1.now ≡ behind text.now }
{
    let text = from_word(text);
    let behind = from_blank(text);
    (&text[..text.len() - behind.len()], behind)
}

pub fn is_hash(word: &[u8]) -> bool
    ensures { result ≡ is_hash word.now }
{
    word == b"#".as_slice()
}

/// Whether a text is blanks alone.
pub fn lacks_word(text: &[u8]) -> bool
    ensures { result ≡ lacks_word text.now }
{
    first_word(text).0.is_empty()
}
