//! The words of a line. They stand between spaces; a quote `'` begins or ends a part in which spaces are kept; and `\n`, `\r`,
//! `\t`, `\'` and `\\` stand for one byte each, as does `\!` for a byte that is in no UTF-8.

use seq_base::Bytes;
use std::alloc::{AllocError, Global};

/// What stands before ` => `.
pub fn front(line: &[u8]) -> &[u8] {
    for (n, part) in line.windows(4).enumerate() {
        if part == b" => ".as_slice() && n < line.len() {
            return &line[..n];
        }
    }
    line
}

fn meant(byte: u8) -> u8 {
    match byte {
        b'n' => b'\n',
        b'r' => b'\r',
        b't' => b'\t',
        b'!' => 255,
        byte => byte,
    }
}

/// The word that is read, if one has begun, and where in it the line is.
#[derive(Drop)]
struct Part {
    word: Vec<u8>,
    has_begun: bool,
    is_quoted: bool,
    is_escaped: bool,
}

fn end_word(alloc: Global, part: &mut Part, words: &mut Vec<Bytes>) -> Result<(), AllocError> {
    if part.has_begun {
        words.push(Bytes::from_vec(Vec::from_slice(alloc, &part.word)?))?;
        part.word.clear();
        part.has_begun = false;
    }
    Ok(())
}

fn read_byte(
    alloc: Global,
    part: &mut Part,
    words: &mut Vec<Bytes>,
    byte: u8,
) -> Result<(), AllocError> {
    if part.is_escaped {
        part.is_escaped = false;
        part.word.push(meant(byte))?;
        return Ok(());
    }
    if byte == b' ' && !part.is_quoted {
        return end_word(alloc, part, words);
    }
    part.has_begun = true;
    match byte {
        b'\\' => part.is_escaped = true,
        b'\'' => part.is_quoted = !part.is_quoted,
        byte => part.word.push(byte)?,
    }
    Ok(())
}

pub fn words(alloc: Global, line: &[u8]) -> Result<Vec<Bytes>, AllocError> {
    let mut words = Vec::new(alloc);
    let mut part = Part {
        word: Vec::new(alloc),
        has_begun: false,
        is_quoted: false,
        is_escaped: false,
    };
    for byte in line {
        read_byte(alloc, &mut part, &mut words, *byte)?;
    }
    end_word(alloc, &mut part, &mut words)?;
    Ok(words)
}
