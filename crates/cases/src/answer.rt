//! The text of an answer.

use itoa::Buffer;
use seq_base::{Entry, Id, Mode};
use std::alloc::{AllocError, Global};

/// The text of an answer: words, with a space between them.
#[derive(Drop)]
pub struct Answer {
    text: Vec<u8>,
}

impl Answer {
    pub fn new(alloc: Global) -> Answer {
        Answer {
            text: Vec::new(alloc),
        }
    }

    pub fn into_vec(self) -> Vec<u8> {
        self.text
    }

    pub fn word(&mut self, word: &[u8]) -> Result<(), AllocError> {
        if !self.text.is_empty() {
            self.text.push(b' ')?;
        }
        self.text.extend_from_slice(word)
    }

    pub fn yes_or_no(&mut self, is: bool) -> Result<(), AllocError> {
        self.word(if is { b"yes" } else { b"no" })
    }

    pub fn number(&mut self, number: u64) -> Result<(), AllocError> {
        let mut buffer = Buffer::new();
        self.word(buffer.format(number).as_bytes())
    }

    pub fn signed(&mut self, number: i64) -> Result<(), AllocError> {
        let mut buffer = Buffer::new();
        self.word(buffer.format(number).as_bytes())
    }

    /// A word and a number.
    pub fn counted(&mut self, word: &[u8], number: u64) -> Result<(), AllocError> {
        self.word(word)?;
        self.number(number)
    }

    /// A word, and bytes in quotes.
    pub fn named(&mut self, word: &[u8], bytes: &[u8]) -> Result<(), AllocError> {
        self.word(word)?;
        self.bytes(bytes)
    }

    /// Bytes in quotes: those that a line cannot show are escaped.
    pub fn bytes(&mut self, bytes: &[u8]) -> Result<(), AllocError> {
        self.word(b"\"")?;
        for byte in bytes {
            self.byte(*byte)?;
        }
        self.text.push(b'"')?;
        Ok(())
    }

    fn byte(&mut self, byte: u8) -> Result<(), AllocError> {
        match byte {
            b'\n' => self.text.extend_from_slice(b"\\n"),
            b'\t' => self.text.extend_from_slice(b"\\t"),
            b'"' => self.text.extend_from_slice(b"\\\""),
            b'\\' => self.text.extend_from_slice(b"\\\\"),
            b' '..=b'~' => {
                self.text.push(byte)?;
                Ok(())
            }
            _ => {
                self.text.extend_from_slice(b"\\x")?;
                self.digits(&[byte])
            }
        }
    }

    fn digits(&mut self, bytes: &[u8]) -> Result<(), AllocError> {
        let text = hex::encode(*self.text.allocator(), bytes)?;
        self.text.extend_from_slice(text.as_bytes())
    }

    /// Bytes as their hex digits.
    pub fn hex(&mut self, bytes: &[u8]) -> Result<(), AllocError> {
        self.word(b"")?;
        self.digits(bytes)
    }

    pub fn id(&mut self, id: Id) -> Result<(), AllocError> {
        self.hex(id.bytes())
    }

    /// An id, or `none`.
    pub fn id_or_none(&mut self, id: Option<Id>) -> Result<(), AllocError> {
        match id {
            Some(id) => self.id(id),
            None => self.word(b"none"),
        }
    }

    pub fn mode(&mut self, mode: Mode) -> Result<(), AllocError> {
        let text = format!(in *self.text.allocator(); "{:o}", mode.number())?;
        self.word(text.as_bytes())
    }

    /// A mode and an id.
    pub fn entry(&mut self, entry: &Entry) -> Result<(), AllocError> {
        self.mode(entry.mode)?;
        self.id(entry.id)
    }

    /// An entry, or `none`.
    pub fn entry_or_none(&mut self, entry: &Option<Entry>) -> Result<(), AllocError> {
        match entry {
            Some(entry) => self.entry(entry),
            None => self.word(b"none"),
        }
    }
}
