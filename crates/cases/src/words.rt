//! The words of a line.

use crate::fault::CaseFault;
use seq_base::Bytes;
use std::alloc::{AllocError, Global};

/// Where in a word a byte stands.
#[derive(Clone, Copy)]
enum Place {
    Outside,
    Plain,
    Quoted,
    Escaped,
    /// Behind `\x`.
    FirstDigit,
    /// Behind `\x` and this digit.
    SecondDigit(u8),
}

/// The words that were read, and the one that is being read.
#[derive(Drop)]
struct Reader {
    words: Vec<Bytes>,
    word: Vec<u8>,
    place: Place,
}

impl Reader {
    fn end_word(&mut self) -> Result<(), AllocError> {
        let word = Vec::from_slice(*self.words.allocator(), &self.word)?;
        self.words.push(Bytes::from_vec(word))?;
        self.word.clear();
        Ok(())
    }

    fn take_plain(&mut self, byte: u8) -> Result<Place, CaseFault> {
        if byte == b'"' {
            return Ok(Place::Quoted);
        }
        self.word.push(byte)?;
        Ok(Place::Plain)
    }

    fn take_quoted(&mut self, byte: u8) -> Result<Place, CaseFault> {
        if byte == b'"' {
            return Ok(Place::Plain);
        }
        if byte == b'\\' {
            return Ok(Place::Escaped);
        }
        self.word.push(byte)?;
        Ok(Place::Quoted)
    }

    fn take_escaped(&mut self, byte: u8) -> Result<Place, CaseFault> {
        match byte {
            b'x' => return Ok(Place::FirstDigit),
            b'n' => self.word.push(b'\n')?,
            b't' => self.word.push(b'\t')?,
            b'"' | b'\\' => self.word.push(byte)?,
            _ => return Err(CaseFault::Escape),
        }
        Ok(Place::Quoted)
    }

    fn take_digits(&mut self, first: u8, second: u8) -> Result<Place, CaseFault> {
        let mut bytes = [0];
        match hex::decode_to_slice([first, second].as_slice(), &mut bytes) {
            Ok(()) => self.word.push(bytes[0])?,
            Err(_) => return Err(CaseFault::Escape),
        }
        Ok(Place::Quoted)
    }

    fn take_outside(&mut self, byte: u8) -> Result<Place, CaseFault> {
        if byte == b' ' {
            return Ok(Place::Outside);
        }
        self.take_plain(byte)
    }

    fn take(&mut self, byte: u8) -> Result<(), CaseFault> {
        self.place = match self.place {
            Place::Outside => self.take_outside(byte)?,
            Place::Plain if byte == b' ' => {
                self.end_word()?;
                Place::Outside
            }
            Place::Plain => self.take_plain(byte)?,
            Place::Quoted => self.take_quoted(byte)?,
            Place::Escaped => self.take_escaped(byte)?,
            Place::FirstDigit => Place::SecondDigit(byte),
            Place::SecondDigit(first) => self.take_digits(first, byte)?,
        };
        Ok(())
    }
}

/// The words of a line, which spaces separate. In quotes a byte stands for itself, but for `\"`, `\\`, `\n`, `\t` and `\x` with two
/// hex digits.
pub fn words_of(alloc: Global, line: &[u8]) -> Result<Vec<Bytes>, CaseFault> {
    let mut reader = Reader {
        words: Vec::new(alloc),
        word: Vec::new(alloc),
        place: Place::Outside,
    };
    for byte in line {
        reader.take(*byte)?;
    }
    match reader.place {
        Place::Outside => {}
        Place::Plain => reader.end_word()?,
        _ => return Err(CaseFault::Quote),
    }
    Ok(reader.words)
}
