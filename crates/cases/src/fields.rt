//! The fields of a case.

use crate::fault::CaseFault;
use seq_base::{Bytes, Entry, Id, Mode, Path};
use std::alloc::Global;

/// The fields of a case that are not read yet.
#[derive(Drop)]
pub struct Fields<'a> {
    alloc: Global,
    rest: &'a [Bytes],
}

impl<'a> Fields<'a> {
    pub fn new(alloc: Global, rest: &'a [Bytes]) -> Fields<'a> {
        Fields { alloc, rest }
    }

    /// How many fields are left.
    pub fn len(&self) -> usize {
        self.rest.len()
    }

    pub fn bytes(&mut self) -> Result<&'a [u8], CaseFault> {
        let [first, after @ ..] = self.rest else {
            return Err(CaseFault::Missing)
        };
        self.rest = after;
        Ok(first.as_slice())
    }

    /// The bytes of a field, kept.
    pub fn owned(&mut self) -> Result<Bytes, CaseFault> {
        let bytes = self.bytes()?;
        Ok(Bytes::from_vec(Vec::from_slice(self.alloc, bytes)?))
    }

    /// A word, which is text.
    pub fn word(&mut self) -> Result<&'a str, CaseFault> {
        match str::from_utf8(self.bytes()?) {
            Ok(word) => Ok(word),
            Err(_) => Err(CaseFault::Form),
        }
    }

    pub fn number(&mut self) -> Result<u64, CaseFault> {
        match self.word()?.parse::<u64>() {
            Ok(number) => Ok(number),
            Err(_) => Err(CaseFault::Form),
        }
    }

    pub fn yes_or_no(&mut self) -> Result<bool, CaseFault> {
        match self.word()? {
            "yes" => Ok(true),
            "no" => Ok(false),
            _ => Err(CaseFault::Form),
        }
    }

    /// Bytes that are written as their hex digits.
    pub fn hex(&mut self) -> Result<Vec<u8>, CaseFault> {
        match hex::decode(self.alloc, self.bytes()?) {
            Ok(bytes) => Ok(bytes),
            Err(_) => Err(CaseFault::Form),
        }
    }

    pub fn id(&mut self) -> Result<Id, CaseFault> {
        id_of(self.bytes()?)
    }

    /// An id, or `none`.
    pub fn id_or_none(&mut self) -> Result<Option<Id>, CaseFault> {
        let word = self.bytes()?;
        if word == b"none".as_slice() {
            return Ok(None);
        }
        Ok(Some(id_of(word)?))
    }

    pub fn path(&mut self) -> Result<Path, CaseFault> {
        match Path::new(self.alloc, self.bytes()?) {
            Ok(path) => Ok(path),
            Err(_) => Err(CaseFault::Form),
        }
    }

    /// The paths that are left.
    pub fn paths(&mut self) -> Result<Vec<Path>, CaseFault> {
        let mut paths = Vec::new(self.alloc);
        for _ in 0..self.rest.len() {
            paths.push(self.path()?)?;
        }
        Ok(paths)
    }

    /// A mode and an id.
    pub fn entry(&mut self) -> Result<Entry, CaseFault> {
        let Some(mode) = Mode::read(self.bytes()?) else {
            return Err(CaseFault::Form)
        };
        let id = self.id()?;
        Ok(Entry { mode, id })
    }

    /// A mode and an id, or `none`.
    pub fn entry_or_none(&mut self) -> Result<Option<Entry>, CaseFault> {
        if let [first, after @ ..] = self.rest {
            if first.as_slice() == b"none".as_slice() {
                self.rest = after;
                return Ok(None);
            }
        }
        Ok(Some(self.entry()?))
    }

    /// That no field is left.
    pub fn end(&self) -> Result<(), CaseFault> {
        if self.rest.is_empty() {
            Ok(())
        } else {
            Err(CaseFault::Extra)
        }
    }
}

fn id_of(word: &[u8]) -> Result<Id, CaseFault> {
    match Id::from_hex(word) {
        Ok(id) => Ok(id),
        Err(_) => Err(CaseFault::Form),
    }
}
