//! The id of an object.

ghost use Rattle.std.specs.Prelude.{ℕ, ◌≡◌, ◌≢◌, length, IfOk, IfErr};
ghost use Rattle.hex.specs.Hex.{IsBytes, encode_lower, is_hex_digit};
ghost use Rattle.seq_base.specs.First.{IsFirstFailing};
ghost use Rattle.seq_base.specs.Ids.{HasIdWidth, IsId, SpellsId};

use hex::FromHexError;
use std::alloc::{AllocError, Global};
use std::marker::Model;
use thiserror::Error;

/// The id of an object: the SHA-1 of its text, 20 bytes, which contracts see as their list. Ids compare as their bytes do.
#[derive(Clone, Copy, Debug, PartialEq, Eq, PartialOrd, Ord)]
pub struct Id {
    held: [u8; 20],
}

impl Model for Id {
    ghost use Rattle.std.specs.Prelude.{List, ℕ};
    ghost use Rattle.hex.specs.Hex.{IsBytes};

    ghost Value = { List ℕ };

    ghost view = { λ i. i.held };

    ghost invariant = { λ i. IsBytes i.held };

    ghost inverse = { λ bytes. record { held = bytes } };
}

/// Why a text is no id.
#[derive(Clone, Copy, Debug, PartialEq, Eq, Drop, Error)]
pub enum IdFault {
    /// It does not have 40 bytes.
    #[error("an id has 40 hex digits, and this has {found}")]
    Length { found: u64 },
    /// The first byte that is no hex digit, in either case.
    #[error("byte {at} is no hex digit")]
    Digit { at: u64 },
}

impl Id {
    pub fn from_bytes(bytes: [u8; 20]) -> Id
        ensures { result ≡ bytes }
    {
        Id { held: bytes }
    }

    pub fn bytes(&self) -> &[u8]
        ensures same { result.now ≡ self.now }
        ensures width { HasIdWidth self.now }
        ensures bytes { IsBytes self.now }
    {
        &self.held
    }

    /// Forty hex digits in lower case.
    #[tactic(auto, using(crate::proofs::HexLengths::hex_lengths))]
    pub fn hex(&self, alloc: Global) -> Result<Vec<u8>, AllocError>
        ensures digits { IfOk result (λ text. text.items ≡ encode_lower self.now) }
        ensures forty { IfOk result (λ text. length text.items ≡ 40) }
        ensures id { IsId self.now }
    {
        Ok(hex::encode(alloc, self.held.as_slice())?.into_bytes())
    }

    /// Reads forty hex digits, in either case. A length other than 40 is the first fault.
    pub fn from_hex(text: &[u8]) -> Result<Id, IdFault>
        ensures ok { IfOk result (λ id. SpellsId id text.now) }
        ensures length { length text.now ≢ 40 → result ≡ Err (IdFault.Length (length text.now)) }
        ensures digit { length text.now ≡ 40 → IfErr result (λ e. (at : ℕ) × (e ≡ IdFault.Digit at) × IsFirstFailing is_hex_digit text.now at) }
    {
        if text.len() != 40 {
            return Err(IdFault::Length {
                found: text.len() as u64,
            });
        }
        let mut held = [0; 20];
        match hex::decode_to_slice(text, &mut held) {
            Ok(()) => Ok(Id { held }),
            Err(e) => match e {
                FromHexError::InvalidHexCharacter { index, .. } => Err(IdFault::Digit {
                    at: index as u64,
                }),
                _ => unreachable!(),
            },
        }
    }
}
