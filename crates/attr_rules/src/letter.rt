//! The bytes of a pattern, quoted or not.

ghost use Rattle.std.specs.Prelude.{◌≡◌, IfOk, false};
ghost use Rattle.std.specs.Option.{option_map};
ghost use Rattle.attr_rules.specs.Letters.{is_plain, letters_from};

use std::alloc::{AllocError, Global};

/// A byte of a pattern, and whether `\` quotes it.
#[derive(Clone, Copy, Debug)]
pub struct Letter {
    pub byte: u8,
    pub quoted: bool,
}

impl Letter {
    pub fn is_plain(&self, byte: u8) -> bool
        ensures { result ≡ is_plain self.now byte }
    {
        !self.quoted && self.byte == byte
    }
}

/// The letters of a pattern, or None where its last byte is a `\` that quotes nothing.
#[tactic(auto, using(crate::proofs::Led::led_by_more))]
pub fn letters_of(alloc: Global, pattern: &[u8]) -> Result<Option<Vec<Letter>>, AllocError>
    ensures { IfOk result (λ found. option_map (λ v. v.items) found ≡ letters_from false pattern.now) }
{
    let mut letters = Vec::new(alloc);
    let mut quoted = false;
    for byte in pattern {
        if !quoted && *byte == b'\\' {
            quoted = true;
        } else {
            letters.push(Letter {
                byte: *byte,
                quoted,
            })?;
            quoted = false;
        }
    }
    if quoted {
        return Ok(None);
    }
    Ok(Some(letters))
}
