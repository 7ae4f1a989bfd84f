//! A value in single quotes of a shell.

ghost use Rattle.std.specs.Prelude.{◌≡◌, ◌++◌, ℕ, List, Some, IfOk, true, is_some, option_map};
ghost use Rattle.grammar.specs.Gives.{Gives};
ghost use Rattle.ident_text.specs.declared.quotes.Quotes.TheVariants as at;
ghost use Rattle.ident_text.specs.AuthorScripts.{quoted, quoted_line};
ghost use Rattle.ident_text.specs.ReadScripts.{behind, behind_all, may_be_quoted, shown, quoted_value, quoted_from};

use crate::parts::is_ident_byte;
use grammar::{ReadError, Scan, span_of};
use std::alloc::{AllocError, Global};

/// Where one stands in a value whose single quotes are written `'\''`.
#[derive(Clone, Copy, Debug, PartialEq, Eq)]
enum Quotes {
    Inside,
    /// Behind a quote that closes.
    Closed,
    /// Behind a backslash.
    Escaped,
    /// Behind a quote that stands for itself.
    Written,
}

impl Quotes {
    /// Where one stands behind the byte, if it may stand there.
    fn behind(self, byte: u8) -> Option<Quotes>
        ensures { result ≡ behind self byte }
    {
        match self {
            Quotes::Inside => {
                if byte == b'\'' {
                    Some(Quotes::Closed)
                } else if is_ident_byte(byte) {
                    Some(Quotes::Inside)
                } else {
                    None
                }
            }
            Quotes::Closed => {
                if byte == b'\\' {
                    Some(Quotes::Escaped)
                } else {
                    None
                }
            }
            Quotes::Escaped => {
                if byte == b'\'' {
                    Some(Quotes::Written)
                } else {
                    None
                }
            }
            Quotes::Written => {
                if byte == b'\'' {
                    Some(Quotes::Inside)
                } else {
                    None
                }
            }
        }
    }

    /// Puts the byte behind the value, if it belongs to it.
    fn show(self, byte: u8, value: &mut Vec<u8>) -> Result<(), AllocError>
        ensures { IfOk result (λ _. value.new.items ≡ value.old.items ++ shown self byte) }
    {
        match self {
            Quotes::Inside => {
                if byte != b'\'' {
                    value.push(byte)?;
                }
            }
            Quotes::Written => value.push(byte)?,
            Quotes::Closed | Quotes::Escaped => {}
        }
        Ok(())
    }
}

#[derive(Drop)]
struct QuotesScan {
    quotes: Quotes,
}

impl Scan for QuotesScan {
    ghost may = { λ _ front. may_be_quoted front };

    ghost has_seen = { λ s seen. behind_all (Some at.Inside) seen ≡ Some s.quotes };

    fn goes_on(&mut self, front: &[u8]) -> bool {
        match self.quotes.behind(front[front.len() - 1]) {
            Some(quotes) => {
                self.quotes = quotes;
                true
            }
            None => false,
        }
    }
}

/// The value that is written so, up to the quote that closes.
fn unquoted(alloc: Global, word: &[u8]) -> Result<Option<Vec<u8>>, AllocError>
    ensures { IfOk result (λ o. option_map (λ v. v.items) o ≡ quoted_value word.now) }
{
    let mut value = Vec::new(alloc);
    let mut quotes = Quotes::Inside;
    for b in word {
        quotes.show(*b, &mut value)?;
        let Some(next) = quotes.behind(*b) else {
            return Ok(None);
        };
        quotes = next;
    }
    match quotes {
        Quotes::Closed => Ok(Some(value)),
        Quotes::Inside | Quotes::Escaped | Quotes::Written => Ok(None),
    }
}

/// The value up to the quote that closes and the LF behind it, and what stands behind that.
#[tactic(auto, unfolding(crate::specs::ReadScripts::quoted_from))]
pub fn quoted_of(alloc: Global, bytes: &[u8]) -> Result<(Vec<u8>, &[u8]), ReadError>
    ensures { Gives (λ x. (x.0.items, x.1.now)) result (quoted_from bytes.now) }
{
    let mut scan = QuotesScan {
        quotes: Quotes::Inside,
    };
    let (word, rest) = span_of(&mut scan, b'\n', bytes)?;
    match unquoted(alloc, word)? {
        Some(value) => Ok((value, rest)),
        None => Err(ReadError::Stopped {
            left: rest.len() + 1,
        }),
    }
}

/// Writes a value, with its single quotes as `'\''`.
fn put_quoted(out: &mut Vec<u8>, value: &[u8]) -> Result<(), AllocError>
    ensures { IfOk result (λ _. out.new.items ≡ out.old.items ++ quoted value.now) }
{
    for b in value {
        if *b == b'\'' {
            out.extend_from_slice(b"'\\''")?;
        } else {
            out.push(*b)?;
        }
    }
    Ok(())
}

/// Writes what stands behind the quote that opens, up to the end of the line.
pub fn put_quoted_line(out: &mut Vec<u8>, value: &[u8]) -> Result<(), AllocError>
    ensures { IfOk result (λ _. out.new.items ≡ out.old.items ++ quoted_line value.now) }
{
    put_quoted(out, value)?;
    out.extend_from_slice(b"'\n")?;
    Ok(())
}
