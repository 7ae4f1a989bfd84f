//! Who made a commit and when.

ghost use Rattle.std.specs.Prelude.{◌≡◌, IfOk};
ghost use Rattle.grammar.specs.Gives.{Gives};
ghost use Rattle.grammar.specs.Grammar.{IsReading};
ghost use Rattle.ident_text.specs.Faults.{IsIdentFault};
ghost use Rattle.ident_text.specs.Idents.{IsIdentValue, IsIdent};
ghost use Rattle.ident_text.specs.ReadIdents.{whole_ident_from};

use crate::fault::IdentFault;
use crate::parts::ident_of;
use grammar::ReadError;
use itoa::Buffer;
use seq_base::Bytes;
use std::alloc::{AllocError, Global};

/// Who made a commit and when.
#[derive(Debug, Clone, PartialEq, Eq, Drop)]
pub struct Ident {
    pub name: Bytes,
    pub email: Bytes,
    /// Seconds since 1970.
    pub secs: i64,
    /// A sign and four digits, `+0130` for an hour and a half east of Greenwich.
    pub zone: [u8; 5],
}

#[tactic(auto, unfolding(crate::specs::ReadIdents::whole_ident_from))]
fn whole_ident(alloc: Global, text: &[u8]) -> Result<Ident, ReadError>
    ensures { Gives (λ x. x) result (whole_ident_from text.now) }
{
    let (parts, rest) = ident_of(text)?;
    if !rest.is_empty() {
        return Err(ReadError::Stopped { left: rest.len() });
    }
    let name = Vec::from_slice(alloc, parts.name)?;
    let email = Vec::from_slice(alloc, parts.email)?;
    Ok(Ident {
        name: Bytes::from_vec(name),
        email: Bytes::from_vec(email),
        secs: parts.secs,
        zone: parts.zone,
    })
}

/// The ident that the text spells, all of it: `<name> SP < <email> > SP <secs> SP <zone>`, where name and email hold neither `<` nor
/// `>` nor LF nor NUL, the seconds are a decimal number of 64 bits with a sign, without a plus sign and without a 0 before other
/// digits, and the zone is a sign and four digits (git-commit-tree(1), "Commit Information").
pub fn parse_ident(alloc: Global, text: &[u8]) -> Result<Ident, IdentFault>
    ensures { IsReading (λ ident. ident) (IsIdentFault IsIdent text.now) IsIdent text.now result }
{
    match whole_ident(alloc, text) {
        Ok(ident) => Ok(ident),
        Err(ReadError::Memory) => Err(IdentFault::Memory),
        Err(ReadError::Stopped { left }) => Err(IdentFault::Bad {
            at: (text.len() - left) as u64,
        }),
    }
}

/// The text of an ident, whose name and email hold neither `<` nor `>` nor LF nor NUL, and whose zone is a sign and four digits.
pub fn ident_text(alloc: Global, ident: &Ident) -> Result<Vec<u8>, AllocError>
    requires { IsIdentValue ident.now }
    ensures { IfOk result (λ text. IsIdent ident.now text.items) }
{
    let mut buffer = Buffer::new();
    let mut text = Vec::from_slice(alloc, ident.name.as_slice())?;
    text.extend_from_slice(b" <")?;
    text.extend_from_slice(ident.email.as_slice())?;
    text.extend_from_slice(b"> ")?;
    text.extend_from_slice(buffer.format(ident.secs).as_bytes())?;
    text.push(b' ')?;
    text.extend_from_slice(ident.zone.as_slice())?;
    Ok(text)
}
