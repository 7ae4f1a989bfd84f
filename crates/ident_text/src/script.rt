//! The file `author-script`.

ghost use Rattle.std.specs.Prelude.{◌≡◌, ◌++◌, IfOk, FitsSigned};
ghost use Rattle.std.specs.Int.{w64};
ghost use Rattle.grammar.specs.Gives.{Gives};
ghost use Rattle.grammar.specs.Grammar.{IsReading};
ghost use Rattle.ident_text.specs.AuthorScripts.{IsAuthorScript, date_line};
ghost use Rattle.ident_text.specs.Faults.{IsIdentFault};
ghost use Rattle.ident_text.specs.Idents.{IsIdentValue};
ghost use Rattle.ident_text.specs.ReadScripts.{script_from};

use crate::fault::IdentFault;
use crate::ident::Ident;
use crate::parts::{secs_of, zone_of};
use crate::quotes::{put_quoted_line, quoted_of};
use grammar::{ReadError, behind_literal};
use itoa::Buffer;
use seq_base::Bytes;
use std::alloc::{AllocError, Global};

#[tactic(auto, unfolding(crate::specs::ReadScripts::script_from))]
fn script_ident(alloc: Global, text: &[u8]) -> Result<Ident, ReadError>
    ensures { Gives (λ x. x) result (script_from text.now) }
{
    let rest = behind_literal(b"GIT_AUTHOR_NAME='", text)?;
    let (name, rest) = quoted_of(alloc, rest)?;
    let rest = behind_literal(b"GIT_AUTHOR_EMAIL='", rest)?;
    let (email, rest) = quoted_of(alloc, rest)?;
    let rest = behind_literal(b"GIT_AUTHOR_DATE='@", rest)?;
    let (secs, rest) = secs_of(rest)?;
    let (zone, rest) = zone_of(rest)?;
    let rest = behind_literal(b"'\n", rest)?;
    if !rest.is_empty() {
        return Err(ReadError::Stopped { left: rest.len() });
    }
    Ok(Ident {
        name: Bytes::from_vec(name),
        email: Bytes::from_vec(email),
        secs,
        zone,
    })
}

/// The ident that an author's script assigns: the lines `GIT_AUTHOR_NAME='<name>'`, `GIT_AUTHOR_EMAIL='<email>'` and
/// `GIT_AUTHOR_DATE='@<secs> <zone>'`, with each single quote of a name or an email as `'\''`, and nothing else.
pub fn parse_author_script(alloc: Global, text: &[u8]) -> Result<Ident, IdentFault>
    ensures { IsReading (λ ident. ident) (IsIdentFault IsAuthorScript text.now) IsAuthorScript text.now result }
{
    match script_ident(alloc, text) {
        Ok(ident) => Ok(ident),
        Err(ReadError::Memory) => Err(IdentFault::Memory),
        Err(ReadError::Stopped { left }) => Err(IdentFault::Bad {
            at: (text.len() - left) as u64,
        }),
    }
}

#[tactic(auto, using(crate::proofs::ScriptLaws::date_written))]
fn put_date(out: &mut Vec<u8>, ident: &Ident) -> Result<(), AllocError>
    ensures text { IfOk result (λ _. out.new.items ≡ out.old.items ++ date_line ident.now) }
    ensures fits { FitsSigned w64 ident.now.secs }
{
    let mut buffer = Buffer::new();
    let secs = ident.secs;
    out.extend_from_slice(b"GIT_AUTHOR_DATE='@")?;
    out.extend_from_slice(buffer.format(secs).as_bytes())?;
    out.push(b' ')?;
    out.extend_from_slice(ident.zone.as_slice())?;
    out.extend_from_slice(b"'\n")?;
    Ok(())
}

/// The author's script of an ident, whose name and email hold neither `<` nor `>` nor LF nor NUL, and whose zone is a sign and
/// four digits.
pub fn author_script(alloc: Global, ident: &Ident) -> Result<Vec<u8>, AllocError>
    requires { IsIdentValue ident.now }
    ensures { IfOk result (λ text. IsAuthorScript ident.now text.items) }
{
    let mut text = Vec::from_slice(alloc, b"GIT_AUTHOR_NAME='")?;
    put_quoted_line(&mut text, ident.name.as_slice())?;
    text.extend_from_slice(b"GIT_AUTHOR_EMAIL='")?;
    put_quoted_line(&mut text, ident.email.as_slice())?;
    put_date(&mut text, ident)?;
    Ok(text)
}
