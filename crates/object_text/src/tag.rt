//! The first lines of a tag.

ghost use Rattle.std.specs.Prelude.{◌≡◌, codes};
ghost use Rattle.grammar.specs.Gives.{Gives};
ghost use Rattle.grammar.specs.Grammar.{IsReading};
ghost use Rattle.ident_text.specs.Ids.{id_from};
ghost use Rattle.object_text.specs.Commits.{is_in_line};
ghost use Rattle.object_text.specs.Faults.{GivesNamed, IsTextFault};
ghost use Rattle.object_text.specs.ReadCommits.{keyed_from};
ghost use Rattle.object_text.specs.Store.{named_of, tag_lines_from, tagged_from};
ghost use Rattle.object_text.specs.Tags.{IsTag};

use crate::fault::TextFault;
use crate::object::kind_until;
use grammar::{ByteTest, ReadError, behind_literal, word_of};
use ident_text::id_of;
use seq_base::Id;

#[derive(Drop)]
struct LineByte;

impl ByteTest for LineByte {
    ghost passes = { λ _ b. is_in_line b };

    fn is_met(&self, byte: u8) -> bool {
        byte != b'\n'
    }
}

/// The object that is tagged.
fn object_line_of(bytes: &[u8]) -> Result<(Id, &[u8]), ReadError>
    ensures { Gives (λ x. (x.0, x.1.now)) result (keyed_from (codes "object ") id_from bytes.now) }
{
    let rest = behind_literal(b"object ", bytes)?;
    match id_of(rest) {
        Ok((id, rest)) => Ok((id, behind_literal(b"\n", rest)?)),
        Err(e) => Err(e),
    }
}

/// The same, and what stands behind the tag's name, from what stands behind its object.
fn tag_lines_of(id: Id, bytes: &[u8]) -> Result<(Id, &[u8]), ReadError>
    ensures { Gives (λ x. (x.0, x.1.now)) result (tag_lines_from id bytes.now) }
{
    let rest = behind_literal(b"type ", bytes)?;
    let (_, rest) = kind_until(b'\n', rest)?;
    let rest = behind_literal(b"tag ", rest)?;
    let (_, rest) = word_of(LineByte, b'\n', rest)?;
    Ok((id, rest))
}

#[tactic(auto, unfolding(crate::specs::Store::tagged_from))]
fn tagged_of(bytes: &[u8]) -> Result<(Id, &[u8]), ReadError>
    ensures { Gives (λ x. (x.0, x.1.now)) result (tagged_from bytes.now) }
{
    match object_line_of(bytes) {
        Ok((id, rest)) => tag_lines_of(id, rest),
        Err(e) => Err(e),
    }
}

/// The id of the object that a tag names, by the first lines of its content (git-mktag(1)); what stands behind them is not read.
#[tactic(auto, unfolding(crate::specs::Store::named_of))]
pub fn parse_tag(bytes: &[u8]) -> Result<Id, TextFault>
    ensures read { IsReading (λ id. id) (IsTextFault IsTag bytes.now) IsTag bytes.now result }

    // It follows from `read`.
    ensures named { GivesNamed result (named_of bytes.now) }
{
    match tagged_of(bytes) {
        Ok(found) => Ok(found.0),
        Err(ReadError::Memory) => Err(TextFault::Memory),
        Err(ReadError::Stopped { left }) => Err(TextFault::Bad {
            at: (bytes.len() - left) as u64,
        }),
    }
}
