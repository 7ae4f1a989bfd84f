//! The lines of a rule file.

ghost use Rattle.std.specs.Prelude.{◌≡◌, IfOk};
ghost use Rattle.std.specs.Option.{option_map};
ghost use Rattle.attr_rules.specs.Rules.{line_of, lines_of};

use crate::cut::{first_line, first_word, without_blanks, without_return};
use crate::name::have_names;
use seq_base::Bytes;
use std::alloc::{AllocError, Global};
use std::marker::Model;

/// A line of a rule file: its pattern, and the text of its attributes.
#[derive(Debug, Drop)]
pub struct Line {
    pub pattern: Bytes,
    pub attributes: Bytes,
}

/// The rules of a file. Contracts see its folder and its lines.
#[derive(Debug, Drop)]
pub struct Rules {
    folder: Bytes,
    held: Vec<Line>,
}

impl Model for Rules {
    ghost use Rattle.attr_rules.specs.Rules.{RuleFile};

    ghost Value = { RuleFile };

    ghost view = { λ r. record { folder = r.folder; lines = r.held.items } };
}

impl Rules {
    /// The folder of the file, without a `/` at its end; empty for the root.
    pub fn folder(&self) -> &[u8]
        ensures { result.now ≡ self.now.folder }
    {
        self.folder.as_slice()
    }

    /// The lines that are not passed over.
    pub fn lines(&self) -> &[Line]
        ensures { result.now ≡ self.now.lines }
    {
        self.held.as_slice()
    }
}

pub fn bytes_of(alloc: Global, bytes: &[u8]) -> Result<Bytes, AllocError>
    ensures { IfOk result (λ b. b ≡ bytes.now) }
{
    Ok(Bytes::from_vec(Vec::from_slice(alloc, bytes)?))
}

fn line_of(alloc: Global, line: &[u8]) -> Result<Option<Line>, AllocError>
    ensures { IfOk result (λ found. found ≡ line_of line.now) }
{
    let text = without_blanks(without_return(line));
    let [first, ..] = text else { return Ok(None) };
    if *first == b'#' || *first == b'!' || *first == b'"' {
        return Ok(None);
    }
    let (pattern, attributes) = first_word(text);
    if !have_names(attributes) {
        return Ok(None);
    }
    Ok(Some(Line {
        pattern: bytes_of(alloc, pattern)?,
        attributes: bytes_of(alloc, attributes)?,
    }))
}

fn lines_of(alloc: Global, text: &[u8]) -> Result<Vec<Line>, AllocError>
    ensures { IfOk result (λ v. v.items ≡ lines_of text.now) }
{
    let mut lines = Vec::new(alloc);
    let mut rest = text;
    while !rest.is_empty() {
        let (line, behind) = first_line(rest);
        if let Some(kept) = line_of(alloc, line)? {
            lines.push(kept)?;
        }
        rest = behind;
    }
    Ok(lines)
}

/// The rules of a file that lies in this folder, by gitattributes(5), "DESCRIPTION". A line is a pattern and attributes,
/// separated by blanks. Blanks at its front and a CR at its end are dropped. Lines that are empty, begin with `#`, `!` or `"`, or
/// mention an attribute by what is no name, as behind a comment, are passed over. A name has letters, digits, `-`, `.` and `_`,
/// and does not begin with `-`.
pub fn parse_rules(alloc: Global, text: &[u8], folder: &[u8]) -> Result<Rules, AllocError>
    ensures { IfOk result (λ rules. (rules.folder ≡ folder.now) × (rules.lines ≡ lines_of text.now)) }
{
    Ok(Rules {
        folder: bytes_of(alloc, folder)?,
        held: lines_of(alloc, text)?,
    })
}
