//! Lines of a text.

ghost use Rattle.std.specs.Prelude.{◌≡◌, ◌++◌, [], ◌∷◌, OnOk};
ghost use Rattle.message_text.specs.Lines.{lines, without_blanks, body};

use bstr::{ByteSlice, Split};
use std::alloc::AllocError;

/// The parts between line feeds.
#[tactic(auto, using(crate::proofs::LineLemmas::line_steps))]
pub fn lines_of(text: &[u8]) -> Split<'_, 'static>
    ensures { result ≡ lines text.now }
{
    text.split_str(b"\n")
}

/// A line without the blanks at its end.
#[tactic(auto, using(crate::proofs::BodyLemmas::body_steps))]
pub fn without_end_blanks(line: &[u8]) -> &[u8]
    ensures { result.now ≡ without_blanks line.now }
{
    match line.rfind_not_byteset(b" \t") {
        Some(last) => &line[..last + 1],
        None => &line[..0],
    }
}

/// A text without the line feeds at its end.
#[tactic(auto, using(crate::proofs::BodyLemmas::body_steps))]
pub fn body_of(text: &[u8]) -> &[u8]
    ensures { result.now ≡ body text.now }
{
    match text.rfind_not_byteset(b"\n") {
        Some(last) => &text[..last + 1],
        None => &text[..0],
    }
}

/// Writes a line and the line feed after it.
pub fn push_line(text: &mut Vec<u8>, line: &[u8]) -> Result<(), AllocError>
    ensures { OnOk result (text.new.items ≡ text.old.items ++ (line.now ++ 10 ∷ [])) }
{
    text.extend_from_slice(line)?;
    text.push(b'\n')?;
    Ok(())
}

/// Writes a line of three pieces.
pub fn push_line_of(
    text: &mut Vec<u8>,
    front: &[u8],
    middle: &[u8],
    end: &[u8],
) -> Result<(), AllocError>
    ensures { OnOk result (text.new.items ≡ text.old.items ++ ((front.now ++ middle.now ++ end.now) ++ 10 ∷ [])) }
{
    text.extend_from_slice(front)?;
    text.extend_from_slice(middle)?;
    push_line(text, end)
}
