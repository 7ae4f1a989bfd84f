//! Which paths fit a pattern.

ghost use Rattle.std.specs.Prelude.{◌≡◌, ◌==◌, ◌↔◌, IfOk, IsTrue, length, ◌+◌};
ghost use Rattle.std.specs.List.{after_last};
ghost use Rattle.attr_rules.specs.Matches.{Fits, Matches, has_slash, ends_in_slash, without_slash, looked_at};

use crate::letter::{Letter, letters_of};
use crate::piece::piece_at;
use crate::reach::{first_marks, marks_behind};
use std::alloc::{AllocError, Global};

fn has_slash(bytes: &[u8]) -> bool
    ensures { result ≡ has_slash bytes.now }
{
    bytes.iter().any(|b| *b == b'/')
}

fn ends_in_slash(bytes: &[u8]) -> bool
    ensures { result ≡ ends_in_slash bytes.now }
{
    match bytes {
        [.., last] => *last == b'/',
        [] => false,
    }
}

fn without_slash(pattern: &[u8]) -> &[u8]
    ensures { result.now ≡ without_slash pattern.now }
{
    match pattern {
        [first, rest @ ..] if *first == b'/' => rest,
        _ => pattern,
    }
}

fn last_part(path: &[u8]) -> &[u8]
    ensures { result.now ≡ after_last (λ b. b == 47) path.now }
{
    let mut begins = path.len();
    while begins > 0 && path[begins - 1] != b'/' {
        begins -= 1;
    }
    &path[begins..]
}

fn looked_at<'a>(pattern: &[u8], path: &'a [u8]) -> &'a [u8]
    ensures { result.now ≡ looked_at pattern.now path.now }
{
    if has_slash(pattern) {
        path
    } else {
        last_part(path)
    }
}

fn fits(alloc: Global, letters: &[Letter], text: &[u8]) -> Result<bool, AllocError>
    ensures { IfOk result (λ b. IsTrue b ↔ Fits letters.now text.now) }
{
    let mut marks = first_marks(alloc, text)?;
    let mut rest = letters;
    let mut begins = true;
    while !rest.is_empty() {
        let Some((piece, behind)) = piece_at(begins, rest) else {
            return Ok(false)
        };
        marks = marks_behind(alloc, &piece, marks.as_slice(), text)?;
        begins = piece.ends_part();
        rest = behind;
    }
    Ok(marks[text.len()])
}

/// Whether a path fits a pattern of a rule file, by gitattributes(5) and "PATTERN FORMAT" of gitignore(5). The path is
/// counted from the folder of the file. A pattern without `/` is held against the path's last part; one that ends in `/`
/// fits no file; one with a set that is not closed, or with a `\` that quotes nothing, fits nothing.
///
/// Each piece of the pattern goes over the text once, with one mark for each place in it, and asks for each byte whether the
/// piece may take it, so the steps are no more than the length of the pattern times one more than that of the text.
pub fn matches(alloc: Global, pattern: &[u8], path: &[u8]) -> Result<bool, AllocError>
    ensures { IfOk result (λ b. IsTrue b ↔ Matches pattern.now path.now) }
{
    if ends_in_slash(pattern) {
        return Ok(false);
    }
    match letters_of(alloc, without_slash(pattern))? {
        None => Ok(false),
        Some(letters) => fits(alloc, letters.as_slice(), looked_at(pattern, path)),
    }
}
