//! What is left of a text that an editor gave back.

ghost use Rattle.std.specs.Prelude.{◌≡◌, IfOk};
ghost use Rattle.message_text.specs.Cleaned.{is_comment, cleaned};

use crate::lines::{lines_of, push_line, without_end_blanks};
use std::alloc::{AllocError, Global};

fn is_comment(line: &[u8]) -> bool
    ensures { result ≡ is_comment line.now }
{
    matches!(line, [b'#', ..])
}

/// A text without lines that begin with `#`, without spaces and tabs at a line's end and without empty lines at its front and end,
/// with one empty line in place of several, and with a line feed after each line, as `git stripspace --strip-comments` leaves it
/// (git-stripspace(1)). No line gives the empty text.
#[tactic(auto, using(crate::proofs::CleanLemmas::clean_steps))]
pub fn clean(alloc: Global, text: &[u8]) -> Result<Vec<u8>, AllocError>
    ensures { IfOk result (λ clean. clean.items ≡ cleaned text.now) }
{
    let mut kept = Vec::new(alloc);
    let mut after_empty = false;
    for line in lines_of(text) {
        if !is_comment(line) {
            let line = without_end_blanks(line);
            if line.is_empty() {
                after_empty = true;
            } else {
                if after_empty && !kept.is_empty() {
                    kept.push(b'\n')?;
                }
                push_line(&mut kept, line)?;
                after_empty = false;
            }
        }
    }
    Ok(kept)
}
