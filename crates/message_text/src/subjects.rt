//! The subject of a message.

ghost use Rattle.std.specs.Prelude.{◌≡◌, IfOk};
ghost use Rattle.message_text.specs.Paragraphs.{subject};

use crate::lines::{lines_of, without_end_blanks};
use std::alloc::{AllocError, Global};

/// The subject of a message: empty lines are skipped, and the lines up to the next empty one are joined by a space, each without
/// the spaces and tabs at its end (git-commit(1), "Discussion").
#[tactic(auto, using(crate::proofs::SubjectLemmas::subject_steps))]
pub fn subject(alloc: Global, text: &[u8]) -> Result<Vec<u8>, AllocError>
    ensures { IfOk result (λ line. line.items ≡ subject text.now) }
{
    let mut joined = Vec::new(alloc);
    let mut has_begun = false;
    for line in lines_of(text) {
        if line.is_empty() {
            if has_begun {
                break;
            }
        } else {
            if has_begun {
                joined.push(b' ')?;
            }
            joined.extend_from_slice(without_end_blanks(line))?;
            has_begun = true;
        }
    }
    Ok(joined)
}
