//! Notes of a line.

ghost use Rattle.std.specs.Prelude.{◌≡◌};
ghost use Rattle.todo_text.specs.Words.{unmarked, note_of};

use crate::words::{from_word, trimmed};

fn unmarked(text: &[u8]) -> &[u8]
    ensures { result.now ≡ unmarked text.now }
{
    if text.starts_with(b"# ") {
        &text[2..]
    } else {
        text
    }
}

/// The note that a text is, without `# ` in front and without the blanks around.
#[tactic(auto, unfolding(crate::specs::Words::note_of))]
pub fn note_of(text: &[u8]) -> &[u8]
    ensures { result.now ≡ note_of text.now }
{
    trimmed(unmarked(from_word(text)))
}
