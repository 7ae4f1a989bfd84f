//! A start that was checked.

use seq_base::Bytes;
use state_text::Control;

/// A start that was checked: the control of a list of which no line is done, and the word that gave the commit to rebase onto.
#[derive(Drop)]
pub struct Planned {
    pub control: Control,
    pub onto_word: Bytes,
}
