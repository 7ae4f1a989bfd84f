//! What the checks of a start find.

use seq_base::Bytes;
use state_text::Control;

/// What the checks of a start find before its own children run.
#[derive(Drop)]
pub struct Checked {
    /// The control of the list, with its todo as it is generated.
    pub control: Control,
    /// The word that gave the upstream.
    pub upstream: Bytes,
    /// The word that gave the commit to rebase onto.
    pub onto_word: Bytes,
    /// The editor of the todo, where it is to be edited.
    pub editor: Option<Bytes>,
}
