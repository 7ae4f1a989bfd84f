//! Standard output.

ghost use Rattle.std.specs.Prelude.{[]};

use seq_outside::{Sink, SinkError};
use std::io::Write;

/// Prints to a writer, as standard output. It does not tell what was written.
#[derive(Drop)]
pub struct StdoutSink<W: Write> {
    out: W,
    faults: u64,
}

impl<W: Write> StdoutSink<W> {
    pub fn new(out: W) -> StdoutSink<W> {
        StdoutSink { out, faults: 0 }
    }
}

impl<W: Write> Sink for StdoutSink<W> {
    ghost told = { ⊥ };

    ghost bytes = { λ _. [] };

    ghost faults = { λ sink. sink.faults };

    fn write(&mut self, piece: &[u8]) -> Result<(), SinkError> {
        if piece.is_empty() {
            return Ok(());
        }
        match self.out.write_all(piece) {
            Ok(()) => Ok(()),
            Err(_) => {
                self.faults = self.faults.saturating_add(1);
                Err(SinkError::Failed)
            }
        }
    }
}
