//! A sink in memory that fails where it is told to.

ghost use Rattle.std.specs.Prelude.{◌≡◌, [], IfOk};

use seq_outside::{Sink, SinkError};
use std::alloc::{AllocError, Global};
use std::marker::Model;

/// Keeps what is written. Of its calls those fail that it was told, and a failing one takes nothing. Contracts see its bytes and how
/// often it has failed.
#[derive(Debug, Drop)]
pub struct MemSink {
    written: Vec<u8>,
    failing: Vec<u64>,
    calls: u64,
    faults: u64,
}

impl Model for MemSink {
    ghost use Rattle.seq_memory.specs.Sinks.{Printed};

    ghost Value = { Printed };

    ghost view = { λ sink. record { bytes = sink.written.items; faults = sink.faults } };
}

impl MemSink {
    /// The sink that fails in these calls, which are numbered from 1. A call with an empty piece does not count.
    pub fn new(alloc: Global, failing: &[u64]) -> Result<MemSink, AllocError>
        ensures { IfOk result (λ sink. sink ≡ record { bytes = []; faults = 0 }) }
    {
        let failing = Vec::from_slice(alloc, failing)?;
        Ok(MemSink {
            written: Vec::new(alloc),
            failing,
            calls: 0,
            faults: 0,
        })
    }

    /// What was written.
    pub fn bytes(&self) -> &[u8]
        ensures { result.now ≡ self.now.bytes }
    {
        &self.written
    }
}

impl Sink for MemSink {
    ghost told = { Unit {0} };

    ghost bytes = { λ sink. sink.bytes };

    ghost faults = { λ sink. sink.faults };

    fn write(&mut self, piece: &[u8]) -> Result<(), SinkError> {
        if piece.is_empty() {
            return Ok(());
        }
        self.calls = self.calls.saturating_add(1);
        if self.failing.contains(&self.calls) {
            self.faults = self.faults.saturating_add(1);
            return Err(SinkError::Failed);
        }
        match self.written.extend_from_slice(piece) {
            Ok(()) => Ok(()),
            Err(_) => Err(SinkError::Memory),
        }
    }
}
