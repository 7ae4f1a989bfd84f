//! Standard output.

use seq_disk::StdoutSink;
use seq_outside::{Sink, SinkError};
use std::io::{self, Write};

/// Takes one byte at a time, until it is full.
#[derive(Drop)]
struct Drip {
    room: usize,
}

impl Write for Drip {
    fn write(&mut self, piece: &[u8]) -> io::Result<usize> {
        if self.room == 0 || piece.is_empty() {
            return Ok(0);
        }
        self.room -= 1;
        Ok(1)
    }

    fn flush(&mut self) -> io::Result<()> {
        Ok(())
    }
}

#[test]
fn writes_whole_pieces(rt: HostRuntime) {
    let mut sink = StdoutSink::new(Drip { room: 3 });
    assert_eq!(rt; sink.write(b"abc"), Ok(()));
    assert_eq!(rt; sink.write(b""), Ok(()));
    assert_eq!(rt; sink.write(b"d"), Err(SinkError::Failed));
}
