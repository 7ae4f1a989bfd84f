//! A sink in memory.

use seq_memory::{MemSink, QuietSink};
use seq_outside::{Sink, SinkError};
use std::test::Fail;

#[test]
fn pieces_are_kept(rt: HostRuntime) -> Result<(), Fail> {
    let mut sink = QuietSink::new(rt.alloc())?;
    for piece in [b"done ".as_slice(), b"", b"unborn\n"] {
        assert!(rt; sink.write(piece) == Ok(()));
    }
    assert!(rt; sink.bytes() == b"done unborn\n".as_slice());
    Ok(())
}

// The second call with a piece that is not empty fails and takes nothing.
#[test]
fn a_write_fails(rt: HostRuntime) -> Result<(), Fail> {
    let mut sink = MemSink::new(rt.alloc(), &[2, 2])?;
    let rows: [(&[u8], bool); 5] = [
        (b"a", true),
        (b"", true),
        (b"b", false),
        (b"", true),
        (b"c", true),
    ];
    for (piece, is_taken) in rows {
        let wanted = if is_taken {
            Ok(())
        } else {
            Err(SinkError::Failed)
        };
        assert!(rt; sink.write(piece) == wanted);
    }
    assert!(rt; sink.bytes() == b"ac".as_slice());
    Ok(())
}
