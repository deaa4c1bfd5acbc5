//! Sources and sinks of which one call fails, and a sink of another type.
ghost use Rattle.std.specs.Prelude.{Some};

use std::alloc::AllocError;
use tw_io::{Failed, MemSink, MemSource, ReadError, Sink, read_all, write_all, write_decimal};

/// A sink that takes at most three bytes of a piece at a time.
#[derive(Drop)]
struct PartSink {
    sink: MemSink,
}

impl Sink for PartSink {
    ghost taken = { λ s. Some s.sink.taken };

    ghost faults = { λ s. s.sink.faults };

    fn write(&mut self, piece: &[u8]) -> Result<usize, Failed> {
        let most = piece.len().min(3);
        self.sink.write(&piece[..most])
    }
}

// The third read fails: the bytes of the first two are lost, and the last one is left.
#[test]
fn a_failed_read_leaves_the_bytes_after_it(rt: HostRuntime) -> Result<(), AllocError> {
    let bytes = Vec::from_slice(rt.alloc(), b"12345")?;
    let mut source = MemSource::new(bytes, 2, vec![in rt.alloc(); 3]?);
    let first = read_all(rt.alloc(), &mut source, 100);
    let rest = read_all(rt.alloc(), &mut source, 100);
    let is_cut = matches!(first, Err(ReadError::ReadFault));
    assert!(rt; is_cut && rest.is_ok_and(|bytes| bytes.as_slice() == b"5".as_slice()));
    Ok(())
}

// The second write fails, and the room ends in the third.
#[test]
fn a_failed_write_leaves_the_room(rt: HostRuntime) -> Result<(), AllocError> {
    let mut sink = MemSink::new(rt.alloc(), 8, vec![in rt.alloc(); 2]?)?;
    let written = [
        write_all(&mut sink, b"n = ").is_ok(),
        write_all(&mut sink, b"lost").is_ok(),
        write_decimal(&mut sink, 123_456).is_ok(),
    ];
    let wanted = ([true, false, false], b"n = 1234".as_slice());
    assert_eq!(rt; (written, sink.taken()), wanted);
    Ok(())
}

#[test]
fn a_text_is_written_in_parts(rt: HostRuntime) -> Result<(), AllocError> {
    let mut parts = PartSink {
        sink: MemSink::new(rt.alloc(), 1_000, Vec::new(rt.alloc()))?,
    };
    let is_written = write_all(&mut parts, b"level mcx\n").is_ok();
    assert!(rt; is_written && parts.sink.taken() == b"level mcx\n".as_slice());
    Ok(())
}
