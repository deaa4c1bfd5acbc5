//! Writing a whole text to a sink.
ghost use Rattle.std.specs.Prelude.{◌≡◌, ◌<◌, ◌≤◌, length, take, decimal, Ok, OnErr};
ghost use Rattle.tw_io.specs.Devices.{Appends, Rose, Wrote, AppendsProperPrefix};

use crate::device::{Failed, Sink, WriteFault};
use itoa::Buffer;

/// Writes all of `piece`. An empty piece makes no call of the sink. The error counter is unchanged.
///
/// - `WriteFault`: a write failed, and the sink's error counter rose. The sink took a proper prefix
///   of the piece.
pub fn write_all<K: Sink>(sink: &mut K, piece: &[u8]) -> Result<(), WriteFault>
    ensures wrote { Wrote K.taken K.faults sink.old sink.new result piece.now }
    ensures unfinished { OnErr result
        (AppendsProperPrefix (K.taken sink.old) (K.taken sink.new) piece.now) }
    ensures empty { length piece.now ≡ 0 → (result ≡ Ok tt) × (sink.new ≡ sink.old) }
{
    if write_prefix(sink, piece) == piece.len() {
        Ok(())
    } else {
        Err(WriteFault)
    }
}

/// Writes `piece` until the sink has taken all of it or a write fails. Returns the number of bytes that
/// the sink took. If these are not all, a write failed, and the sink's error counter rose.
pub(crate) fn write_prefix<K: Sink>(sink: &mut K, piece: &[u8]) -> usize
    ensures within { result ≤ length piece.now }
    ensures bytes { Appends (K.taken sink.old) (K.taken sink.new) (take result piece.now) }
    ensures cause { result < length piece.now → Rose (K.faults sink.old) (K.faults sink.new) }
    ensures steady { result ≡ length piece.now → K.faults sink.new ≡ K.faults sink.old }
    ensures empty { length piece.now ≡ 0 → sink.new ≡ sink.old }
{
    let mut done = 0;
    while done < piece.len() {
        match sink.write(&piece[done..]) {
            Ok(count) => done += count,
            Err(Failed) => return done,
        }
    }
    done
}

/// Writes `n` in decimal, without leading zeros, as one piece.
///
/// - `WriteFault`: as of `write_all`, with the digits as the piece.
pub fn write_decimal<K: Sink>(sink: &mut K, n: u64) -> Result<(), WriteFault>
    ensures wrote { Wrote K.taken K.faults sink.old sink.new result (decimal n) }
    ensures unfinished { OnErr result
        (AppendsProperPrefix (K.taken sink.old) (K.taken sink.new) (decimal n)) }
{
    write_all(sink, Buffer::new().format(n).as_bytes())
}
