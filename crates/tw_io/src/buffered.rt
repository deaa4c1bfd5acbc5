//! A sink that gathers small pieces in a buffer in front of another sink.
ghost use Rattle.std.specs.Prelude.{◌≡◌, ◌+◌, ◌<◌, ◌≤◌, [], ◌++◌, length, take, drop, Ok, IfOk, OnOk, OnErr, vec_len, vec_capacity};
ghost use Rattle.tw_io.specs.Devices.{Appends, Rose};
ghost use Rattle.tw_io.specs.Buffer.{HandedOver, taken_with_pending};
ghost use Rattle.tw_io.specs.declared.device.TheConstants.{BUFFER_LEN};

use crate::device::{BUFFER_LEN, Failed, Sink, WriteFault};
use crate::writing::write_prefix;
use std::alloc::{AllocError, Global};
use std::marker::Model;

/// A sink in front of another sink. It gathers pieces in a buffer of `BUFFER_LEN` bytes, and hands the
/// buffer over whole: by a write that finds it full, and by `flush`. Bytes that are pending when it is
/// dropped are lost.
///
/// The error counter is that of the sink behind.
#[derive(Drop)]
pub struct BufferedSink<K> {
    sink: K,
    pending: Vec<u8>,
}

impl<K> Model for BufferedSink<K> {
    ghost use Rattle.std.specs.Prelude.{◌≤◌, vec_len, vec_capacity};
    ghost use Rattle.tw_io.specs.Buffer.{Buffered, buffered_code};
    ghost use Rattle.tw_io.specs.declared.device.TheConstants.{BUFFER_LEN};

    ghost Value = { Buffered K };

    ghost coded = { buffered_code K.code };

    ghost view = { λ s. record { sink = s.sink; pending = s.pending.items } };

    ghost invariant = { λ s. (vec_len s.pending ≤ BUFFER_LEN) × (BUFFER_LEN ≤ vec_capacity s.pending) };
}

impl<K: Sink> BufferedSink<K> {
    /// The sink in front of `sink`, with an empty buffer.
    ///
    /// - `AllocError`: out of memory for the buffer. `sink` is dropped.
    pub fn new(alloc: Global, sink: K) -> Result<BufferedSink<K>, AllocError>
    where
        K: Drop,
        ensures { IfOk result (λ buffered. buffered ≡ record { sink = sink; pending = [] }) }
    {
        Ok(BufferedSink {
            sink,
            pending: Vec::with_capacity(alloc, BUFFER_LEN)?,
        })
    }

    /// The sink behind the buffer. It has not taken the pending bytes.
    pub fn sink(&self) -> &K
        ensures { result.now ≡ self.now.sink }
    {
        &self.sink
    }

    /// Hands all pending bytes over. The error counter is unchanged.
    ///
    /// - `WriteFault`: a write failed, and the error counter rose. The sink behind took a proper prefix
    ///   of the pending bytes. The others are still pending.
    pub fn flush(&mut self) -> Result<(), WriteFault>
        ensures handed_over { HandedOver K.taken self.old self.new }
        ensures unchanged { taken_with_pending K.taken self.new ≡ taken_with_pending K.taken self.old }
        ensures whole { OnOk result (K.taken self.new.sink ≡ taken_with_pending K.taken self.old) }
        ensures emptied { OnOk result (self.new.pending ≡ []) }
        ensures unfinished { OnErr result (0 < length self.new.pending) }
        ensures cause { OnErr result (Rose (K.faults self.old.sink) (K.faults self.new.sink)) }
        ensures steady { OnOk result (K.faults self.new.sink ≡ K.faults self.old.sink) }
    {
        let count = write_prefix(&mut self.sink, &self.pending);
        let whole = count == self.pending.len();
        drop_prefix(&mut self.pending, count);
        if whole { Ok(()) } else { Err(WriteFault) }
    }
}

impl<K: Sink> Sink for BufferedSink<K> {
    ghost taken = { λ s. taken_with_pending K.taken s };

    ghost faults = { λ s. K.faults s.sink };

    /// Takes the whole piece if the buffer has room for it, without a call of the sink behind. If not,
    /// takes the prefix that there is room for. A full buffer is handed over first. If the buffer is
    /// empty, the sink behind gets a piece that is longer than the buffer.
    ///
    /// - `Failed`: the sink behind failed. Nothing of the piece was taken.
    fn write(&mut self, piece: &[u8]) -> Result<usize, Failed>
        requires { 0 < length piece.now }
        ensures some { IfOk result (λ n. 0 < n) }
        ensures within { IfOk result (λ n. n ≤ length piece.now) }
        ensures bytes { IfOk result
            (λ n. Appends (taken_with_pending K.taken self.old) (taken_with_pending K.taken self.new) (take n piece.now)) }
        ensures nothing { OnErr result (Appends (taken_with_pending K.taken self.old) (taken_with_pending K.taken self.new) []) }
        ensures cause { OnErr result (Rose (K.faults self.old.sink) (K.faults self.new.sink)) }
        ensures steady { OnOk result (K.faults self.new.sink ≡ K.faults self.old.sink) }
        ensures gathered { length self.old.pending + length piece.now ≤ BUFFER_LEN
            → (result ≡ Ok (length piece.now))
            × (self.new ≡ record { sink = self.old.sink; pending = self.old.pending ++ piece.now }) }
    {
        if self.pending.len() == BUFFER_LEN && self.flush().is_err() {
            return Err(Failed);
        }
        if self.pending.is_empty() && piece.len() > BUFFER_LEN {
            return self.sink.write(piece);
        }
        let count = piece.len().min(BUFFER_LEN - self.pending.len());
        match self.pending.extend_from_slice(&piece[..count]) {
            Ok(()) => Ok(count),
            Err(AllocError) => unreachable!(),
        }
    }
}

// Drops the first `count` bytes.
fn drop_prefix(bytes: &mut Vec<u8>, count: usize)
    requires { count ≤ vec_len bytes.old }
    ensures items { bytes.new.items ≡ drop count bytes.old.items }
    ensures capacity { vec_capacity bytes.new ≡ vec_capacity bytes.old }
{
    let len = bytes.len();
    bytes.copy_within(count..len, 0);
    bytes.truncate(len - count);
}
