//! The devices that bytes come from and go to, and the errors of calls on them.
ghost use Rattle.std.specs.Prelude.{◌≡◌, ℕ, ◌<◌, ◌≤◌, List, [], length, take, Option, IfOk, OnOk, OnErr};
ghost use Rattle.tw_io.specs.Devices.{Takes, IsAtEnd, Appends, Rose};

use thiserror::Error;

/// The bytes of a buffer in front of a device: the most that one read asks for, and that a sink gathers.
pub const BUFFER_LEN: usize = 65_536;

/// A device fault: one read or one write failed. The device's error counter counts the faults.
#[derive(Clone, Copy, Debug, Error)]
#[error("device fault")]
pub struct Failed;

/// A device fault of a sink while a text was written. The sink took a prefix of the text.
#[derive(Clone, Copy, Debug, Error)]
#[error("device fault while writing")]
pub struct WriteFault;

/// Why a source was not read to its end.
#[derive(Clone, Copy, Debug, Error)]
pub enum ReadError {
    /// A device fault of the source.
    #[error("device fault while reading")]
    ReadFault,
    /// The source has more bytes than the limit. `limit + 1` bytes were taken.
    #[error("input too long")]
    TooLong,
    /// Out of memory for the bytes.
    #[error("out of memory")]
    Memory,
}

/// A device that gives bytes in order.
///
/// `left` is the bytes that remain, or `None` if the device does not report them.
/// `faults` is the error counter: the number of failed reads. It saturates at the greatest `u64`.
pub trait Source {
    ghost left: { Self → Option (List ℕ) };

    ghost faults: { Self → ℕ };

    /// Fills a prefix of `buf` with the next bytes. Returns its length, which is 0 only at the end.
    /// The error counter is unchanged.
    ///
    /// - `Failed`: the device failed. It gave nothing, and its error counter rose.
    fn read(&mut self, buf: &mut [u8]) -> Result<usize, Failed>
        requires { 0 < length buf.old }
        ensures within { IfOk result (λ n. n ≤ length buf.new) }
        ensures bytes { IfOk result
            (λ n. Takes (left self.old) (left self.new) (take n buf.new)) }
        ensures end { IfOk result (λ n. n ≡ 0 → IsAtEnd (left self.new)) }
        ensures nothing { OnErr result (Takes (left self.old) (left self.new) []) }
        ensures cause { OnErr result (Rose (faults self.old) (faults self.new)) }
        ensures steady { OnOk result (faults self.new ≡ faults self.old) };
}

/// A device that takes bytes in order.
///
/// `taken` is the bytes that it took so far, or `None` if the device does not report them.
/// `faults` is the error counter: the number of failed writes. It saturates at the greatest `u64`.
pub trait Sink {
    ghost taken: { Self → Option (List ℕ) };

    ghost faults: { Self → ℕ };

    /// Takes a prefix of `piece`, of at least one byte. Returns its length. The error counter is
    /// unchanged.
    ///
    /// - `Failed`: the device failed. It took nothing, and its error counter rose.
    fn write(&mut self, piece: &[u8]) -> Result<usize, Failed>
        requires { 0 < length piece.now }
        ensures some { IfOk result (λ n. 0 < n) }
        ensures within { IfOk result (λ n. n ≤ length piece.now) }
        ensures bytes { IfOk result
            (λ n. Appends (taken self.old) (taken self.new) (take n piece.now)) }
        ensures nothing { OnErr result (Appends (taken self.old) (taken self.new) []) }
        ensures cause { OnErr result (Rose (faults self.old) (faults self.new)) }
        ensures steady { OnOk result (faults self.new ≡ faults self.old) };
}
