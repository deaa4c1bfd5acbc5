//! A sink that keeps all that it takes in memory.
ghost use Rattle.std.specs.Prelude.{◌≡◌, ◌<◌, ◌≤◌, [], length, take, Some, IfOk, OnOk, OnErr, is_err, if◌then◌else◌};
ghost use Rattle.tw_io.specs.Devices.{Appends, Rose, next_count};
ghost use Rattle.tw_io.specs.Memory.{VecView};

use crate::device::{Failed, Sink};
use std::alloc::{AllocError, Global};
use std::marker::Model;

/// A sink that grows with what it takes. A write fails if memory runs out; no clause says that it
/// fails only then.
#[derive(Drop)]
pub struct VecSink {
    bytes: Vec<u8>,
    faults: u64,
}

impl Model for VecSink {
    ghost Value = { VecView };

    ghost view = { λ s. record { taken = s.bytes.items; faults = s.faults } };
}

impl VecSink {
    /// The sink that has taken nothing. Does not allocate.
    pub fn new(alloc: Global) -> VecSink
        ensures { result ≡ record { taken = []; faults = 0 } }
    {
        VecSink {
            bytes: Vec::new(alloc),
            faults: 0,
        }
    }

    /// All the bytes that the sink took, in order.
    pub fn taken(&self) -> &[u8]
        ensures { result.now ≡ self.now.taken }
    {
        self.bytes.as_slice()
    }
}

impl Sink for VecSink {
    ghost taken = { λ s. Some s.taken };

    ghost faults = { λ s. s.faults };

    /// Takes the whole piece.
    ///
    /// - `Failed`: out of memory for the piece. Nothing was taken.
    fn write(&mut self, piece: &[u8]) -> Result<usize, Failed>
        requires { 0 < length piece.now }
        ensures some { IfOk result (λ n. 0 < n) }
        ensures within { IfOk result (λ n. n ≤ length piece.now) }
        ensures bytes { IfOk result
            (λ n. Appends (Some self.old.taken) (Some self.new.taken) (take n piece.now)) }
        ensures nothing { OnErr result (Appends (Some self.old.taken) (Some self.new.taken) []) }
        ensures cause { OnErr result (Rose self.old.faults self.new.faults) }
        ensures steady { OnOk result (self.new.faults ≡ self.old.faults) }
        ensures count { IfOk result (λ n. n ≡ length piece.now) }
        ensures state { self.new ≡ record {
          taken = self.new.taken;
          faults = (if is_err result then next_count self.old.faults else self.old.faults);
        } }
    {
        match self.bytes.extend_from_slice(piece) {
            Ok(()) => Ok(piece.len()),
            Err(AllocError) => {
                self.faults = self.faults.saturating_add(1);
                Err(Failed)
            }
        }
    }
}
