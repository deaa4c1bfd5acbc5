//! A sink as a taker of gates.
ghost use Rattle.std.specs.Prelude.{◌≡◌, [], ◌∷◌};
ghost use Rattle.tw_gate.specs.Gates.{plain};
ghost use Rattle.tw_gatetext.specs.Taking.{FitsLine, TookLines, BrokeLines};
ghost use Rattle.tw_gatetext.specs.TakingLaws.{lines_none, lines_both, lines_later, lines_longer};

use crate::writing::write_gate;
use tw_gate::{Gate, GateOut, Stopped};
use tw_io::{Sink, WriteFault};

/// Writes the line of each gate that it takes to a sink, as [`write_gate`] does. Does not allocate.
///
/// A gate fits if the numbers of its controls and of its wires are within their limits.
#[derive(Drop)]
pub struct LineOut<'k, K> {
    /// The sink that takes the lines; its fault counter is the taker's.
    pub sink: &'k mut K,
}

impl<'k, K: Sink> LineOut<'k, K> {
    /// The taker that writes to this sink.
    pub fn new(sink: &'k mut K) -> LineOut<'k, K>
        ensures same_sink { result.sink.ghost_name ≡ sink.entry.ghost_name }
        ensures unwritten { result.sink.now ≡ sink.old }
    {
        LineOut { sink }
    }
}

impl<'k, K: Sink> GateOut for LineOut<'k, K> {
    ghost took = { λ a b gates. TookLines K.taken a.sink b.sink gates };

    ghost broke = { λ a b gates. BrokeLines K.taken a.sink b.sink gates };

    ghost fits = { λ a gate. FitsLine gate };

    ghost faults = { λ a. K.faults a.sink.now };

    ghost took_none = { λ a. lines_none K.taken a.sink };

    ghost took_both = { λ a b c xs ys first second. lines_both K.taken a.sink b.sink c.sink xs ys first second };

    ghost broke_later = { λ a b c xs ys first second. lines_later K.taken a.sink b.sink c.sink xs ys first second };

    ghost broke_longer = { λ a b xs ys first. lines_longer K.taken a.sink b.sink xs ys first };

    ghost fits_stays = { λ a b xs gate taken. (λ fit. fit, λ fit. fit) };

    fn put(&mut self, gate: &Gate) -> Result<(), Stopped> {
        match write_gate(self.sink, gate) {
            Ok(()) => Ok(()),
            Err(WriteFault) => Err(Stopped),
        }
    }
}
