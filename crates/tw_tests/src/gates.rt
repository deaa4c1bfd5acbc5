//! A taker that writes lines to a sink of which one write fails.
ghost use Rattle.std.specs.Prelude.{[], ◌∷◌};
ghost use Rattle.tw_io.specs.Devices.{Wrote};
ghost use Rattle.tw_gate.specs.Gates.{plain};
ghost use Rattle.tw_gate.specs.Taking.{Gave};
ghost use Rattle.tw_gatetext.specs.Text.{lines};
ghost use Rattle.tw_gatetext.specs.Taking.{FitsLine};

use std::alloc::AllocError;
use tw_gate::{Gate, GateOut, Stopped};
use tw_gatetext::LineOut;
use tw_io::{MemSink, Sink, WriteFault};

fn put_once<O: GateOut>(out: &mut O, gate: &Gate) -> Result<(), Stopped>
    requires { O.fits out.old (plain gate.now) }
    ensures { Gave O.took O.broke O.faults out.old out.new result (plain gate.now ∷ []) }
{
    out.put(gate)
}

/// Writes the line of a gate through a taker of gates.
fn write_taken<K: Sink>(sink: &mut K, gate: &Gate) -> Result<(), WriteFault>
    requires { FitsLine (plain gate.now) }
    ensures { Wrote K.taken K.faults sink.old sink.new result (lines (plain gate.now ∷ [])) }
{
    let mut out = LineOut::new(sink);
    match put_once(&mut out, gate) {
        Ok(()) => Ok(()),
        Err(Stopped) => Err(WriteFault),
    }
}

#[test]
fn a_taker_writes_lines(rt: HostRuntime) -> Result<(), AllocError> {
    let gate = Gate::X {
        controls: &[5, 6],
        target: 4,
    };
    let mut sink = MemSink::new(rt.alloc(), 1_000, vec![in rt.alloc(); 2]?)?;
    let written = [
        write_taken(&mut sink, &gate).is_ok(),
        write_taken(&mut sink, &Gate::H(1_048_575)).is_ok(),
        write_taken(&mut sink, &Gate::Tdg(0)).is_ok(),
    ];
    let wanted = ([true, false, true], b"ccx 5 6 4\ntdg 0\n".as_slice());
    assert_eq!(rt; (written, sink.taken()), wanted);
    Ok(())
}
