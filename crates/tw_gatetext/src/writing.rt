//! Writing gate files to a sink.
ghost use Rattle.std.specs.List.{AllByRecursion};
ghost use Rattle.tw_io.specs.Devices.{Wrote};
ghost use Rattle.tw_gate.specs.Gates.{plain};
ghost use Rattle.tw_gatetext.specs.Text.{line, lines, header, last_line, file_text, HasFewControls};
ghost use Rattle.tw_gatetext.specs.Files.{plain_file};

use crate::file::GateFile;
use crate::pieces;
use tw_gate::{Gate, GateList, Level};
use tw_io::{Sink, WriteFault, write_all};

/// Writes the five header lines as one piece: the version, the level, the numbers of wires and of gates, and the T-count.
///
/// At a fault the sink has taken a prefix of them.
pub fn write_header<K: Sink>(
    sink: &mut K,
    level: Level,
    wires: u32,
    gates: u64,
    t_count: u64,
) -> Result<(), WriteFault>
    ensures wrote { Wrote K.taken K.faults sink.old sink.new result (header level wires gates t_count) }
{
    let text = pieces::header(level, wires, gates, t_count);
    write_all(sink, text.as_str().as_bytes())
}

/// Writes the line of a gate as one piece. The number of its controls is within its limit.
///
/// At a fault the sink has taken a prefix of the line.
pub fn write_gate<K: Sink>(sink: &mut K, gate: &Gate) -> Result<(), WriteFault>
    requires { HasFewControls (plain gate.now) }
    ensures wrote { Wrote K.taken K.faults sink.old sink.new result (line (plain gate.now)) }
{
    let mut buffer = pieces::Line::new();
    write_line(sink, &mut buffer, gate)
}

/// Writes the line of a gate as one piece. What the buffer held is lost.
fn write_line<K: Sink>(
    sink: &mut K,
    buffer: &mut pieces::Line,
    gate: &Gate,
) -> Result<(), WriteFault>
    requires { HasFewControls (plain gate.now) }
    ensures wrote { Wrote K.taken K.faults sink.old sink.new result (line (plain gate.now)) }
{
    buffer.clear();
    pieces::push_line(buffer, gate);
    write_all(sink, buffer.as_str().as_bytes())
}

/// Writes the last line.
///
/// At a fault the sink has taken a prefix of it.
pub fn write_end<K: Sink>(sink: &mut K) -> Result<(), WriteFault>
    ensures wrote { Wrote K.taken K.faults sink.old sink.new result last_line }
{
    write_all(sink, b"end\n")
}

/// Writes the text of a file in memory. Its header counts its gates and gives its T-count as it is. The number of controls of
/// each gate is within its limit, and each line is one piece.
///
/// At a fault the sink has taken a prefix of the text.
pub fn write_gate_file<K: Sink>(sink: &mut K, file: &GateFile) -> Result<(), WriteFault>
    requires { AllByRecursion HasFewControls file.now.gates }
    ensures wrote { Wrote K.taken K.faults sink.old sink.new result (file_text (plain_file file.now)) }
{
    write_header(
        sink,
        file.level,
        file.wires,
        file.gates.len() as u64,
        file.t_count,
    )?;
    write_listed(sink, &file.gates)?;
    write_end(sink)
}

/// Writes the lines of the gates of a list.
fn write_listed<K: Sink>(sink: &mut K, gates: &GateList) -> Result<(), WriteFault>
    requires { AllByRecursion HasFewControls gates.now }
    ensures wrote { Wrote K.taken K.faults sink.old sink.new result (lines gates.now) }
{
    let mut buffer = pieces::Line::new();
    for place in 0..gates.len() {
        write_line(sink, &mut buffer, &gates.gate(place))?;
    }
    Ok(())
}
