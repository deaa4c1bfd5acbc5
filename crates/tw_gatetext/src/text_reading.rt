//! Reading the text of gate files, without a list of their gates.
ghost use Rattle.std.specs.Prelude.{◌≡◌, ◌<◌, ◌≤◌, ◌+◌, ◌++◌, [], ◌∷◌, List, ℕ, Err, length, IfOk, IfErr};
ghost use Rattle.tw_gate.specs.Gates.{PlainGate};
ghost use Rattle.tw_gate.specs.Weight.{gate_weight, t_count};
ghost use Rattle.tw_text.specs.declared.limits.TheConstants.{WIRES_LIMIT, LINES_LIMIT};
ghost use Rattle.tw_gatetext.specs.declared.gate_words.TheConstants.{MOST_NUMBERS};
ghost use Rattle.tw_gatetext.specs.Text.{File, HasFewControls};
ghost use Rattle.tw_gatetext.specs.Lines.{InBody, StepsTo, Reaches};
ghost use Rattle.tw_gatetext.specs.Reading.{head_seen, IsRefusedLine};
ghost use Rattle.tw_gatetext.specs.Files.{BeginsWith, IsTextOf};
ghost use Rattle.tw_gatetext.specs.Refused.{IsRefusedText};
ghost use Rattle.tw_gatetext.specs.declared.file.GateFault.{GateFault};

use crate::file::{FileText, GateFault};
use crate::gate_words::{MOST_NUMBERS, line_words};
use crate::header::{Header, read_header};
use crate::reading::{read_end, refused_gate_line, right_gate};

/// Checks the gate line of this number. Returns the T-count of its gate, and the bytes after the line.
/// The buffer has room for as many numbers as a line can have; what it held is lost.
fn pass_gate<'b>(
    header: &Header,
    line: u32,
    bytes: &'b [u8],
    numbers: &mut [u32],
) -> Result<(u64, &'b [u8]), GateFault>
    requires few_wires { header.now.wires ≤ WIRES_LIMIT }
    requires room { length numbers.old ≡ MOST_NUMBERS }
    ensures room { length numbers.new ≡ MOST_NUMBERS }
    ensures right { IfOk result (λ passed. (gate : PlainGate) × HasFewControls gate × (passed.0 ≡ gate_weight gate) × ((gates : List PlainGate) → length gates < header.now.gates
        → StepsTo (InBody (head_seen header.now) gates) bytes.now (InBody (head_seen header.now) (gates ++ gate ∷ [])) passed.1.now)) }
    ensures refused { IfErr result (λ why. (gates : List PlainGate) → length gates < header.now.gates → IsRefusedLine (InBody (head_seen header.now) gates) bytes.now line why) }
{
    let Some(words) = line_words(bytes, numbers) else {
        return Err(refused_gate_line(header.level, line, bytes));
    };
    let Some(gate) = right_gate(header, words.letters, &numbers[..words.count]) else {
        return Err(refused_gate_line(header.level, line, bytes));
    };
    Ok((gate.t_count(), words.rest))
}

/// Checks the gate lines after a header. Returns the T-count of their gates, and the bytes after them.
fn pass_body<'b>(header: &Header, bytes: &'b [u8]) -> Result<(u64, &'b [u8]), GateFault>
    requires few_wires { header.now.wires ≤ WIRES_LIMIT }
    requires few_gates { header.now.gates ≤ LINES_LIMIT }
    ensures passed { IfOk result (λ passed. (gates : List PlainGate) × (length gates ≡ header.now.gates) × (passed.0 ≡ t_count gates)
        × ((all : List ℕ) → Reaches all 5 (InBody (head_seen header.now) []) bytes.now → Reaches all (5 + header.now.gates) (InBody (head_seen header.now) gates) passed.1.now)) }
    ensures refused { IfErr result (λ why. (all : List ℕ) → Reaches all 5 (InBody (head_seen header.now) []) bytes.now → IsRefusedText all why) }
{
    let mut numbers = [0; MOST_NUMBERS];
    let mut sum = 0;
    let mut rest = bytes;
    for lines in 0..header.gates {
        let (weight, behind) = pass_gate(header, 6 + lines, rest, &mut numbers)?;
        sum += weight;
        rest = behind;
    }
    Ok((sum, rest))
}

/// Reads the gate file at the start of the bytes, and keeps no list of its gates: the parts of its text, and the bytes after it.
/// Does not allocate.
///
/// The errors are those of [`read_gates`](crate::read_gates), without out of memory.
pub fn read_text(bytes: &[u8]) -> Result<FileText<'_>, GateFault>
    ensures file { IfOk result (λ text. (file : File) × BeginsWith bytes.now file text.rest.now × IsTextOf text file) }
    ensures accepted { IfOk result (λ text. (why : GateFault) → ¬ IsRefusedText bytes.now why) }
    ensures refused { IfErr result (λ why. IsRefusedText bytes.now why) }
{
    let (header, behind) = read_header(bytes)?;
    let (sum, end) = pass_body(&header, behind)?;
    let rest = read_end(&header, sum, end)?;
    Ok(FileText {
        header: &bytes[..bytes.len() - behind.len()],
        lines: &behind[..behind.len() - end.len()],
        gates: header.gates,
        rest,
    })
}
