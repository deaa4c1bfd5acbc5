//! Reading gate files.
ghost use Rattle.std.specs.Prelude.{◌≡◌, ◌≢◌, ◌⊎◌, ◌<◌, ◌≤◌, ◌+◌, ◌++◌, [], ◌∷◌, List, ℕ, Err, drop, length, IfSome, IfOk, IfErr};
ghost use Rattle.std.specs.Option.{IfNone};
ghost use Rattle.tw_gate.specs.Gates.{PlainGate, plain};
ghost use Rattle.tw_gate.specs.Weight.{gate_weight, t_count};
ghost use Rattle.tw_text.specs.declared.limits.TheConstants.{WIRES_LIMIT, LINES_LIMIT};
ghost use Rattle.tw_gatetext.specs.declared.gate_words.TheConstants.{MOST_NUMBERS};
ghost use Rattle.tw_gatetext.specs.Text.{File, last_line, file_text, HasFewControls};
ghost use Rattle.tw_gatetext.specs.Valid.{FitsLevel, FitsWires};
ghost use Rattle.tw_gatetext.specs.LineWords.{letters, numbers_of};
ghost use Rattle.tw_gatetext.specs.Lines.{Progress, InBody, Whole, Head, StepsTo, Reaches};
ghost use Rattle.tw_gatetext.specs.Reading.{head_seen, file_with, IsRefusedLine};
ghost use Rattle.tw_gatetext.specs.Files.{plain_file, BeginsWith};
ghost use Rattle.tw_gatetext.specs.Refused.{IsWrong, IsRefusedText};
ghost use Rattle.tw_gatetext.specs.declared.file.GateFault.{GateFault};
ghost use Rattle.tw_gatetext.specs.declared.file.GateFault.TheVariants as fault;

use crate::file::{GateFault, GateFile};
use crate::gate_fits::{fits_level, fits_wires};
use crate::gate_words::{MOST_NUMBERS, gate_of, line_words};
use crate::header::{Header, read_header};
use crate::line_fault::{NumberLimit, refused_line};
use itoa::Buffer;
use std::alloc::Global;
use tw_gate::{Gate, GateList, Level};
use tw_text::{Counted, after};

/// The limit on the controls of a gate.
const CONTROLS: NumberLimit = NumberLimit {
    word: b"mcx ",
    what: Counted::Controls,
};

/// The refusal of the line of this number, which is no right gate line.
pub fn refused_gate_line(level: Level, line: u32, bytes: &[u8]) -> GateFault
    ensures refused { (head : Head) (gates : List PlainGate) → head.level ≡ level → length gates < head.gates
        → ((next : Progress) (rest : List ℕ) → ¬ StepsTo (InBody head gates) bytes.now next rest) → IsRefusedLine (InBody head gates) bytes.now line result }
{
    match level {
        Level::Mcx => refused_line(&CONTROLS, line, bytes),
        Level::Tof | Level::T => GateFault::BadGateText { line },
    }
}

/// The gate of a line of this word and these numbers, if it fits a file with this header.
#[inline(always)]
pub fn right_gate<'n>(header: &Header, word: &[u8], numbers: &'n [u32]) -> Option<Gate<'n>>
    ensures some { IfSome result (λ gate. FitsLevel header.now.level (plain gate) × FitsWires header.now.wires (plain gate)
        × (word.now ≡ letters (plain gate)) × (numbers.now ≡ numbers_of (plain gate))) }
    ensures none { IfNone result ((gate : PlainGate) → FitsLevel header.now.level gate → FitsWires header.now.wires gate
        → word.now ≡ letters gate → ¬ (numbers.now ≡ numbers_of gate)) }
{
    let gate = gate_of(word, numbers)?;
    if fits_level(header.level, &gate) && fits_wires(header.wires, &gate) {
        Some(gate)
    } else {
        None
    }
}

/// Takes the gate line of this number: appends its gate to the list. Returns the T-count of the gate, and the bytes after the
/// line.
/// The buffer has room for as many numbers as a line can have; what it held is lost.
fn take_gate<'b>(
    header: &Header,
    line: u32,
    bytes: &'b [u8],
    numbers: &mut [u32],
    gates: &mut GateList,
) -> Result<(u64, &'b [u8]), GateFault>
    requires few_wires { header.now.wires ≤ WIRES_LIMIT }
    requires room { length numbers.old ≡ MOST_NUMBERS }
    requires more { length gates.old < header.now.gates }
    ensures room { length numbers.new ≡ MOST_NUMBERS }
    ensures right { IfOk result (λ taken. StepsTo (InBody (head_seen header.now) gates.old) bytes.now (InBody (head_seen header.now) gates.new) taken.1.now) }
    ensures taken { IfOk result (λ taken. (gate : PlainGate) × (gates.new ≡ gates.old ++ gate ∷ []) × (taken.0 ≡ gate_weight gate) × HasFewControls gate) }
    ensures refused { IfErr result (λ why. (why ≡ fault.Memory) ⊎ IsRefusedLine (InBody (head_seen header.now) gates.old) bytes.now line why) }
{
    let Some(words) = line_words(bytes, numbers) else {
        return Err(refused_gate_line(header.level, line, bytes));
    };
    let Some(gate) = right_gate(header, words.letters, &numbers[..words.count]) else {
        return Err(refused_gate_line(header.level, line, bytes));
    };
    match gates.push(&gate) {
        Ok(()) => Ok((gate.t_count(), words.rest)),
        Err(_) => Err(GateFault::Memory),
    }
}

/// The gates after a header, their T-count, and the bytes after their lines.
#[derive(Drop)]
struct Body<'b> {
    gates: GateList,
    t_count: u64,
    rest: &'b [u8],
}

/// Reads the gate lines after a header.
fn read_body<'b>(alloc: Global, header: &Header, bytes: &'b [u8]) -> Result<Body<'b>, GateFault>
    requires few_wires { header.now.wires ≤ WIRES_LIMIT }
    requires few_gates { header.now.gates ≤ LINES_LIMIT }
    ensures read { IfOk result (λ body. (all : List ℕ) → Reaches all 5 (InBody (head_seen header.now) []) bytes.now
        → Reaches all (5 + header.now.gates) (InBody (head_seen header.now) body.gates) body.rest.now) }
    ensures counted { IfOk result (λ body. (length body.gates ≡ header.now.gates) × (body.t_count ≡ t_count body.gates)) }
    ensures refused { IfErr result (λ why. (all : List ℕ) → Reaches all 5 (InBody (head_seen header.now) []) bytes.now
        → (why ≡ fault.Memory) ⊎ IsRefusedText all why) }
{
    let mut gates = GateList::new(alloc);
    let mut numbers = [0; MOST_NUMBERS];
    let mut t_count = 0;
    let mut rest = bytes;
    for lines in 0..header.gates {
        let (weight, behind) = take_gate(header, 6 + lines, rest, &mut numbers, &mut gates)?;
        t_count += weight;
        rest = behind;
    }
    Ok(Body {
        gates,
        t_count,
        rest,
    })
}

/// The bytes after the last line.
fn last_line(bytes: &[u8]) -> Option<&[u8]>
    ensures some { IfSome result (λ rest. (head : Head) (gates : List PlainGate) → length gates ≡ head.gates → StepsTo (InBody head gates) bytes.now (Whole head gates) rest.now) }
    ensures line { IfSome result (λ rest. bytes.now ≡ last_line ++ rest.now) }
    ensures none { IfNone result ((head : Head) (gates : List PlainGate) → length gates ≡ head.gates → IsWrong (InBody head gates) bytes.now) }
{
    after(bytes, b"end\n")
}

/// Reads the last line after the gate lines, and compares the T-count of the gates with the one of the header. Returns the bytes
/// after the file.
pub fn read_end<'b>(header: &Header, sum: u64, bytes: &'b [u8]) -> Result<&'b [u8], GateFault>
    requires { header.now.gates ≤ LINES_LIMIT }
    ensures file { IfOk result (λ rest. (all : List ℕ) (gates : List PlainGate) → Reaches all (5 + header.now.gates) (InBody (head_seen header.now) gates) bytes.now
        → length gates ≡ header.now.gates → sum ≡ t_count gates → BeginsWith all (file_with header.now sum gates) rest.now) }
    ensures line { IfOk result (λ rest. bytes.now ≡ last_line ++ rest.now) }
    ensures refused { IfErr result (λ why. (all : List ℕ) (gates : List PlainGate) → Reaches all (5 + header.now.gates) (InBody (head_seen header.now) gates) bytes.now
        → length gates ≡ header.now.gates → sum ≡ t_count gates → IsRefusedText all why) }
{
    let Some(rest) = last_line(bytes) else {
        return Err(GateFault::BadGateText {
            line: header.gates + 6,
        });
    };
    if header.t_count != Buffer::new().format(sum).as_bytes() {
        return Err(GateFault::BadGateText { line: 5 });
    }
    Ok(rest)
}

/// The gate file at the start of the bytes, and the bytes after it.
fn file_at(alloc: Global, bytes: &[u8]) -> Result<(GateFile, &[u8]), GateFault>
    ensures file { IfOk result (λ read. BeginsWith bytes.now (plain_file read.0) read.1.now) }
    ensures refused { IfErr result (λ why. (why ≡ fault.Memory) ⊎ IsRefusedText bytes.now why) }
{
    let (header, rest) = read_header(bytes)?;
    let body = read_body(alloc, &header, rest)?;
    let rest = read_end(&header, body.t_count, body.rest)?;
    let file = GateFile {
        level: header.level,
        wires: header.wires,
        t_count: body.t_count,
        gates: body.gates,
    };
    Ok((file, rest))
}

/// Reads the gate file at the start of the bytes: the file, and the number of bytes that it takes.
///
/// The errors: the first line that is wrong or missing; a limit that the number of wires, the number of gates or, at level mcx,
/// the number of controls passes; line 5, once all lines are read, if its T-count is not that of the gates; out of memory.
/// Nothing is copied but the gates. `docs/FORMATS.md` has the text and the order of its refusals.
pub fn read_gates(alloc: Global, bytes: &[u8]) -> Result<(GateFile, usize), GateFault>
    ensures file { IfOk result (λ read. BeginsWith bytes.now (plain_file read.0) (drop read.1 bytes.now)) }
    ensures size { IfOk result (λ read. read.1 ≡ length (file_text (plain_file read.0))) }
    ensures only { IfOk result (λ read. (other : File) (rest : List ℕ) → BeginsWith bytes.now other rest → other ≡ plain_file read.0) }
    ensures accepted { IfOk result (λ read. (why : GateFault) → ¬ IsRefusedText bytes.now why) }
    ensures refused { (why : GateFault) → result ≡ Err why → (why ≡ fault.Memory) ⊎ IsRefusedText bytes.now why }
    ensures no_file { (why : GateFault) → result ≡ Err why → why ≢ fault.Memory → (file : File) (rest : List ℕ) → ¬ BeginsWith bytes.now file rest }
    ensures one_refusal { (why : GateFault) → result ≡ Err why → why ≢ fault.Memory → (other : GateFault) → IsRefusedText bytes.now other → other ≡ why }
{
    let (file, rest) = file_at(alloc, bytes)?;
    Ok((file, bytes.len() - rest.len()))
}
