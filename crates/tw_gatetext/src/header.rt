//! The header lines of a gate file.
ghost use Rattle.std.specs.Prelude.{◌≡◌, ℕ, ◌≤◌, ◌<◌, ◌^◌, ◌++◌, [], List, codes, decimal, Err, IfSome, IfOk, IfErr};
ghost use Rattle.std.specs.Option.{IfNone};
ghost use Rattle.tw_gate.specs.declared.gate.Level.{Level};
ghost use Rattle.tw_text.specs.Limits.{limit_of};
ghost use Rattle.tw_text.specs.declared.limits.TheConstants.{WIRES_LIMIT, LINES_LIMIT};
ghost use Rattle.tw_gatetext.specs.Text.{level_word};
ghost use Rattle.tw_gatetext.specs.Numerals.{IsNumeral};
ghost use Rattle.tw_gatetext.specs.Lines.{AtVersion, AtLevel, AtWires, AtGates, AtTCount, InBody, StepsTo, Reaches};
ghost use Rattle.tw_gatetext.specs.Refused.{IsWrong, IsRefusedText};
ghost use Rattle.tw_gatetext.specs.Reading.{limit_seen, head_seen, IsRefusedLine, IsTried};
ghost use Rattle.tw_gatetext.specs.declared.file.GateFault.{GateFault};

use crate::file::GateFault;
use crate::line_fault::{NumberLimit, refused_line};
use crate::numbers::{number_line, numeral_line};
use tw_gate::Level;
use tw_text::{Counted, after};

/// The values of the header lines.
#[derive(Debug, Clone, Copy)]
pub struct Header<'b> {
    /// The level of the file: which kinds of gates it may have.
    pub level: Level,
    /// The number of its wires, at least 1.
    pub wires: u32,
    /// The number of gate lines.
    pub gates: u32,
    /// The digits of the T-count.
    pub t_count: &'b [u8],
}

const WIRES: NumberLimit = NumberLimit {
    word: b"wires ",
    what: Counted::Wires,
};

const GATES: NumberLimit = NumberLimit {
    word: b"gates ",
    what: Counted::Lines,
};

fn version_line(bytes: &[u8]) -> Option<&[u8]>
    ensures some { IfSome result (λ rest. StepsTo AtVersion bytes.now AtLevel rest.now) }
    ensures none { IfNone result (IsWrong AtVersion bytes.now) }
{
    after(bytes, b"tower-gates 1\n")
}

/// The level whose keyword is the rest of a line, and the bytes after the line.
fn level_word(bytes: &[u8]) -> Option<(Level, &[u8])>
    ensures some { IfSome result (λ read. bytes.now ≡ level_word read.0 ++ (codes "\n" ++ read.1.now)) }
    ensures none { IfNone result ((level : Level) (rest : List ℕ) → ¬ (bytes.now ≡ level_word level ++ (codes "\n" ++ rest))) }
{
    if let Some(rest) = after(bytes, b"mcx\n") {
        return Some((Level::Mcx, rest));
    }
    if let Some(rest) = after(bytes, b"tof\n") {
        return Some((Level::Tof, rest));
    }
    let rest = after(bytes, b"t\n")?;
    Some((Level::T, rest))
}

fn level_line(bytes: &[u8]) -> Option<(Level, &[u8])>
    ensures some { IfSome result (λ read. StepsTo AtLevel bytes.now (AtWires read.0) read.1.now) }
    ensures none { IfNone result (IsWrong AtLevel bytes.now) }
{
    level_word(after(bytes, b"level ")?)
}

/// The number on a line of a keyword and a number, from `least` to the limit, and the bytes after the line.
fn counted_number<'b>(limit: &NumberLimit, least: u64, bytes: &'b [u8]) -> Option<(u32, &'b [u8])>
    requires { limit_of limit.now.what ≤ 2 ^ 31 }
    ensures some { IfSome result (λ read. (bytes.now ≡ limit.now.word.now ++ (decimal read.0 ++ (codes "\n" ++ read.1.now))) × (least ≤ read.0) × (read.0 ≤ limit_of limit.now.what)) }
    ensures none { IfNone result ((n : ℕ) (rest : List ℕ) → least ≤ n → n ≤ limit_of limit.now.what → ¬ (bytes.now ≡ limit.now.word.now ++ (decimal n ++ (codes "\n" ++ rest)))) }
{
    let behind = after(bytes, limit.word)?;
    let (number, rest) = number_line(behind)?;
    if least <= number && number <= limit.what.limit() {
        Some((number as u32, rest))
    } else {
        None
    }
}

fn wires_line(bytes: &[u8]) -> Result<(u32, &[u8]), GateFault>
    ensures right { IfOk result (λ read. (level : Level) → StepsTo (AtWires level) bytes.now (AtGates level read.0) read.1.now) }
    ensures within { IfOk result (λ read. (1 ≤ read.0) × (read.0 ≤ WIRES_LIMIT)) }
    ensures refused { IfErr result (λ why. (level : Level) → IsRefusedLine (AtWires level) bytes.now 3 why) }
{
    match counted_number(&WIRES, 1, bytes) {
        Some((wires, rest)) => Ok((wires, rest)),
        None => Err(refused_line(&WIRES, 3, bytes)),
    }
}

fn gates_line(bytes: &[u8]) -> Result<(u32, &[u8]), GateFault>
    ensures right { IfOk result (λ read. (level : Level) (wires : ℕ) → StepsTo (AtGates level wires) bytes.now (AtTCount level wires read.0) read.1.now) }
    ensures within { IfOk result (λ read. read.0 ≤ LINES_LIMIT) }
    ensures refused { IfErr result (λ why. (level : Level) (wires : ℕ) → IsRefusedLine (AtGates level wires) bytes.now 4 why) }
{
    match counted_number(&GATES, 0, bytes) {
        Some((gates, rest)) => Ok((gates, rest)),
        None => Err(refused_line(&GATES, 4, bytes)),
    }
}

/// The digits of the T-count, and the bytes after the line.
fn t_count_line(bytes: &[u8]) -> Option<(&[u8], &[u8])>
    ensures some { IfSome result (λ read. (level : Level) (wires gates : ℕ) → StepsTo (AtTCount level wires gates) bytes.now (InBody (record { level = level; wires = wires; gates = gates; t_count = read.0.now }) []) read.1.now) }
    ensures none { IfNone result ((level : Level) (wires gates : ℕ) → IsWrong (AtTCount level wires gates) bytes.now) }
{
    numeral_line(after(bytes, b"t-count ")?)
}

/// Reads the five header lines. Returns their values, and the bytes after them.
pub fn read_header(bytes: &[u8]) -> Result<(Header<'_>, &[u8]), GateFault>
    ensures read { IfOk result (λ read. Reaches bytes.now 5 (InBody (head_seen read.0) []) read.1.now) }
    ensures within { IfOk result (λ read. (1 ≤ read.0.wires) × (read.0.wires ≤ WIRES_LIMIT) × (read.0.gates ≤ LINES_LIMIT)) }
    ensures refused { IfErr result (λ why. IsRefusedText bytes.now why) }
{
    let Some(rest) = version_line(bytes) else {
        return Err(GateFault::BadGateText { line: 1 });
    };
    let Some((level, rest)) = level_line(rest) else {
        return Err(GateFault::BadGateText { line: 2 });
    };
    let (wires, rest) = wires_line(rest)?;
    let (gates, rest) = gates_line(rest)?;
    let Some((t_count, rest)) = t_count_line(rest) else {
        return Err(GateFault::BadGateText { line: 5 });
    };
    let header = Header {
        level,
        wires,
        gates,
        t_count,
    };
    Ok((header, rest))
}
