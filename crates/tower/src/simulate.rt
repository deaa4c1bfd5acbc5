//! `sim`: the images of lines of bits under the X gates of a file.
ghost use Rattle.std.specs.Prelude.{◌≤◌, length, List, ℕ, IfSome};
ghost use Rattle.std.specs.Option.{IfNone};
ghost use Rattle.tw_text.specs.declared.limits.TheConstants.{INPUT_LIMIT};
ghost use Rattle.tw_gatetext.specs.Valid.{IsValid};
ghost use Rattle.tw_gatetext.specs.Files.{plain_file};
ghost use Rattle.tower.specs.GateInputs.{GatesAnswer};
ghost use Rattle.tower.specs.Simulate.{HasLines, LinesAnswer, SimulateAnswer};
ghost use Rattle.tower.specs.Ending.{Did};

use crate::ending::Unanswered;
use crate::invert::wrong_after;
use std::alloc::Global;
use tw_gate::Level;
use tw_gatetext::{GateFile, read_gates};
use tw_io::{Sink, write_all};
use tw_text::{Diagnostic, after};

/// The lines of bits after a gate file: those after a line `%%`. There are none if the input ends with the file or with `%%`.
/// `None` if something else follows the file.
fn lines_after(rest: &[u8]) -> Option<&[u8]>
    ensures some { IfSome result (λ lines. HasLines rest.now lines.now) }
    ensures none { IfNone result ((lines : List ℕ) → ¬ HasLines rest.now lines) }
{
    if rest.is_empty() {
        return Some(rest);
    }
    let marked = after(rest, b"%%")?;
    if marked.is_empty() {
        return Some(marked);
    }
    after(marked, b"\n")
}

/// Writes the image of each line of bits under the gates of a file.
fn answer_lines<K: Sink>(
    alloc: Global,
    file: &GateFile,
    lines: &[u8],
    output: &mut K,
) -> Result<(), Unanswered>
    requires { IsValid (plain_file file.now) }
    ensures { Did K.taken K.faults output.old output.new result (LinesAnswer (plain_file file.now) lines.now) }
{
    let text = tw_sim::simulate(alloc, &file.gates, file.wires as usize, lines)?;
    write_all(output, &text)?;
    Ok(())
}

/// Writes the answer to what follows a gate file.
fn answer_rest<K: Sink>(
    alloc: Global,
    file: &GateFile,
    rest: &[u8],
    output: &mut K,
) -> Result<(), Unanswered>
    requires { IsValid (plain_file file.now) }
    ensures { Did K.taken K.faults output.old output.new result (SimulateAnswer (plain_file file.now) rest.now) }
{
    if file.level == Level::T {
        return Err(Unanswered::Refused(Diagnostic::LevelT));
    }
    match lines_after(rest) {
        Some(lines) => answer_lines(alloc, file, lines, output),
        None => Err(wrong_after(file.gates.len() as u32)),
    }
}

/// Simulates the gate file that is a prefix of the bytes on the lines of bits after it. The text is composed in memory and
/// written as one piece.
pub fn simulate<K: Sink>(alloc: Global, bytes: &[u8], output: &mut K) -> Result<(), Unanswered>
    requires { length bytes.now ≤ INPUT_LIMIT }
    ensures { Did K.taken K.faults output.old output.new result (GatesAnswer bytes.now SimulateAnswer) }
{
    let (file, size) = read_gates(alloc, bytes)?;
    answer_rest(alloc, &file, &bytes[size..], output)
}
