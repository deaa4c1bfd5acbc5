//! `invert`: the inverse of a gate file.
ghost use Rattle.std.specs.Prelude.{◌≡◌, ◌≤◌, ◌+◌, length};
ghost use Rattle.tw_text.specs.declared.limits.TheConstants.{INPUT_LIMIT, LINES_LIMIT};
ghost use Rattle.tower.specs.GateInputs.{GatesAnswer};
ghost use Rattle.tower.specs.Invert.{InvertAnswer};
ghost use Rattle.tower.specs.Ending.{Did};

use crate::ending::Unanswered;
use std::alloc::Global;
use tw_gatetext::{read_text, write_inverse};
use tw_io::Sink;
use tw_text::Diagnostic;

/// The refusal of an input that continues after a gate file of this number of gates.
pub fn wrong_after(gates: u32) -> Unanswered
    requires { gates ≤ LINES_LIMIT }
    ensures { result ≡ Unanswered.Refused (Diagnostic.BadGateText (gates + 7)) }
{
    Unanswered::Refused(Diagnostic::BadGateText { line: gates + 7 })
}

/// Writes the inverse of the gate file that the bytes are. The lines are copied from the bytes; no list of the gates is kept.
pub fn invert<K: Sink>(alloc: Global, bytes: &[u8], output: &mut K) -> Result<(), Unanswered>
    requires { length bytes.now ≤ INPUT_LIMIT }
    ensures { Did K.taken K.faults output.old output.new result (GatesAnswer bytes.now InvertAnswer) }
{
    let text = read_text(bytes)?;
    if text.rest.is_empty() {
        write_inverse(alloc, output, &text)?;
        Ok(())
    } else {
        Err(wrong_after(text.gates))
    }
}
