//! `compile`: the gate file of the entry of a program. Functions of some statements are compiled so far.
ghost use Rattle.std.specs.Prelude.{◌≡◌, ◌≤◌, length, IfOk};
ghost use Rattle.std.specs.List.{AllByRecursion};
ghost use Rattle.tw_text.specs.declared.limits.TheConstants.{INPUT_LIMIT};
ghost use Rattle.tw_gate.specs.Gates.{directed};
ghost use Rattle.tw_gatetext.specs.Text.{HasFewControls};
ghost use Rattle.tw_gatetext.specs.Files.{plain_file};
ghost use Rattle.tw_resolve.specs.Resolved.{resolved_setting};
ghost use Rattle.tw_frames.specs.declared.measured.Measured.{Measured};
ghost use Rattle.tw_frames.specs.Measures.{IsMeasured};
ghost use Rattle.tower.specs.Given.{file_request};
ghost use Rattle.tower.specs.CircuitEntries.{IsPricedWithin};
ghost use Rattle.tower.specs.Compile.{CompileAnswer, IsFileOf};
ghost use Rattle.tower.specs.Sources.{SourceAnswer};
ghost use Rattle.tower.specs.Ending.{Did};

use crate::ending::Unanswered;
use crate::entry::{PricedEntry, priced_entry};
use crate::gathering::gates_of;
use crate::request::Options;
use bumpalo::Bump;
use std::alloc::{AllocError, Global};
use tw_gate::{GateList, Level};
use tw_gatetext::{GateFile, write_gate_file};
use tw_io::Sink;
use tw_lower::lower;
use tw_text::Arena;

/// Inverts a list of gates if the flag is set.
fn direct(gates: &mut GateList, inverse: bool)
    ensures { gates.new ≡ directed inverse gates.old }
{
    if inverse {
        tw_gate::invert(gates);
    }
}

/// The gate file of an entry, or the inverse file. An error: out of memory.
fn file_of(
    alloc: Global,
    arena: &Arena,
    found: &PricedEntry<'_>,
    inverse: bool,
) -> Result<GateFile, AllocError>
    requires { IsPricedWithin (resolved_setting found.now.checked.resolved) found.now.entry found.now.priced }
    ensures file { IfOk result (λ file. (measured : Measured) → IsMeasured (resolved_setting found.now.checked.resolved) found.now.entry measured → IsFileOf (resolved_setting found.now.checked.resolved) found.now.entry measured inverse (plain_file file)) }
    ensures few { IfOk result (λ file. AllByRecursion HasFewControls file.gates) }
{
    let code = lower(
        alloc,
        arena,
        &found.checked,
        found.entry,
        &found.priced.layout,
    )?;
    let mut gates = gates_of(alloc, code, found.priced.most_controls)?;
    direct(&mut gates, inverse);
    Ok(GateFile {
        level: Level::Mcx,
        wires: found.priced.layout.wires,
        t_count: found.priced.t_count,
        gates,
    })
}

/// Writes the gate file of the entry of the program whose source the bytes are, or its inverse. The header lines are one piece, and so
/// is each line after them.
pub fn compile<K: Sink>(
    alloc: Global,
    options: &Options<'_>,
    bytes: &[u8],
    output: &mut K,
) -> Result<(), Unanswered>
    requires { length bytes.now ≤ INPUT_LIMIT }
    ensures { Did K.taken K.faults output.old output.new result (SourceAnswer bytes.now (CompileAnswer (file_request options.now))) }
{
    let arena: Arena = Bump::new(alloc);
    let found = priced_entry(alloc, &arena, options, bytes)?;
    let file = file_of(alloc, &arena, &found, options.inverse)?;
    write_gate_file(output, &file)?;
    Ok(())
}
