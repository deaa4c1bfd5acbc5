//! The text of a state.
ghost use Rattle.std.specs.Prelude.{◌≡◌, ◌≤◌, ◌++◌, Some, decimal, length, map, slice_get};
ghost use Rattle.std.specs.List.{AllByRecursion};
ghost use Rattle.tw_io.specs.Devices.{Wrote};
ghost use Rattle.tw_syntax.specs.Programs.{fun_tree, program_tree};
ghost use Rattle.tw_types.specs.FromCode.{value_of};
ghost use Rattle.tw_resolve.specs.Declarations.{funs_of};
ghost use Rattle.tw_resolve.specs.Resolved.{resolved_setting};
ghost use Rattle.tw_check.specs.EntryPoints.{IsEntry};
ghost use Rattle.tw_state.specs.FromCode.{cell_of, listed_of};
ghost use Rattle.tw_state.specs.Listed.{names_at_end};
ghost use Rattle.tw_state.specs.StateText.{HasTarget, IsPrintableOn, WroteState, cell_line, cell_lines, name_line, name_lines, value_text};

use crate::names::name_at;
use crate::state::{Cell, Side, State};
use tw_check::{Checked, Entry};
use tw_io::{Sink, WriteFault, write_all, write_decimal};
use tw_syntax::Fun;
use tw_types::{Targets, Val};

/// Writes a number between two pieces.
fn write_number<K: Sink>(
    sink: &mut K,
    before: &str,
    number: u64,
    after: &str,
) -> Result<(), WriteFault>
    ensures wrote { Wrote K.taken K.faults sink.old sink.new result (before.now ++ (decimal number ++ after.now)) }
{
    write_all(sink, before.as_bytes())?;
    write_decimal(sink, number)?;
    write_all(sink, after.as_bytes())
}

/// Writes a value.
fn write_value<K: Sink>(sink: &mut K, val: &Val) -> Result<(), WriteFault>
    ensures wrote { Wrote K.taken K.faults sink.old sink.new result (value_text (value_of val.now)) }
{
    match val {
        Val::Unit => write_all(sink, b"()"),
        Val::U(number) => write_decimal(sink, *number),
        Val::B(true) => write_all(sink, b"true"),
        Val::B(false) => write_all(sink, b"false"),
        Val::Ptr(block) => write_number(sink, "@", u64::from(*block), ""),
        Val::Pair(first, second) => {
            write_all(sink, b"(")?;
            write_value(sink, first)?;
            write_all(sink, b", ")?;
            write_value(sink, second)?;
            write_all(sink, b")")
        }
    }
}

/// Writes a name or a target, and a value, and ends the line.
fn write_named<K: Sink>(sink: &mut K, name: &str, val: &Val) -> Result<(), WriteFault>
    ensures wrote { Wrote K.taken K.faults sink.old sink.new result (name_line name.now (value_of val.now)) }
{
    write_all(sink, name.as_bytes())?;
    write_all(sink, b" ")?;
    write_value(sink, val)?;
    write_all(sink, b"\n")
}

/// Writes the line of the cell of a block.
fn write_cell<K: Sink>(
    sink: &mut K,
    block: u64,
    cell: &Cell,
    targets: &Targets,
) -> Result<(), WriteFault>
    requires target { HasTarget targets.now (cell_of cell.now) }
    ensures wrote { Wrote K.taken K.faults sink.old sink.new result (cell_line targets.now block (cell_of cell.now)) }
{
    match cell {
        Cell::Free(next) => {
            write_number(sink, "", block, " free ")?;
            write_number(sink, "", u64::from(*next), "\n")
        }
        Cell::Live(target, val) => {
            write_number(sink, "", block, " live ")?;
            write_named(sink, targets.written(*target), val)
        }
    }
}

/// Writes the lines of cells, of block 1 and so on.
fn write_cells<K: Sink>(sink: &mut K, cells: &[Cell], targets: &Targets) -> Result<(), WriteFault>
    requires targets { AllByRecursion (HasTarget targets.now) (map cell_of cells.now) }
    ensures wrote { Wrote K.taken K.faults sink.old sink.new result (cell_lines targets.now 1 (map cell_of cells.now)) }
{
    for place in 0..cells.len() {
        write_cell(sink, place as u64 + 1, &cells[place], targets)?;
    }
    Ok(())
}

/// Writes the lines of values and their names, in the order of the names of an entry.
fn write_values<K: Sink>(sink: &mut K, values: &[Val], fun: &Fun) -> Result<(), WriteFault>
    requires counted { length values.now ≤ length (names_at_end (fun_tree fun.now)) }
    ensures wrote { Wrote K.taken K.faults sink.old sink.new result (name_lines (names_at_end (fun_tree fun.now)) (map value_of values.now)) }
{
    for place in 0..values.len() {
        write_named(sink, name_at(fun, place), &values[place])?;
    }
    Ok(())
}

/// Writes the text of a state on a side of an entry: its head, a line for each block, and a line for each of the entry's names. The
/// entry fits the program, and the state can be printed on this side, as each typed state can. Does not allocate. The text is
/// `state_text` of `docs/DEFINITIONS-MEANING.md`.
///
/// - `WriteFault`: a write failed, and the sink's error counter rose. The sink took a prefix of the text.
pub fn print_state<K: Sink>(
    state: &State,
    checked: &Checked,
    entry: Entry,
    side: Side,
    sink: &mut K,
) -> Result<(), WriteFault>
    requires entry { IsEntry (funs_of (program_tree checked.now.resolved.program.now).decls) entry }
    requires printable { IsPrintableOn (resolved_setting checked.now.resolved) entry.fun side (listed_of state.now) }
    ensures wrote { WroteState K.taken K.faults sink.old sink.new result (resolved_setting checked.now.resolved) entry.fun side (listed_of state.now) }
{
    let targets = checked.resolved.targets();
    let fun = checked.resolved.fun_at(entry.fun);
    write_number(sink, "free ", u64::from(state.free), "\n")?;
    write_cells(sink, &state.cells, targets)?;
    write_values(sink, &state.store, fun)
}
