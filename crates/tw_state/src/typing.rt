//! Whether states are typed on a side of an entry.
ghost use Rattle.std.specs.Prelude.{◌≡◌, ◌<◌, ◌≤◌, map, take, length, slice_get, Some, Decides};
ghost use Rattle.std.specs.List.{AllByRecursion};
ghost use Rattle.tw_syntax.specs.Programs.{fun_tree, program_tree};
ghost use Rattle.tw_types.specs.FromCode.{value_of};
ghost use Rattle.tw_resolve.specs.Declarations.{funs_of};
ghost use Rattle.tw_resolve.specs.Resolved.{resolved_setting, type_at};
ghost use Rattle.tw_check.specs.EntryPoints.{IsEntry};
ghost use Rattle.tw_state.specs.FromCode.{cell_of, listed_of};
ghost use Rattle.tw_state.specs.Listed.{HaveTypes, names_at_end};
ghost use Rattle.tw_state.specs.Results.{Fits};
ghost use Rattle.tw_state.specs.Steps.{fun_types};
ghost use Rattle.tw_state.specs.TypedLists.{IsCell, IsTypedEntry, IsTypedMemory};

use crate::names::{name_at, name_count};
use crate::state::{Cell, Side, State};
use tw_check::{Checked, Entry};
use tw_syntax::Fun;
use tw_types::{Targets, Val, Widths, has_type};

/// Whether a free cell links to a block or to null, and a live one has a target of the program and a value of the type that this
/// denotes.
fn cell_typed(cell: &Cell, targets: &Targets, widths: Widths) -> bool
    ensures { Decides result (IsCell widths targets.now (cell_of cell.now)) }
{
    match cell {
        Cell::Free(next) => *next <= widths.block_count(),
        Cell::Live(target, val) => {
            target.0 < targets.len() && has_type(val, &targets.ty(*target), widths)
        }
    }
}

/// Whether all cells are those of a program.
fn cells_typed(cells: &[Cell], targets: &Targets, widths: Widths) -> bool
    ensures { Decides result (AllByRecursion (IsCell widths targets.now) (map cell_of cells.now)) }
{
    for cell in cells {
        if !cell_typed(cell, targets, widths) {
            return false;
        }
    }
    true
}

/// Whether the memory of a state is typed: it has a cell for each block, its head is a block or null, and all cells are those of a
/// program.
fn memory_typed(state: &State, targets: &Targets, widths: Widths) -> bool
    ensures { Decides result (IsTypedMemory widths targets.now (listed_of state.now)) }
{
    let blocks = widths.block_count();
    if state.free > blocks || state.cells.len() != blocks as usize {
        return false;
    }
    cells_typed(&state.cells, targets, widths)
}

/// Whether a value has the type of a variable of a function.
fn value_typed(val: &Val, checked: &Checked, number: usize, name: &str) -> bool
    requires { number < length (funs_of (program_tree checked.now.resolved.program.now).decls) }
    ensures { Decides result (Fits checked.now.resolved.tables.types.widths (type_at (resolved_setting checked.now.resolved) number name.now) (Some (value_of val.now))) }
{
    match checked.resolved.type_of(number, name) {
        Some(ty) => has_type(val, &ty, checked.resolved.widths()),
        None => false,
    }
}

/// Whether values have the types of the names of an entry, in order. There are as many names.
fn values_typed(values: &[Val], checked: &Checked, number: usize, fun: &Fun) -> bool
    requires function { slice_get (funs_of (program_tree checked.now.resolved.program.now).decls) number ≡ Some (fun_tree fun.now) }
    requires counted { length values.now ≤ length (names_at_end (fun_tree fun.now)) }
    ensures { Decides result (HaveTypes checked.now.resolved.tables.types.widths (fun_types (resolved_setting checked.now.resolved) (fun_tree fun.now))
        (take (length values.now) (names_at_end (fun_tree fun.now))) (map value_of values.now)) }
{
    for place in 0..values.len() {
        if !value_typed(&values[place], checked, number, name_at(fun, place)) {
            return false;
        }
    }
    true
}

/// Whether a state is typed on a side of an entry: it has a cell for each block, its addresses are those of blocks or null, each live
/// cell has a target of the program and a value of the type that this denotes, and the values are those of the entry's names, each
/// of its type. The entry fits the program.
pub fn typed(state: &State, checked: &Checked, entry: Entry, side: Side) -> bool
    requires entry { IsEntry (funs_of (program_tree checked.now.resolved.program.now).decls) entry }
    ensures { Decides result (IsTypedEntry (resolved_setting checked.now.resolved) entry.fun side (listed_of state.now)) }
{
    let fun = checked.resolved.fun_at(entry.fun);
    if state.store.len() != name_count(fun, side) {
        return false;
    }
    if !memory_typed(state, checked.resolved.targets(), checked.resolved.widths()) {
        return false;
    }
    values_typed(&state.store, checked, entry.fun, fun)
}
