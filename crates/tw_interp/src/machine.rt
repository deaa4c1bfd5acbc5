//! The state of a program while a function runs.
ghost use Rattle.std.specs.Prelude.{◌≡◌, ◌≢◌, IfNone, IfSome, Some, option_map};
ghost use Rattle.tw_types.specs.FromCode.{value_of};
ghost use Rattle.tw_types.specs.Values.{Value};
ghost use Rattle.tw_state.specs.FromCode.{cell_of};
ghost use Rattle.tw_state.specs.States.{Free, Live, cell_at, with_cell};
ghost use Rattle.tw_interp.specs.Machines.{cells_of};

use crate::frame::Frame;
use std::mem::replace;
use tw_state::Cell;
use tw_types::{TargetId, Val};

/// Memory, and the variables of the function that runs.
#[derive(Drop)]
pub struct Machine {
    /// The address of the first free block, or 0.
    pub free: u32,
    /// The cells of blocks 1, 2 and so on.
    pub cells: Vec<Cell>,
    pub frame: Frame,
}

/// Puts a cell in the place of that of a block, and gives that cell. `None` if there is no such block, and then nothing changes.
pub fn replace_cell(cells: &mut Vec<Cell>, block: u32, cell: Cell) -> Option<Cell>
    ensures old { option_map cell_of result ≡ cell_at (cells_of cells.old.items) block }
    ensures new { cells_of cells.new.items ≡ with_cell (cells_of cells.old.items) block (cell_of cell) }
{
    if block == 0 {
        return None;
    }
    let place = (block - 1) as usize;
    if place < cells.len() {
        Some(replace(&mut cells[place], cell))
    } else {
        None
    }
}

/// Frees the cell of a block that is live with a target, and gives its value. `None` if it is not.
pub fn free_cell(cells: &mut Vec<Cell>, block: u32, target: TargetId, next: u32) -> Option<Val>
    ensures live { IfSome result (λ val. cell_at (cells_of cells.old.items) block ≡ Some (Live target.0 (value_of val))) }
    ensures free { cells_of cells.new.items ≡ with_cell (cells_of cells.old.items) block (Free next) }
    ensures not_live { IfNone result ((value : Value) → cell_at (cells_of cells.old.items) block ≢ Some (Live target.0 value)) }
{
    let Some(cell) = replace_cell(cells, block, Cell::Free(next)) else {
        return None;
    };
    let Cell::Live(found, content) = cell else {
        return None;
    };
    if found.0 != target.0 {
        return None;
    }
    Some(content)
}
