//! The chain of the free cells.
ghost use Rattle.std.specs.Prelude.{◌≡◌, count_by, map, Some, Decides};
ghost use Rattle.tw_state.specs.FreeCells.{EndsAfter, FormedAt, is_free, link_of, link_at};
ghost use Rattle.tw_state.specs.FromCode.{cell_of, listed_of};

use crate::state::{Cell, State};
use tw_types::Widths;

/// The link of a cell. `None` if it is live.
fn cell_link(cell: &Cell) -> Option<u32>
    ensures { result ≡ link_of (Some (cell_of cell.now)) }
{
    match cell {
        Cell::Free(next) => Some(*next),
        Cell::Live(..) => None,
    }
}

/// Whether a cell is free.
fn is_free(cell: &Cell) -> bool
    ensures { result ≡ is_free (cell_of cell.now) }
{
    matches!(cell, Cell::Free(_))
}

/// The number of free cells.
fn count_free(cells: &[Cell]) -> usize
    ensures { result ≡ count_by is_free (map cell_of cells.now) }
{
    let mut count = 0;
    for cell in cells {
        if is_free(cell) {
            count += 1;
        }
    }
    count
}

/// The link of the cell of a block. `None` if the block has no cell, or a live one.
fn link(cells: &[Cell], block: u32) -> Option<u32>
    ensures { result ≡ link_at (map cell_of cells.now) block }
{
    let block = block as usize;
    if block == 0 || block > cells.len() {
        return None;
    }
    cell_link(&cells[block - 1])
}

/// Whether the links from an address on pass this number of free cells and then end at 0.
fn ends_after(cells: &[Cell], address: u32, count: usize) -> bool
    ensures { Decides result (EndsAfter (map cell_of cells.now) address count) }
{
    let mut at = address;
    let mut left = count;
    while left > 0 {
        let Some(next) = link(cells, at) else {
            return false;
        };
        at = next;
        left -= 1;
    }
    at == 0
}

/// Whether a state has a cell for each block, and is well-formed: the links from its head pass each free cell once, pass no live
/// cell, and end at 0. Links that pass as many cells as are free, and then end, pass each of them once. Does not allocate.
pub fn well_formed(state: &State, widths: Widths) -> bool
    ensures { Decides result (FormedAt widths (listed_of state.now)) }
{
    state.cells.len() == widths.block_count() as usize
        && ends_after(&state.cells, state.free, count_free(&state.cells))
}
