//! Renaming of blocks.
ghost use Rattle.std.specs.Prelude.{◌≡◌, false, length, map, replicate, IfOk};
ghost use Rattle.tw_types.specs.FromCode.{value_of};
ghost use Rattle.tw_state.specs.FromCode.{cell_of, listed_of};
ghost use Rattle.tw_state.specs.Renaming.{renamed_cell, renamed_value};
ghost use Rattle.tw_state.specs.Renamings.{ArePlaced, IsPermutation, IsRenamed, renumbered};

use crate::state::{Cell, State};
use std::alloc::{AllocError, Global};
use tw_types::{Val, pair};

/// The new address of a block. Null stays, and so does what is no block.
fn renumbered(perm: &[u32], block: u32) -> u32
    ensures { result ≡ renumbered perm.now block }
{
    if block == 0 || block as usize > perm.len() {
        return block;
    }
    perm[block as usize - 1]
}

/// A value with its addresses renamed. An error: out of memory.
fn renamed_value(alloc: Global, val: &Val, perm: &[u32]) -> Result<Val, AllocError>
    ensures { IfOk result (λ new. value_of new ≡ renamed_value (renumbered perm.now) (value_of val.now)) }
{
    match val {
        Val::Unit => Ok(Val::Unit),
        Val::U(n) => Ok(Val::U(*n)),
        Val::B(is) => Ok(Val::B(*is)),
        Val::Ptr(block) => Ok(Val::Ptr(renumbered(perm, *block))),
        Val::Pair(first, second) => {
            let first = renamed_value(alloc, first, perm)?;
            let second = renamed_value(alloc, second, perm)?;
            pair(alloc, first, second)
        }
    }
}

/// A cell with its addresses renamed. An error: out of memory.
fn renamed_cell(alloc: Global, cell: &Cell, perm: &[u32]) -> Result<Cell, AllocError>
    ensures { IfOk result (λ new. cell_of new ≡ renamed_cell (renumbered perm.now) (cell_of cell.now)) }
{
    match cell {
        Cell::Free(next) => Ok(Cell::Free(renumbered(perm, *next))),
        Cell::Live(target, val) => Ok(Cell::Live(*target, renamed_value(alloc, val, perm)?)),
    }
}

/// This number of free cells, without links. An error: out of memory.
fn free_cells(alloc: Global, count: usize) -> Result<Vec<Cell>, AllocError>
    ensures { IfOk result (λ cells. length cells.items ≡ count) }
{
    let mut cells = Vec::new(alloc);
    for _ in 0..count {
        cells.push(Cell::Free(0))?;
    }
    Ok(cells)
}

/// The cells of the blocks after a renaming: each is renamed, and has its new place. An error: out of memory.
fn renamed_cells(alloc: Global, cells: &[Cell], perm: &[u32]) -> Result<Vec<Cell>, AllocError>
    requires { IsPermutation (length cells.now) perm.now }
    ensures { IfOk result (λ new. ArePlaced perm.now (map cell_of cells.now) (length cells.now) (map cell_of new.items)) }
{
    let mut new = free_cells(alloc, cells.len())?;
    for place in 0..cells.len() {
        let cell = renamed_cell(alloc, &cells[place], perm)?;
        let block = perm[place] as usize;
        new[block - 1] = cell;
    }
    Ok(new)
}

/// Values with their addresses renamed. An error: out of memory.
fn renamed_values(alloc: Global, values: &[Val], perm: &[u32]) -> Result<Vec<Val>, AllocError>
    ensures { IfOk result (λ new. map value_of new.items ≡ map (renamed_value (renumbered perm.now)) (map value_of values.now)) }
{
    let mut new = Vec::new(alloc);
    for val in values {
        new.push(renamed_value(alloc, val, perm)?)?;
    }
    Ok(new)
}

/// A state with its blocks renamed: `perm` has the new number of each block in turn, and each number once. The head, the links, the
/// addresses in values and the places of the cells are renamed. Null stays. An error: out of memory.
pub fn rename(alloc: Global, state: &State, perm: &[u32]) -> Result<State, AllocError>
    requires { IsPermutation (length state.now.cells.items) perm.now }
    ensures { IfOk result (λ new. IsRenamed perm.now (listed_of state.now) (listed_of new)) }
{
    Ok(State {
        free: renumbered(perm, state.free),
        cells: renamed_cells(alloc, &state.cells, perm)?,
        store: renamed_values(alloc, &state.store, perm)?,
    })
}
