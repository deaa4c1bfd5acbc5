//! The state of a list of words.
ghost use Rattle.std.specs.Prelude.{◌≡◌, ◌<◌, ◌≤◌, ◌+◌, ◌-◌, ◌^◌, ◌++◌, suc, length, map, IfOk, IfErr, OnOk};
ghost use Rattle.std.specs.List.{AllByRecursion};
ghost use Rattle.tw_types.specs.Types.{block_count};
ghost use Rattle.tw_state.specs.FreeCells.{FormedAt};
ghost use Rattle.tw_state.specs.FromCode.{cell_of, listed_of};
ghost use Rattle.tw_state.specs.TypedLists.{IsTypedMemory};
ghost use Rattle.tw_ground.specs.Lists.{IsListFault, first_of, free_cells, item_cell, item_cells, list_state, list_targets};

use crate::ground_fault::GroundFault;
use std::alloc::{AllocError, Global};
use tw_state::{Cell, State};
use tw_types::{TargetId, Val, Widths, pair};

/// The address of the first of some blocks from one on, or null if there are none.
fn first_of(block: u32, count: usize) -> u32
    ensures { result ≡ first_of block count }
{
    if count == 0 { 0 } else { block }
}

/// The cell of an item, with the address of the next item, or null. An error: out of memory.
fn item_cell(alloc: Global, item: u64, next: u32) -> Result<Cell, AllocError>
    ensures { IfOk result (λ cell. cell_of cell ≡ item_cell item next) }
{
    let value = pair(alloc, Val::U(item), Val::Ptr(next))?;
    Ok(Cell::Live(TargetId(0), value))
}

/// Appends the cells of items, from block 1 on, each with the address of the next one.
fn push_items(alloc: Global, cells: &mut Vec<Cell>, items: &[u64]) -> Result<(), AllocError>
    requires few { length items.now < 256 }
    ensures cells { OnOk result (map cell_of cells.new.items ≡ map cell_of cells.old.items ++ item_cells 1 items.now) }
{
    for place in 0..items.len() {
        let next = first_of(place as u32 + 2, items.len() - place - 1);
        cells.push(item_cell(alloc, items[place], next)?)?;
    }
    Ok(())
}

/// Appends free cells for the blocks after this number of them, each with the address of the next one.
fn push_free(cells: &mut Vec<Cell>, used: usize, blocks: usize) -> Result<(), AllocError>
    requires few { used ≤ blocks }
    requires blocks { blocks < 256 }
    ensures cells { OnOk result (map cell_of cells.new.items ≡ map cell_of cells.old.items ++ free_cells (suc used) (blocks - used)) }
{
    for place in used..blocks {
        cells.push(Cell::Free(first_of(place as u32 + 2, blocks - place - 1)))?;
    }
    Ok(())
}

/// The state of a list that has no more items than there are blocks. An error: out of memory.
fn made_state(alloc: Global, widths: Widths, items: &[u64]) -> Result<State, AllocError>
    requires fits { length items.now ≤ block_count widths }
    ensures state { IfOk result (λ state. listed_of state ≡ list_state widths items.now) }
{
    let blocks = widths.block_count() as usize;
    let mut cells = Vec::new(alloc);
    push_items(alloc, &mut cells, items)?;
    push_free(&mut cells, items.len(), blocks)?;
    let mut store = Vec::new(alloc);
    store.push(Val::Ptr(first_of(1, items.len())))?;
    store.push(Val::U(0))?;
    Ok(State {
        free: first_of(items.len() as u32 + 1, blocks - items.len()),
        cells,
        store,
    })
}

/// The state of a list, for the program of [`Ground::List`](crate::Ground::List), at the start of `length`. Item `i`, counted from 1,
/// is in block `i` and has the address of the next one, the other blocks are free in rising order, the list is the address of block 1,
/// or null if there are no items, and the number to which the length is added is 0. Each item is below 2 to the width of a word. The
/// definition is `list_state` of `docs/DEFINITIONS-MEANING.md`.
///
/// - `TooMany`: there are more items than blocks. Does not allocate then.
/// - `Memory`: out of memory.
pub fn list_state(alloc: Global, widths: Widths, items: &[u64]) -> Result<State, GroundFault>
    requires words { AllByRecursion (λ item. item < 2 ^ widths.word) items.now }
    ensures state { IfOk result (λ state. listed_of state ≡ list_state widths items.now) }
    ensures fits { OnOk result (length items.now ≤ block_count widths) }
    ensures fault { IfErr result (IsListFault widths items.now) }
    ensures typed { IfOk result (λ state. IsTypedMemory widths list_targets (listed_of state)) }
    ensures formed { IfOk result (λ state. FormedAt widths (listed_of state)) }
{
    let blocks = widths.block_count() as usize;
    if items.len() > blocks {
        return Err(GroundFault::TooMany {
            found: items.len() as u64,
            limit: blocks as u64,
        });
    }
    Ok(made_state(alloc, widths, items)?)
}
