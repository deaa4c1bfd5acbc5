//! The lines of states at the start of bytes.
ghost use Rattle.std.specs.Prelude.{◌≡◌, ◌≤◌, ◌<◌, ◌++◌, ℕ, List, length, IfSome, IfOk};
ghost use Rattle.std.specs.Option.{IfNone};
ghost use Rattle.tw_types.specs.Types.{block_count};
ghost use Rattle.tw_types.specs.FromCode.{ty_of};
ghost use Rattle.tw_state.specs.StateText.{head_line};
ghost use Rattle.tw_state.specs.Reading.{IsNamedValue, IsCellLine, IsFreeText, IsLiveText};

use crate::number_text::{after_number, block_before};
use crate::state::Cell;
use crate::value_text::{after_both, read_value};
use std::alloc::{AllocError, Global};
use tw_text::after;
use tw_types::{TargetId, Targets, Ty, Val, Widths};

/// The free head in the line of a head, and the suffix after the line. `None` if the bytes do not begin with such a line.
pub fn read_head(bytes: &[u8], widths: Widths) -> Option<(u32, &[u8])>
    ensures some { IfSome result (λ read. (read.0 ≤ block_count widths) × (bytes.now ≡ head_line read.0 ++ read.1.now)) }
    ensures none { IfNone result ((head : ℕ) (rest : List ℕ) → head ≤ block_count widths → ¬ (bytes.now ≡ head_line head ++ rest)) }
{
    let behind = after(bytes, b"free ")?;
    let (head, rest) = block_before(behind, widths, b"\n")?;
    Some((head, rest))
}

/// The value of this type in the line of a name, and the suffix after the line. `None` if the bytes do not begin with such a line. An
/// error: out of memory.
pub fn named_value<'b>(
    alloc: Global,
    name: &str,
    ty: &Ty,
    widths: Widths,
    bytes: &'b [u8],
) -> Result<Option<(Val, &'b [u8])>, AllocError>
    ensures { IfOk result (λ found. IsNamedValue widths (ty_of ty.now) name.now bytes.now found) }
{
    let Some(behind) = after_both(bytes, name.as_bytes(), b" ") else {
        return Ok(None);
    };
    read_value(alloc, ty, widths, behind, b"\n")
}

/// A free cell by the line of its link, and the suffix after the line.
fn free_cell(bytes: &[u8], widths: Widths) -> Option<(Cell, &[u8])>
    ensures { IsFreeText widths bytes.now result }
{
    let (next, rest) = block_before(bytes, widths, b"\n")?;
    Some((Cell::Free(next), rest))
}

/// A live cell by its target and its value, and the suffix after the line. Each target is tried. An error: out of memory.
fn live_cell<'b>(
    alloc: Global,
    targets: &Targets,
    widths: Widths,
    bytes: &'b [u8],
) -> Result<Option<(Cell, &'b [u8])>, AllocError>
    ensures { IfOk result (λ found. IsLiveText widths targets.now bytes.now found) }
{
    for number in 0..targets.len() {
        let id = TargetId(number);
        let found = named_value(alloc, targets.written(id), &targets.ty(id), widths, bytes)?;
        if let Some((val, rest)) = found {
            return Ok(Some((Cell::Live(id, val), rest)));
        }
    }
    Ok(None)
}

/// The cell of a block by its line, and the suffix after the line. `None` if the bytes do not begin with such a line. An error: out of
/// memory.
pub fn read_cell<'b>(
    alloc: Global,
    targets: &Targets,
    widths: Widths,
    block: u32,
    bytes: &'b [u8],
) -> Result<Option<(Cell, &'b [u8])>, AllocError>
    ensures { IfOk result (λ found. IsCellLine widths targets.now block bytes.now found) }
{
    if let Some(behind) = after_number(bytes, block, b" free ") {
        return Ok(free_cell(behind, widths));
    }
    let Some(behind) = after_number(bytes, block, b" live ") else {
        return Ok(None);
    };
    live_cell(alloc, targets, widths, behind)
}
