//! The code of operations on truth values.
ghost use Rattle.std.specs.Prelude.{◌≡◌, ◌+◌, ◌<◌, ◌≤◌, IfOk};
ghost use Rattle.tw_code.specs.Trees.{code_tree};
ghost use Rattle.tw_arith.specs.Operands.{plain, EndsWithin, HasWidth};
ghost use Rattle.tw_arith.specs.Circuits.{and_tree};
ghost use Rattle.tw_code.specs.Rows.{and_rows};
ghost use Rattle.tw_arith.specs.Prices.{operand_load};
ghost use Rattle.tw_arith.specs.Xors.{Xors, AreApart, and_regions, and_value};

use crate::load::load_both;
use crate::operand::Operand;
use std::alloc::AllocError;
use tw_code::{Code, conjugated, flip};
use tw_text::Arena;

/// XORs the conjunction of two operands into the wire `out`. The width is 1, and the scratch has two wires, which are 0 before and
/// after. The wire of the result and the scratch are apart from each other and from the operands, and the scratch ends at or below
/// 4,294,967,295. An error: the arena is out of memory.
pub fn and_code<'a>(
    arena: &'a Arena,
    x: Operand<'a>,
    y: Operand<'a>,
    out: u32,
    scratch: u32,
    width: u32,
) -> Result<&'a Code<'a>, AllocError>
    requires width { width ≡ 1 }
    requires x { HasWidth (plain x) 1 }
    requires y { HasWidth (plain y) 1 }
    requires scratch { EndsWithin scratch 2 }
    requires apart { AreApart (and_regions (plain x) (plain y) out scratch) }
    ensures tree { IfOk result (λ code. code_tree code.now ≡ and_tree (plain x.entry) (plain y.entry) out scratch) }
    ensures xors { IfOk result (λ code. Xors (and_regions (plain x.entry) (plain y.entry) out scratch) and_value (and_rows (operand_load (plain x.entry) 1) (operand_load (plain y.entry) 1)) (code_tree code.now)) }
{
    let loads = load_both(arena, x, y, scratch, width, width)?;
    let work = flip(arena, &[scratch, scratch + 1], out)?;
    Ok(arena.try_alloc(conjugated(arena, loads, work)?)?)
}
