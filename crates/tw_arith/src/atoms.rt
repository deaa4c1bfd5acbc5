//! The code of paths, constants and pairs.
ghost use Rattle.std.specs.Prelude.{◌≡◌, ◌+◌, ◌≤◌, IfOk};
ghost use Rattle.tw_code.specs.Trees.{code_tree};
ghost use Rattle.tw_arith.specs.Operands.{plain, EndsWithin, HasWidth};
ghost use Rattle.tw_arith.specs.Circuits.{copy_tree, pair_tree};
ghost use Rattle.tw_code.specs.Rows.{load_rows, pair_rows};
ghost use Rattle.tw_arith.specs.Prices.{operand_load};
ghost use Rattle.tw_arith.specs.Xors.{Xors, AreApart, copy_regions, pair_regions, copy_value, pair_value};

use crate::load::{load, load_both};
use crate::operand::Operand;
use std::alloc::AllocError;
use tw_code::Code;
use tw_text::Arena;

/// XORs an operand into the wires from `out` on. The wires of the result are apart from those of the operand, and all end at or
/// below 4,294,967,295. An operand of its own bits has as many as its width. An error: the arena is out of memory.
pub fn copy_code<'a>(
    arena: &'a Arena,
    x: Operand<'a>,
    out: u32,
    width: u32,
) -> Result<&'a Code<'a>, AllocError>
    requires x { HasWidth (plain x) width }
    requires out { EndsWithin out width }
    requires apart { AreApart (copy_regions (plain x) out width) }
    ensures tree { IfOk result (λ code. code_tree code.now ≡ copy_tree (plain x.entry) out width) }
    ensures xors { IfOk result (λ code. Xors (copy_regions (plain x.entry) out width) copy_value (load_rows (operand_load (plain x.entry) width)) (code_tree code.now)) }
{
    Ok(arena.try_alloc(load(arena, x, out, width)?)?)
}

/// XORs a constant into the wires from `out` on. It takes the same operands as `copy_code`, and its code is the same.
/// An error: the arena is out of memory.
pub fn constant_code<'a>(
    arena: &'a Arena,
    x: Operand<'a>,
    out: u32,
    width: u32,
) -> Result<&'a Code<'a>, AllocError>
    requires x { HasWidth (plain x) width }
    requires out { EndsWithin out width }
    requires apart { AreApart (copy_regions (plain x) out width) }
    ensures tree { IfOk result (λ code. code_tree code.now ≡ copy_tree (plain x.entry) out width) }
    ensures xors { IfOk result (λ code. Xors (copy_regions (plain x.entry) out width) copy_value (load_rows (operand_load (plain x.entry) width)) (code_tree code.now)) }
{
    copy_code(arena, x, out, width)
}

/// XORs a pair into the wires from `out` on, the left half first. The widths are those of the halves. The wires of the result are
/// apart from those of the operands, and all end at or below 4,294,967,295. An error: the arena is out of memory.
pub fn pair_code<'a>(
    arena: &'a Arena,
    x: Operand<'a>,
    y: Operand<'a>,
    out: u32,
    left: u32,
    right: u32,
) -> Result<&'a Code<'a>, AllocError>
    requires x { HasWidth (plain x) left }
    requires y { HasWidth (plain y) right }
    requires out { EndsWithin out (left + right) }
    requires apart { AreApart (pair_regions (plain x) (plain y) out left right) }
    ensures tree { IfOk result (λ code. code_tree code.now ≡ pair_tree (plain x.entry) (plain y.entry) out left right) }
    ensures xors { IfOk result (λ code. Xors (pair_regions (plain x.entry) (plain y.entry) out left right) pair_value (pair_rows (operand_load (plain x.entry) left) (operand_load (plain y.entry) right)) (code_tree code.now)) }
{
    Ok(arena.try_alloc(load_both(arena, x, y, out, left, right)?)?)
}
