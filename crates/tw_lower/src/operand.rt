//! Atoms as operands.
ghost use Rattle.std.specs.Prelude.{◌≡◌, IfOk};
ghost use Rattle.tw_bits.specs.Numbers.{number_bits};
ghost use Rattle.tw_syntax.specs.Terms.{atom_tree};
ghost use Rattle.tw_arith.specs.Operands.{Fixed, HasWidth, plain};
ghost use Rattle.tw_frames.specs.Found.{setting_of};
ghost use Rattle.tw_lower.specs.FrameWires.{plain_frame};
ghost use Rattle.tw_lower.specs.Operands.{operand_of};

use crate::frame::FrameWires;
use bumpalo::collections::into_bump_slice;
use std::alloc::AllocError;
use tw_arith::Operand;
use tw_syntax::{Atom, AtomKind};
use tw_text::Arena;

/// A number as an operand of this many bits. An error: the arena is out of memory.
fn constant<'a>(arena: &'a Arena, number: u64, width: u32) -> Result<Operand<'a>, AllocError>
    ensures { IfOk result (λ x. plain x ≡ Fixed (number_bits width number)) }
{
    let mut bits = Vec::new(arena);
    let mut rest = number;
    for _ in 0..width {
        bits.push(rest % 2 == 1)?;
        rest /= 2;
    }
    Ok(Operand::Fixed(into_bump_slice(bits)))
}

/// An atom as an operand of this many bits: a path by its wires, and a constant by the bits of its value.
/// An error: the arena is out of memory.
pub fn operand<'a>(
    arena: &'a Arena,
    frame: &FrameWires<'_, '_>,
    atom: &Atom<'_>,
    width: u32,
) -> Result<Operand<'a>, AllocError>
    requires { HasWidth (operand_of (setting_of frame.now.body) (plain_frame frame.now) (atom_tree atom.now)) width }
    ensures { IfOk result (λ x. plain x ≡ operand_of (setting_of frame.now.body) (plain_frame frame.now) (atom_tree atom.now)) }
{
    match &atom.kind {
        AtomKind::Place(path) => Ok(Operand::Wires(frame.path_wire(path))),
        AtomKind::Number(number) => constant(arena, *number, width),
        AtomKind::True => constant(arena, 1, width),
        AtomKind::False => constant(arena, 0, width),
        AtomKind::Unit => constant(arena, 0, width),
        AtomKind::Null(_) => constant(arena, 0, width),
        AtomKind::Zero(_) => constant(arena, 0, width),
    }
}
