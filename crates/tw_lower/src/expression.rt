//! The code of expressions.
ghost use Rattle.std.specs.Prelude.{◌≡◌, ◌≤◌, IfOk};
ghost use Rattle.tw_code.specs.Trees.{code_tree};
ghost use Rattle.tw_syntax.specs.Terms.{ExprRhs, atom_tree, expr_tree};
ghost use Rattle.tw_arith.specs.Circuits.{and_tree, copy_tree, pair_tree};
ghost use Rattle.tw_arith.specs.Xors.{and_regions, copy_regions, pair_regions};
ghost use Rattle.tw_frames.specs.Found.{setting_of};
ghost use Rattle.tw_frames.specs.Sizes.{atom_size};
ghost use Rattle.tw_lower.specs.FrameWires.{plain_frame};
ghost use Rattle.tw_lower.specs.Lowering.{CanLowerRhs};
ghost use Rattle.tw_lower.specs.Operands.{AreUsable, IsExprCode, operand_of};

use crate::frame::FrameWires;
use crate::operand::operand;
use std::alloc::AllocError;
use tw_arith::{and_code, copy_code, pair_code};
use tw_code::Code;
use tw_frames::bits_of_atom;
use tw_syntax::{Atom, Expr, ExprKind, OpKind};
use tw_text::Arena;

/// The number of bits of an atom, which is the number of a wire.
fn width_of(frame: &FrameWires<'_, '_>, x: &Atom<'_>) -> u32
    requires { atom_size (setting_of frame.now.body) (plain_frame frame.now).types (atom_tree x.now) ≤ 4294967295 }
    ensures { result ≡ atom_size (setting_of frame.now.body) (plain_frame frame.now).types (atom_tree x.now) }
{
    bits_of_atom(&frame.body, x) as u32
}

/// The code of an atom. An error: the arena is out of memory.
fn lower_atom<'a>(
    arena: &'a Arena,
    frame: &FrameWires<'_, '_>,
    out: u32,
    x: &Atom<'_>,
) -> Result<&'a Code<'a>, AllocError>
    requires { AreUsable (copy_regions (operand_of (setting_of frame.now.body) (plain_frame frame.now) (atom_tree x.now)) out (atom_size (setting_of frame.now.body) (plain_frame frame.now).types (atom_tree x.now))) }
    ensures { IfOk result (λ code. code_tree code.now ≡ copy_tree (operand_of (setting_of frame.now.body) (plain_frame frame.now) (atom_tree x.now)) out (atom_size (setting_of frame.now.body) (plain_frame frame.now).types (atom_tree x.now))) }
{
    let width = width_of(frame, x);
    let x = operand(arena, frame, x, width)?;
    copy_code(arena, x, out, width)
}

/// The code of a pair. An error: the arena is out of memory.
fn lower_pair<'a>(
    arena: &'a Arena,
    frame: &FrameWires<'_, '_>,
    out: u32,
    x: &Atom<'_>,
    y: &Atom<'_>,
) -> Result<&'a Code<'a>, AllocError>
    requires { AreUsable (pair_regions (operand_of (setting_of frame.now.body) (plain_frame frame.now) (atom_tree x.now)) (operand_of (setting_of frame.now.body) (plain_frame frame.now) (atom_tree y.now)) out (atom_size (setting_of frame.now.body) (plain_frame frame.now).types (atom_tree x.now)) (atom_size (setting_of frame.now.body) (plain_frame frame.now).types (atom_tree y.now))) }
    ensures { IfOk result (λ code. code_tree code.now ≡ pair_tree (operand_of (setting_of frame.now.body) (plain_frame frame.now) (atom_tree x.now)) (operand_of (setting_of frame.now.body) (plain_frame frame.now) (atom_tree y.now)) out (atom_size (setting_of frame.now.body) (plain_frame frame.now).types (atom_tree x.now)) (atom_size (setting_of frame.now.body) (plain_frame frame.now).types (atom_tree y.now))) }
{
    let left = width_of(frame, x);
    let right = width_of(frame, y);
    let x = operand(arena, frame, x, left)?;
    let y = operand(arena, frame, y, right)?;
    pair_code(arena, x, y, out, left, right)
}

/// The code of a conjunction. An error: the arena is out of memory.
fn lower_and<'a>(
    arena: &'a Arena,
    frame: &FrameWires<'_, '_>,
    out: u32,
    x: &Atom<'_>,
    y: &Atom<'_>,
) -> Result<&'a Code<'a>, AllocError>
    requires { AreUsable (and_regions (operand_of (setting_of frame.now.body) (plain_frame frame.now) (atom_tree x.now)) (operand_of (setting_of frame.now.body) (plain_frame frame.now) (atom_tree y.now)) out frame.now.layout.scratch) }
    ensures { IfOk result (λ code. code_tree code.now ≡ and_tree (operand_of (setting_of frame.now.body) (plain_frame frame.now) (atom_tree x.now)) (operand_of (setting_of frame.now.body) (plain_frame frame.now) (atom_tree y.now)) out frame.now.layout.scratch) }
{
    let x = operand(arena, frame, x, 1)?;
    let y = operand(arena, frame, y, 1)?;
    and_code(arena, x, y, out, frame.layout.scratch, 1)
}

/// The code of an expression, which XORs its value into the wires from `out` on. The expression is compiled, and its regions are
/// apart. An error: the arena is out of memory.
pub fn lower_expr<'a>(
    arena: &'a Arena,
    frame: &FrameWires<'_, '_>,
    out: u32,
    expr: &Expr<'_>,
) -> Result<&'a Code<'a>, AllocError>
    requires { CanLowerRhs (setting_of frame.now.body) frame.now.layout (plain_frame frame.now) out (ExprRhs (expr_tree expr.now)) }
    ensures { IfOk result (λ code. IsExprCode (setting_of frame.now.body) (plain_frame frame.now) frame.now.layout.scratch out (expr_tree expr.now) (code_tree code.now)) }
{
    match &expr.kind {
        ExprKind::One(x) => lower_atom(arena, frame, out, x),
        ExprKind::Two(x, y) => lower_pair(arena, frame, out, x, y),
        ExprKind::Not(_) => unreachable!(),
        ExprKind::Op(operator, x, y) => match operator {
            OpKind::And => lower_and(arena, frame, out, x, y),
            _ => unreachable!(),
        },
    }
}
