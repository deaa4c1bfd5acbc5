//! Operands, loaded into regions that are 0.
ghost use Rattle.std.specs.Prelude.{◌≡◌, ◌+◌, ◌≤◌, length, IfOk};
ghost use Rattle.tw_code.specs.Trees.{code_tree, sequence};
ghost use Rattle.tw_arith.specs.Operands.{plain, EndsWithin, HasWidth};
ghost use Rattle.tw_arith.specs.Circuits.{copies, flips, copy_tree, pair_tree};

use crate::operand::Operand;
use bumpalo::collections::into_bump_slice;
use std::alloc::AllocError;
use tw_code::{Code, flip, sequence};
use tw_text::Arena;

/// Each wire of a region XORed into the wire at the same place of another one. An error: the arena is out of memory.
fn copies<'a>(arena: &'a Arena, from: u32, to: u32, count: u32) -> Result<Code<'a>, AllocError>
    requires from { EndsWithin from count }
    requires to { EndsWithin to count }
    ensures { IfOk result (λ code. code_tree code ≡ sequence (copies from to count)) }
{
    let mut parts = Vec::new(arena);
    for i in 0..count {
        parts.push(flip(arena, &[from + i], to + i)?)?;
    }
    Ok(sequence(into_bump_slice(parts)))
}

/// The wires at the places of the bits that are 1, flipped. An error: the arena is out of memory.
fn flips<'a>(arena: &'a Arena, to: u32, bits: &[bool]) -> Result<Code<'a>, AllocError>
    requires { EndsWithin to (length bits.now) }
    ensures { IfOk result (λ code. code_tree code ≡ sequence (flips to bits.now)) }
{
    let mut parts = Vec::new(arena);
    let mut wire = to;
    for bit in bits {
        if *bit {
            parts.push(flip(arena, &[], wire)?)?;
        }
        wire += 1;
    }
    Ok(sequence(into_bump_slice(parts)))
}

/// An operand, XORed into a region. An error: the arena is out of memory.
pub fn load<'a>(
    arena: &'a Arena,
    x: Operand<'a>,
    to: u32,
    width: u32,
) -> Result<Code<'a>, AllocError>
    requires x { HasWidth (plain x) width }
    requires to { EndsWithin to width }
    ensures { IfOk result (λ code. code_tree code ≡ copy_tree (plain x.entry) to width) }
{
    match x {
        Operand::Wires(from) => copies(arena, from, to, width),
        Operand::Fixed(bits) => flips(arena, to, bits),
    }
}

/// Two operands, XORed into two regions, one after the other. An error: the arena is out of memory.
pub fn load_both<'a>(
    arena: &'a Arena,
    x: Operand<'a>,
    y: Operand<'a>,
    to: u32,
    left: u32,
    right: u32,
) -> Result<Code<'a>, AllocError>
    requires x { HasWidth (plain x) left }
    requires y { HasWidth (plain y) right }
    requires to { EndsWithin to (left + right) }
    ensures { IfOk result (λ code. code_tree code ≡ pair_tree (plain x.entry) (plain y.entry) to left right) }
{
    let first = load(arena, x, to, left)?;
    let second = load(arena, y, to + left, right)?;
    Ok(sequence(arena.try_alloc_slice_copy(&[first, second])?))
}
