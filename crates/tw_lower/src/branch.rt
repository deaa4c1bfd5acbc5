//! The code of conditions.
ghost use Rattle.std.specs.Prelude.{◌≡◌, IfOk};
ghost use Rattle.tw_code.specs.Trees.{code_tree};
ghost use Rattle.tw_lower.specs.Lowering.{if_else_tree, if_tree};

use std::alloc::AllocError;
use tw_code::{Code, conjugated, controlled, flip, sequence};
use tw_text::Arena;

/// The code of an `if`: its condition is copied to a wire of its own, which controls the branch, and back.
/// An error: the arena is out of memory.
pub fn if_code<'a>(
    arena: &'a Arena,
    cond: u32,
    own: u32,
    taken: Code<'a>,
) -> Result<Code<'a>, AllocError>
    ensures { IfOk result (λ code. code_tree code ≡ if_tree cond own (code_tree taken.entry)) }
{
    let copy = flip(arena, &[cond], own)?;
    let first = controlled(arena, own, taken)?;
    let work = sequence(arena.try_alloc_slice_copy(&[first])?);
    conjugated(arena, copy, work)
}

/// The code of an `if` with an `else`: while this branch is under control, the wire of the `if` is flipped.
/// An error: the arena is out of memory.
pub fn if_else_code<'a>(
    arena: &'a Arena,
    cond: u32,
    own: u32,
    taken: Code<'a>,
    skipped: Code<'a>,
) -> Result<Code<'a>, AllocError>
    ensures { IfOk result (λ code. code_tree code ≡ if_else_tree cond own (code_tree taken.entry) (code_tree skipped.entry)) }
{
    let copy = flip(arena, &[cond], own)?;
    let first = controlled(arena, own, taken)?;
    let negated = flip(arena, &[], own)?;
    let other = controlled(arena, own, skipped)?;
    let second = conjugated(arena, negated, other)?;
    let work = sequence(arena.try_alloc_slice_copy(&[first, second])?);
    conjugated(arena, copy, work)
}
