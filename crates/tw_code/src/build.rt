//! Code in an arena. The operands of a call are copied into the arena.
ghost use Rattle.std.specs.Prelude.{◌≡◌, map, IfOk};
ghost use Rattle.tw_code.specs.Trees.{FlipCode, IfCode, WithCode, ConjCode, code_tree, sequence};

use crate::code::Code;
use bumpalo::Bump;
use std::alloc::AllocError;

/// The X gate of these controls on this target. An error: the arena is out of memory.
pub fn flip<'a>(arena: &'a Bump, controls: &[u32], target: u32) -> Result<Code<'a>, AllocError>
    ensures { IfOk result (λ code. code_tree code ≡ FlipCode controls.now target) }
{
    Ok(Code::Flip {
        controls: arena.try_alloc_slice_copy(controls)?,
        target,
    })
}

/// These parts, in order.
#[tactic(auto, using(crate::proofs::Parts::tree_of_seq))]
pub fn sequence<'a>(parts: &'a [Code<'a>]) -> Code<'a>
    ensures { code_tree result ≡ sequence (map code_tree parts.now) }
{
    Code::Seq(parts)
}

/// The body if the wire is 1, and nothing if it is 0. An error: the arena is out of memory.
pub fn controlled<'a>(arena: &'a Bump, wire: u32, body: Code<'a>) -> Result<Code<'a>, AllocError>
    ensures { IfOk result (λ code. code_tree code ≡ IfCode wire (code_tree body.entry)) }
{
    Ok(Code::If(wire, arena.try_alloc(body)?))
}

/// A setup, the work after it, and the setup undone; the setup gets the controls that the work gets.
/// An error: the arena is out of memory.
pub fn with_setup<'a>(
    arena: &'a Bump,
    setup: Code<'a>,
    work: Code<'a>,
) -> Result<Code<'a>, AllocError>
    ensures { IfOk result (λ code. code_tree code ≡ WithCode (code_tree setup.entry) (code_tree work.entry)) }
{
    Ok(Code::With(arena.try_alloc(setup)?, arena.try_alloc(work)?))
}

/// A setup, the work after it, and the setup undone; the setup gets no controls. An error: the arena is out of memory.
pub fn conjugated<'a>(
    arena: &'a Bump,
    setup: Code<'a>,
    work: Code<'a>,
) -> Result<Code<'a>, AllocError>
    ensures { IfOk result (λ code. code_tree code ≡ ConjCode (code_tree setup.entry) (code_tree work.entry)) }
{
    Ok(Code::Conj(arena.try_alloc(setup)?, arena.try_alloc(work)?))
}
