//! Types as a program writes them.
ghost use Rattle.std.specs.Prelude.{◌≡◌, IfOk};
ghost use Rattle.tw_syntax.specs.Types.{written_tree, written_kind_tree};

use std::alloc::AllocError;
use tw_text::{Arena, Pos};

/// A written type, and the place of its first token.
#[derive(Clone, Copy)]
#[cycle(written)]
pub struct Written<'a> {
    pub at: Pos,
    pub kind: WrittenKind<'a>,
}

/// The forms of a written type.
#[derive(Clone, Copy)]
#[cycle(written)]
pub enum WrittenKind<'a> {
    Unit,
    Uint,
    Bool,
    Pair(&'a Written<'a>, &'a Written<'a>),
    Ptr(&'a Written<'a>),
    /// The name of an alias.
    Named(&'a str),
}

/// A written type in the arena. An error: the arena is out of memory.
pub fn build_written<'a>(
    arena: &'a Arena,
    at: Pos,
    kind: WrittenKind<'a>,
) -> Result<&'a Written<'a>, AllocError>
    ensures { IfOk result (λ x. written_tree x.now ≡ written_kind_tree at kind.entry) }
{
    Ok(arena.try_alloc(Written { at, kind })?)
}
