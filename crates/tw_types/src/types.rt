//! Types and their sizes.
ghost use Rattle.std.specs.Prelude.{◌≡◌, ◌≤◌};
ghost use Rattle.tw_types.specs.Types.{extent, same_ty, size};
ghost use Rattle.tw_types.specs.FromCode.{ty_of};

use crate::widths::Widths;

/// The greatest depth of a type: pairs are one deeper than their deeper half, and all other types have depth 1.
pub const TYPE_DEPTH_LIMIT: u32 = 64;

/// The greatest extent of a type: its size, but `()` counts 1.
pub const EXTENT_LIMIT: u32 = 4_096;

/// The number of a target of pointers: its place in the table of targets, from 0 on.
#[derive(Debug, Clone, Copy, PartialEq, Eq)]
pub struct TargetId(pub u32);

/// A type, with each name outside pointers expanded. A pointer has the number of its target, which keeps the target as written.
#[derive(Clone, Copy)]
pub enum Ty<'a> {
    /// `()`, of no bits.
    Unit,
    /// `uint`, a word.
    Uint,
    /// `bool`, one bit.
    Bool,
    /// `ptr<T>`, an address.
    Ptr(TargetId),
    /// `(T, U)`, the bits of the first half and then those of the second.
    Pair(&'a Ty<'a>, &'a Ty<'a>),
}

/// The number of bits of a type: the width of a word for `uint`, that of an address for a pointer, 1 for `bool`, 0 for `()`,
/// and the sum of both halves for a pair. The type's extent is at most [`EXTENT_LIMIT`].
#[tactic(auto, using(crate::proofs::Extents::size_le_extent))]
pub fn size_of(ty: &Ty, widths: Widths) -> u32
    requires within { extent widths (ty_of ty.now) ≤ 4096 }
    ensures { result ≡ size widths (ty_of ty.now) }
{
    match ty {
        Ty::Unit => 0,
        Ty::Uint => widths.word,
        Ty::Bool => 1,
        Ty::Ptr(_) => widths.addr,
        Ty::Pair(first, second) => size_of(first, widths) + size_of(second, widths),
    }
}

/// Whether two types are the same.
pub fn same_ty(x: &Ty, y: &Ty) -> bool
    ensures { result ≡ same_ty (ty_of x.now) (ty_of y.now) }
{
    match (x, y) {
        (Ty::Unit, Ty::Unit) => true,
        (Ty::Uint, Ty::Uint) => true,
        (Ty::Bool, Ty::Bool) => true,
        (Ty::Ptr(target), Ty::Ptr(other)) => target.0 == other.0,
        (Ty::Pair(first, second), Ty::Pair(other, last)) => {
            same_ty(first, other) && same_ty(second, last)
        }
        _ => false,
    }
}
