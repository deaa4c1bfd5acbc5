//! Types with their sizes.
ghost use Rattle.std.specs.Prelude.{◌≡◌, IfOk, OnOk};
ghost use Rattle.tw_types.specs.Types.{PairTy};
ghost use Rattle.tw_types.specs.FromCode.{ty_of};
ghost use Rattle.tw_resolve.specs.Sizes.{IsSized};

use std::alloc::AllocError;
use tw_text::Arena;
use tw_types::{Ty, Widths};

/// A type, its depth and its extent, each of which is at most the greatest `u64`.
#[derive(Clone, Copy)]
pub struct SizedTy<'a> {
    pub ty: Ty<'a>,
    pub depth: u64,
    pub extent: u64,
}

/// The pair of two types. An error: the arena is out of memory.
pub fn pair<'a>(
    widths: Widths,
    arena: &'a Arena,
    first: SizedTy<'a>,
    second: SizedTy<'a>,
) -> Result<SizedTy<'a>, AllocError>
    requires first { IsSized widths first }
    requires second { IsSized widths second }
    ensures pair { IfOk result (λ sized. ty_of sized.ty ≡ PairTy (ty_of first.entry.ty) (ty_of second.entry.ty)) }
    ensures sizes { IfOk result (IsSized widths) }
{
    let deeper = if first.depth < second.depth {
        second.depth
    } else {
        first.depth
    };
    let left = arena.try_alloc(first.ty)?;
    let right = arena.try_alloc(second.ty)?;
    Ok(SizedTy {
        ty: Ty::Pair(left, right),
        depth: deeper.saturating_add(1),
        extent: first.extent.saturating_add(second.extent),
    })
}
