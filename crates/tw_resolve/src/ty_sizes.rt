//! The sizes of types.
ghost use Rattle.std.specs.Prelude.{◌≡◌};
ghost use Rattle.tw_types.specs.Types.{depth, extent};
ghost use Rattle.tw_types.specs.FromCode.{ty_of};
ghost use Rattle.tw_resolve.specs.Setting.{reported};
ghost use Rattle.tw_resolve.specs.Sizes.{IsSized};

use crate::sizes::SizedTy;
use tw_types::{Ty, Widths};

/// The depth of a type, or the greatest `u64` if it is greater.
fn depth_of(ty: &Ty) -> u64
    ensures { result ≡ reported (depth (ty_of ty.now)) }
{
    match ty {
        Ty::Unit => 1,
        Ty::Uint => 1,
        Ty::Bool => 1,
        Ty::Ptr(_) => 1,
        Ty::Pair(first, second) => {
            let left = depth_of(first);
            let right = depth_of(second);
            let deeper = if left < right { right } else { left };
            deeper.saturating_add(1)
        }
    }
}

/// The extent of a type, or the greatest `u64` if it is greater.
fn extent_of(ty: &Ty, widths: Widths) -> u64
    ensures { result ≡ reported (extent widths (ty_of ty.now)) }
{
    match ty {
        Ty::Unit => 1,
        Ty::Uint => u64::from(widths.word),
        Ty::Bool => 1,
        Ty::Ptr(_) => u64::from(widths.addr),
        Ty::Pair(first, second) => {
            extent_of(first, widths).saturating_add(extent_of(second, widths))
        }
    }
}

/// A type with its sizes.
pub fn sized<'a>(widths: Widths, ty: Ty<'a>) -> SizedTy<'a>
    ensures same { result.ty ≡ ty.entry }
    ensures sizes { IsSized widths result }
{
    SizedTy {
        ty,
        depth: depth_of(&ty),
        extent: extent_of(&ty, widths),
    }
}
