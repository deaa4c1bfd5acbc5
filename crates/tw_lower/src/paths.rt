//! Where the parts of values lie.
ghost use Rattle.std.specs.Prelude.{◌≡◌};
ghost use Rattle.tw_types.specs.FromCode.{ty_of};
ghost use Rattle.tw_resolve.specs.Setting.{reported};
ghost use Rattle.tw_lower.specs.Operands.{part_offset};

use tw_frames::bits_of;
use tw_types::{Ty, Widths};

/// The number of bits before the part that steps lead to, in a value of a type. Steps that lead to no half of a pair add nothing.
#[tactic(auto, using(crate::proofs::PartOffsets::unit_offset, crate::proofs::PartOffsets::word_offset, crate::proofs::PartOffsets::truth_offset, crate::proofs::PartOffsets::pointer_offset))]
pub fn part_offset(widths: Widths, steps: &[u8], ty: &Ty<'_>) -> u64
    ensures { result ≡ reported (part_offset widths steps.now (ty_of ty.now)) }
{
    match ty {
        Ty::Pair(first, second) => match steps {
            [1, rest @ ..] => part_offset(widths, rest, first),
            [2, rest @ ..] => {
                bits_of(first, widths).saturating_add(part_offset(widths, rest, second))
            }
            _ => 0,
        },
        Ty::Unit => 0,
        Ty::Uint => 0,
        Ty::Bool => 0,
        Ty::Ptr(_) => 0,
    }
}
