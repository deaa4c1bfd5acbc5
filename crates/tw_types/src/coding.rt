//! Values in lists of bits: least bit first, and the first half of a pair before the second.
ghost use Rattle.std.specs.Prelude.{◌≡◌, ◌≤◌, ◌<◌, ◌+◌, ◌^◌, length, IfOk};
ghost use Rattle.tw_bits.specs.Numbers.{number_bits};
ghost use Rattle.tw_types.specs.Types.{size};
ghost use Rattle.tw_bits.specs.Writing.{taken, written};
ghost use Rattle.tw_types.specs.Values.{HasType, IsBijective, IsDecoded, value_bits};
ghost use Rattle.tw_types.specs.FromCode.{ty_of, value_of};

use crate::types::Ty;
use crate::values::{Val, pair};
use crate::widths::Widths;
use std::alloc::{AllocError, Global};
use tw_bits::Bits;

/// Writes a number into `len` bits from a place on, and returns the place after them.
fn put(bits: &mut Bits, at: usize, len: u32, n: u64) -> usize
    requires word { len ≤ 64 }
    requires within { at + len ≤ length bits.old }
    requires counted { length bits.old < 2 ^ 64 }
    requires fits { n < 2 ^ len }
    ensures next { result ≡ at + len }
    ensures bits { bits.new ≡ written at (number_bits len n) bits.old }
    ensures len { length bits.new ≡ length bits.old }
{
    bits.put_number(at, len, n);
    at + len as usize
}

/// Writes the bits of a value from a place on, and returns the place after them.
fn put_value(val: &Val, ty: &Ty, widths: Widths, bits: &mut Bits, at: usize) -> usize
    requires typed { HasType widths (value_of val.now) (ty_of ty.now) }
    requires within { at + size widths (ty_of ty.now) ≤ length bits.old }
    requires counted { length bits.old < 2 ^ 64 }
    ensures next { result ≡ at + size widths (ty_of ty.now) }
    ensures bits { bits.new ≡ written at (value_bits widths (value_of val.now)) bits.old }
    ensures len { length bits.new ≡ length bits.old }
{
    match (val, ty) {
        (Val::U(n), Ty::Uint) => put(bits, at, widths.word, *n),
        (Val::B(is), Ty::Bool) => put(bits, at, 1, u64::from(*is)),
        (Val::Ptr(block), Ty::Ptr(_)) => put(bits, at, widths.addr, u64::from(*block)),
        (Val::Pair(x, y), Ty::Pair(first, second)) => {
            let next = put_value(x, first, widths, bits, at);
            put_value(y, second, widths, bits, next)
        }
        // `()` has no bits, and no other value has the type.
        _ => at,
    }
}

/// Writes the bits of a value of a type from `at` on, and changes no other bit. A number or an address has its least bit first,
/// `true` is 1, and the first half of a pair comes before the second. The bits lie within the list. Does not allocate.
pub fn encode_into(val: &Val, ty: &Ty, widths: Widths, bits: &mut Bits, at: usize)
    requires typed { HasType widths (value_of val.now) (ty_of ty.now) }
    requires within { at + size widths (ty_of ty.now) ≤ length bits.old }
    ensures bits { bits.new ≡ written at (value_bits widths (value_of val.now)) bits.old }
    ensures len { length bits.new ≡ length bits.old }
{
    // The length is a `usize`, so no place overflows.
    prove!(at <= bits.len());
    put_value(val, ty, widths, bits, at);
}

/// The value of a type whose bits lie from a place on, and the place after them. An error: out of memory.
#[tactic(auto, using(crate::proofs::Encoding::one_taken, crate::proofs::Encoding::two_taken, crate::proofs::Encoding::address_within))]
fn value_at(
    alloc: Global,
    ty: &Ty,
    widths: Widths,
    bits: &Bits,
    at: usize,
) -> Result<(Val, usize), AllocError>
    requires within { at + size widths (ty_of ty.now) ≤ length bits.now }
    requires counted { length bits.now < 2 ^ 64 }
    ensures typed { IfOk result (λ found. HasType widths (value_of found.0) (ty_of ty.now)) }
    ensures bits { IfOk result (λ found. value_bits widths (value_of found.0) ≡ taken at (size widths (ty_of ty.now)) bits.now) }
    ensures next { IfOk result (λ found. found.1 ≡ at + size widths (ty_of ty.now)) }
{
    match ty {
        Ty::Unit => Ok((Val::Unit, at)),
        Ty::Uint => {
            let n = bits.number_at(at, widths.word);
            Ok((Val::U(n), at + widths.word as usize))
        }
        Ty::Bool => Ok((Val::B(bits.get(at)), at + 1)),
        Ty::Ptr(_) => {
            let block = bits.number_at(at, widths.addr);
            Ok((Val::Ptr(block as u32), at + widths.addr as usize))
        }
        Ty::Pair(first, second) => {
            let (x, next) = value_at(alloc, first, widths, bits, at)?;
            let (y, next) = value_at(alloc, second, widths, bits, next)?;
            Ok((pair(alloc, x, y)?, next))
        }
    }
}

/// The one value of a type whose bits lie from `at` on. A number or an address has its least bit first, `true` is 1, and the
/// first half of a pair comes before the second. Each list of bits is that of a value. The bits lie within the list.
/// An error: out of memory.
#[tactic(auto, using(crate::proofs::Encoding::decoded, crate::proofs::Encoding::bijective))]
pub fn decode_from(
    alloc: Global,
    ty: &Ty,
    widths: Widths,
    bits: &Bits,
    at: usize,
) -> Result<Val, AllocError>
    requires within { at + size widths (ty_of ty.now) ≤ length bits.now }
    ensures value { IfOk result (λ val.
        IsDecoded widths (ty_of ty.now) (taken at (size widths (ty_of ty.now)) bits.now) (value_of val)) }
    ensures bijective { IsBijective widths (ty_of ty.now) }
{
    // The length is a `usize`, so no place overflows.
    prove!(at <= bits.len());
    let (val, _) = value_at(alloc, ty, widths, bits, at)?;
    Ok(val)
}
