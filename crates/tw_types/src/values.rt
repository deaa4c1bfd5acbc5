//! Values, their zeros and their types.
ghost use Rattle.std.specs.Prelude.{◌≡◌, ◌<◌, ◌^◌, Decides, IfOk};
ghost use Rattle.tw_types.specs.Values.{HasType, PairValue, zero_value};
ghost use Rattle.tw_types.specs.FromCode.{ty_of, value_of};

use crate::types::Ty;
use crate::widths::Widths;
use std::alloc::{AllocError, Global};

/// A value.
#[derive(Drop)]
pub enum Val {
    /// `()`.
    Unit,
    /// A number, of type `uint` if it is below 2 to the width of a word.
    U(u64),
    /// A truth value.
    B(bool),
    /// The address of a block, from 1 on, or 0, which is null.
    Ptr(u32),
    /// A pair.
    Pair(Box<Val>, Box<Val>),
}

/// The pair of two values. An error: out of memory.
pub fn pair(alloc: Global, first: Val, second: Val) -> Result<Val, AllocError>
    ensures { IfOk result (λ val. value_of val ≡ PairValue (value_of first) (value_of second)) }
{
    let first = Box::new(alloc, first)?;
    let second = Box::new(alloc, second)?;
    Ok(Val::Pair(first, second))
}

/// The zero of a type: `()`, 0, false, null, or the pair of the zeros of both halves.
/// An error: out of memory.
pub fn zero_of(alloc: Global, ty: &Ty) -> Result<Val, AllocError>
    ensures { IfOk result (λ val. value_of val ≡ zero_value (ty_of ty.now)) }
{
    match ty {
        Ty::Unit => Ok(Val::Unit),
        Ty::Uint => Ok(Val::U(0)),
        Ty::Bool => Ok(Val::B(false)),
        Ty::Ptr(_) => Ok(Val::Ptr(0)),
        Ty::Pair(first, second) => {
            let first = zero_of(alloc, first)?;
            let second = zero_of(alloc, second)?;
            pair(alloc, first, second)
        }
    }
}

/// A copy of a value. An error: out of memory.
pub fn copy_val(alloc: Global, val: &Val) -> Result<Val, AllocError>
    ensures { IfOk result (λ copy. value_of copy ≡ value_of val.now) }
{
    match val {
        Val::Unit => Ok(Val::Unit),
        Val::U(n) => Ok(Val::U(*n)),
        Val::B(is) => Ok(Val::B(*is)),
        Val::Ptr(block) => Ok(Val::Ptr(*block)),
        Val::Pair(first, second) => {
            let first = copy_val(alloc, first)?;
            let second = copy_val(alloc, second)?;
            pair(alloc, first, second)
        }
    }
}

/// Whether two values are equal.
pub fn same(x: &Val, y: &Val) -> bool
    ensures { Decides result (value_of x.now ≡ value_of y.now) }
{
    match (x, y) {
        (Val::Unit, Val::Unit) => true,
        (Val::U(m), Val::U(n)) => m == n,
        (Val::B(is), Val::B(other)) => is == other,
        (Val::Ptr(block), Val::Ptr(other)) => block == other,
        (Val::Pair(a, b), Val::Pair(c, d)) => same(a, c) && same(b, d),
        _ => false,
    }
}

/// Whether the number is below 2 to the width.
fn fits(n: u64, width: u32) -> bool
    ensures { Decides result (n < 2 ^ width) }
{
    width >= 64 || n >> width == 0
}

/// Whether a value has a type: a number below 2 to the width of a word has `uint`, and the address of a block, or null, has each
/// pointer type. There are as many blocks as addresses other than null.
pub fn has_type(val: &Val, ty: &Ty, widths: Widths) -> bool
    ensures { Decides result (HasType widths (value_of val.now) (ty_of ty.now)) }
{
    match (val, ty) {
        (Val::Unit, Ty::Unit) => true,
        (Val::U(n), Ty::Uint) => fits(*n, widths.word),
        (Val::B(_), Ty::Bool) => true,
        (Val::Ptr(block), Ty::Ptr(_)) => fits(u64::from(*block), widths.addr),
        (Val::Pair(x, y), Ty::Pair(first, second)) => {
            has_type(x, first, widths) && has_type(y, second, widths)
        }
        _ => false,
    }
}
