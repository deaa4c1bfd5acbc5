//! A value read from bits with ample memory.
use std::test::Fail;
use tw_bits::Bits;
use tw_types::{TargetId, Ty, Val, Widths, decode_from, pair, same};

/// Words of 3 bits, and addresses of 2.
const WIDTHS: Widths = Widths { word: 3, addr: 2 };

const LIST: Ty<'static> = Ty::Ptr(TargetId(0));

#[test]
fn a_value_is_read(rt: HostRuntime) -> Result<(), Fail> {
    let alloc = rt.alloc();
    let last = Ty::Pair(&LIST, &Ty::Unit);
    let rest = Ty::Pair(&Ty::Bool, &last);
    let whole = Ty::Pair(&Ty::Uint, &rest);
    let mut bits = Bits::zeros(alloc, 8)?;
    bits.put_number(1, 6, 0b10_1_110);
    let val = decode_from(alloc, &whole, WIDTHS, &bits, 1)?;
    let last = pair(alloc, Val::Ptr(2), Val::Unit)?;
    let rest = pair(alloc, Val::B(true), last)?;
    let wanted = pair(alloc, Val::U(6), rest)?;
    assert!(rt; same(&val, &wanted));
    Ok(())
}
