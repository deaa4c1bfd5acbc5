//! The codes of operations, built with ample memory.
use bumpalo::Bump;
use std::alloc::AllocError;
use tw_arith::{Operand, and_code, constant_code, copy_code, pair_code};
use tw_code::Code;

/// Whether a code is an X gate of these controls and this target.
fn is_flip(code: &Code, wanted: (&[u32], u32)) -> bool {
    match code {
        Code::Flip { controls, target } => *controls == wanted.0 && *target == wanted.1,
        _ => false,
    }
}

/// Whether a code is a sequence of these X gates.
fn are_flips(code: &Code, wanted: &[(&[u32], u32)]) -> bool {
    match code {
        Code::Seq(parts) => {
            parts.len() == wanted.len() && (0..wanted.len()).all(|i| is_flip(&parts[i], wanted[i]))
        }
        _ => false,
    }
}

/// Whether a code is two sequences of these X gates.
fn are_both(code: &Code, first: &[(&[u32], u32)], second: &[(&[u32], u32)]) -> bool {
    match code {
        Code::Seq([left, right]) => are_flips(left, first) && are_flips(right, second),
        _ => false,
    }
}

#[test]
#[tactic(auto, using(tw_arith::specs::Examples::apart_copy))]
fn copies_are_built(rt: HostRuntime) -> Result<(), AllocError> {
    let arena = Bump::new(rt.alloc());
    let code = copy_code(&arena, Operand::Wires(0), 4, 2)?;
    assert!(rt; are_flips(code, &[(&[0], 4), (&[1], 5)]));
    Ok(())
}

#[test]
#[tactic(auto, using(tw_arith::specs::Examples::apart_constant))]
fn constants_are_built(rt: HostRuntime) -> Result<(), AllocError> {
    let arena = Bump::new(rt.alloc());
    let code = constant_code(&arena, Operand::Fixed(&[true, false, true]), 5, 3)?;
    assert!(rt; are_flips(code, &[(&[], 5), (&[], 7)]));
    Ok(())
}

#[test]
#[tactic(auto, using(tw_arith::specs::Examples::apart_pair))]
fn pairs_are_built(rt: HostRuntime) -> Result<(), AllocError> {
    let arena = Bump::new(rt.alloc());
    let bits = Operand::Fixed(&[false, true]);
    let code = pair_code(&arena, bits, Operand::Wires(0), 4, 2, 1)?;
    assert!(rt; are_both(code, &[(&[], 5)], &[(&[0], 6)]));
    Ok(())
}

#[test]
#[tactic(auto, using(tw_arith::specs::Examples::apart_and))]
fn conjunctions_are_built(rt: HostRuntime) -> Result<(), AllocError> {
    let arena = Bump::new(rt.alloc());
    let code = and_code(&arena, Operand::Wires(3), Operand::Wires(3), 5, 7, 1)?;
    let is_built = match code {
        Code::Conj(setup, work) => {
            are_both(setup, &[(&[3], 7)], &[(&[3], 8)]) && is_flip(work, (&[7, 8], 5))
        }
        _ => false,
    };
    assert!(rt; is_built);
    Ok(())
}
