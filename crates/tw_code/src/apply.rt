//! Code applied to bits.
ghost use Rattle.std.specs.Prelude.{◌≡◌, not, length, map};
ghost use Rattle.tw_code.specs.Trees.{code_tree, sequence};
ghost use Rattle.tw_code.specs.Meaning.{mean};
ghost use Rattle.tw_code.specs.Wires.{IsProperCode, UsesWiresBelow};

use crate::code::Code;
use tw_bits::Bits;
use tw_gate::{Gate, apply};

/// Applies the parts of a sequence, in order or, if `back` is true, reversed and in reverse order.
#[cycle(apply)]
#[tactic(auto, using(crate::proofs::Parts::tree_of_seq, crate::proofs::Parts::mean_less))]
fn apply_parts(parts: &[Code], back: bool, bits: &mut Bits)
    requires { UsesWiresBelow (length bits.old) (sequence (map code_tree parts.now)) }
    ensures bits { bits.new ≡ mean (sequence (map code_tree parts.now)) back bits.old }
    ensures len { length bits.new ≡ length bits.old }
{
    if back {
        let mut left = parts.len();
        while left > 0 {
            left -= 1;
            apply_tree(&parts[left], true, bits);
        }
    } else {
        for part in parts {
            apply_tree(part, false, bits);
        }
    }
}

/// Applies a code, which need not be proper.
#[cycle(apply)]
#[tactic(auto, using(crate::proofs::Parts::tree_of_seq))]
fn apply_tree(code: &Code, back: bool, bits: &mut Bits)
    requires { UsesWiresBelow (length bits.old) (code_tree code.now) }
    ensures bits { bits.new ≡ mean (code_tree code.now) back bits.old }
    ensures len { length bits.new ≡ length bits.old }
{
    match code {
        Code::Flip { controls, target } => apply(
            &Gate::X {
                controls,
                target: *target,
            },
            bits,
        ),
        Code::Seq(parts) => apply_parts(parts, back, bits),
        Code::If(wire, body) => {
            if bits.get(*wire as usize) {
                apply_tree(body, back, bits);
            }
        }
        Code::With(setup, work) | Code::Conj(setup, work) => {
            apply_tree(setup, false, bits);
            apply_tree(work, back, bits);
            apply_tree(setup, true, bits);
        }
    }
}

/// Applies a code to bits, one for each wire from 0; backward if `back` is true. Backward and forward undo each other.
/// The code is proper, and its wires are below the number of bits. Does not allocate.
pub fn apply_code(code: &Code, back: bool, bits: &mut Bits)
    requires proper { IsProperCode (code_tree code.now) }
    requires within { UsesWiresBelow (length bits.old) (code_tree code.now) }
    ensures bits { bits.new ≡ mean (code_tree code.now) back bits.old }
    ensures len { length bits.new ≡ length bits.old }
    ensures undone { mean (code_tree code.now) (not back) bits.new ≡ bits.old }
{
    apply_tree(code, back, bits);
}
