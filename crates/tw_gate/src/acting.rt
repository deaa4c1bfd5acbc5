//! Gates applied to bits.
ghost use Rattle.std.specs.Prelude.{◌≡◌, ◌<◌, length};
ghost use Rattle.std.specs.List.{AllByRecursion};
ghost use Rattle.tw_gate.specs.Gates.{plain, act_gate, act, all_one, HasWiresBelow};

use crate::gate::Gate;
use crate::list::GateList;
use tw_bits::Bits;

/// Whether all of these wires, which are below the number of bits, are 1.
fn are_one(wires: &[u32], bits: &Bits) -> bool
    requires { AllByRecursion (λ w. w < length bits.now) wires.now }
    ensures { result ≡ all_one wires.now bits.now }
{
    for wire in wires {
        if !bits.get(*wire as usize) {
            return false;
        }
    }
    true
}

/// Applies a gate to bits, one for each wire from 0. An X gate flips the bit of its target exactly if all its controls are 1.
/// The other gates change no bits. All wires of the gate are below the number of bits. Does not allocate.
pub fn apply(gate: &Gate, bits: &mut Bits)
    requires { HasWiresBelow (length bits.old) (plain gate.now) }
    ensures bits { bits.new ≡ act_gate (plain gate.now) bits.old }
    ensures len { length bits.new ≡ length bits.old }
{
    match *gate {
        Gate::X { controls, target } => {
            if are_one(controls, bits) {
                bits.flip(target as usize);
            }
        }
        Gate::H(_) | Gate::T(_) | Gate::Tdg(_) => {}
    }
}

/// Applies the gates of a list to bits, in order. All wires of the gates are below the number of bits. Does not allocate.
pub fn apply_list(list: &GateList, bits: &mut Bits)
    requires { AllByRecursion (HasWiresBelow (length bits.old)) list.now }
    ensures bits { bits.new ≡ act list.now bits.old }
    ensures len { length bits.new ≡ length bits.old }
{
    for place in 0..list.len() {
        apply(&list.gate(place), bits);
    }
}
