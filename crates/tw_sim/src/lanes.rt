//! Gates applied to words, one word for each wire: to 64 states at once.
ghost use Rattle.std.specs.Prelude.{◌≡◌, ℕ, ◌<◌, List, length};
ghost use Rattle.std.specs.List.{AllByRecursion};
ghost use Rattle.tw_gate.specs.Gates.{PlainGate, plain, act_gate, all_one, HasWiresBelow};
ghost use Rattle.tw_sim.specs.Lanes.{number_bit, lane, LanesActed};

use tw_gate::{Gate, GateList};

/// The lanes in which all of these wires are 1.
fn where_one(wires: &[u32], words: &[u64]) -> u64
    requires { AllByRecursion (λ w. w < length words.now) wires.now }
    ensures { (place : ℕ) → place < 64 → number_bit place result ≡ all_one wires.now (lane place words.now) }
{
    let mut lanes = u64::MAX;
    for wire in wires {
        lanes &= words[*wire as usize];
    }
    lanes
}

/// Applies a gate to each lane.
fn act_on_lanes(gate: &Gate, words: &mut [u64])
    requires { HasWiresBelow (length words.old) (plain gate.now) }
    ensures acted { (place : ℕ) → place < 64 → lane place words.new ≡ act_gate (plain gate.now) (lane place words.old) }
    ensures len { length words.new ≡ length words.old }
{
    match *gate {
        Gate::X { controls, target } => {
            let flips = where_one(controls, words);
            words[target as usize] ^= flips;
        }
        Gate::H(_) | Gate::T(_) | Gate::Tdg(_) => {}
    }
}

/// Applies the gates of a list, in order, to each lane.
pub fn act_list_on_lanes(gates: &GateList, words: &mut [u64])
    requires { AllByRecursion (HasWiresBelow (length words.old)) gates.now }
    ensures acted { LanesActed gates.now words.old words.new }
    ensures len { length words.new ≡ length words.old }
{
    for place in 0..gates.len() {
        act_on_lanes(&gates.gate(place), words);
    }
}
