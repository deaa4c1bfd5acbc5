//! Whether a gate fits the level and the wires of a file.
ghost use Rattle.std.specs.Prelude.{◌≡◌, ◌↔◌, ◌<◌, true};
ghost use Rattle.std.specs.List.{AllByRecursion};
ghost use Rattle.tw_gate.specs.Gates.{plain, Ascends, IsNotAmong};
ghost use Rattle.tw_gatetext.specs.Valid.{FitsLevel, FitsWires};

use tw_gate::{Gate, Level};
use tw_text::CONTROLS_LIMIT;

/// Whether the level allows a gate of this kind with this number of controls.
pub fn fits_level(level: Level, gate: &Gate) -> bool
    ensures { (result ≡ true) ↔ FitsLevel level (plain gate.now) }
{
    match (level, gate) {
        (Level::Mcx, Gate::X { controls, .. }) => controls.len() as u64 <= CONTROLS_LIMIT,
        (Level::Tof, Gate::X { controls, .. }) => controls.len() <= 2,
        (Level::T, Gate::X { controls, .. }) => controls.len() <= 1,
        (Level::T, Gate::H(_) | Gate::T(_) | Gate::Tdg(_)) => true,
        (Level::Mcx | Level::Tof, Gate::H(_) | Gate::T(_) | Gate::Tdg(_)) => false,
    }
}

/// Whether the gate is proper, and all its wires are below this number.
pub fn fits_wires(wires: u32, gate: &Gate) -> bool
    ensures { (result ≡ true) ↔ FitsWires wires (plain gate.now) }
{
    match *gate {
        Gate::X { controls, target } => target < wires && controls_fit(wires, controls, target),
        Gate::H(wire) | Gate::T(wire) | Gate::Tdg(wire) => wire < wires,
    }
}

/// Whether these ascend strictly, are below the number of wires, and the target is not among them.
fn controls_fit(wires: u32, controls: &[u32], target: u32) -> bool
    ensures { (result ≡ true) ↔ (Ascends controls.now × IsNotAmong target controls.now × AllByRecursion (λ c. c < wires) controls.now) }
{
    let mut least = 0;
    for control in controls {
        if *control < least || *control >= wires || *control == target {
            return false;
        }
        least = *control + 1;
    }
    true
}
