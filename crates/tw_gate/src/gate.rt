//! Gates, their inverses and their T-counts.
ghost use Rattle.std.specs.Prelude.{◌≡◌, ◌≤◌, ◌^◌, length};
ghost use Rattle.tw_gate.specs.Gates.{plain, inverse_gate, controls_of};
ghost use Rattle.tw_gate.specs.Weight.{weight, gate_weight};

/// The T-count of a Toffoli, an X gate of two controls.
pub const TOFFOLI_T_COUNT: u64 = 7;

/// The level of a file: which kinds of gates it may have.
#[derive(Debug, Clone, Copy, PartialEq, Eq)]
pub enum Level {
    /// X gates of at most 64 controls.
    Mcx,
    /// X gates of at most two controls.
    Tof,
    /// X gates of at most one control, and Hadamard, T and inverse T gates.
    T,
}

/// A gate, which borrows its controls.
#[derive(Debug, Clone, Copy)]
pub enum Gate<'g> {
    /// Flips the target exactly if all controls are 1.
    /// In a valid file the controls ascend strictly, and the target is not among them.
    X { controls: &'g [u32], target: u32 },
    /// The Hadamard gate on a wire.
    H(u32),
    /// The T gate on a wire.
    T(u32),
    /// The inverse of the T gate on a wire.
    Tdg(u32),
}

impl<'g> Gate<'g> {
    /// The inverse gate, on the same wires: T and its inverse are exchanged, and the other kinds are their own inverses.
    pub fn inverse(self) -> Gate<'g>
        ensures { plain result ≡ inverse_gate (plain self.entry) }
    {
        match self {
            Gate::T(wire) => Gate::Tdg(wire),
            Gate::Tdg(wire) => Gate::T(wire),
            Gate::X { .. } | Gate::H(_) => self,
        }
    }

    /// Its T-count: 1 for T and its inverse; 0 for Hadamard gates and X gates of at most one control.
    /// For an X gate of `c` controls, from 2 to `2^32`, the T-count of `2c - 3` Toffolis. docs/CIRCUITS.md has the source.
    pub fn t_count(&self) -> u64
        requires { length (controls_of (plain self.now)) ≤ 2 ^ 32 }
        ensures { result ≡ gate_weight (plain self.now) }
    {
        match self {
            Gate::X { controls, .. } => weight(controls.len() as u64),
            Gate::H(_) => 0,
            Gate::T(_) | Gate::Tdg(_) => 1,
        }
    }
}

/// The T-count of an X gate of this number of controls.
fn weight(controls: u64) -> u64
    requires { controls ≤ 2 ^ 32 }
    ensures { result ≡ weight controls }
{
    if controls < 2 {
        0
    } else {
        TOFFOLI_T_COUNT * (2 * controls - 3)
    }
}
