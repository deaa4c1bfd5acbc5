//! Takers of gates: what a call gives its gates to, one after the other.
ghost use Rattle.std.specs.Prelude.{◌≡◌, ℕ, ◌≤◌, ◌↔◌, List, [], ◌∷◌, ◌++◌};
ghost use Rattle.tw_gate.specs.Gates.{PlainGate, plain};
ghost use Rattle.tw_gate.specs.Taking.{Gave};

use crate::gate::Gate;
use thiserror::Error;

/// A taker stopped: it took a part of the gates that it was given, and its fault counter rose.
#[derive(Clone, Copy, Debug, Error)]
#[error("not all gates were taken")]
pub struct Stopped;

/// What takes gates in order, as a list in memory or a sink that takes their lines.
///
/// `took` relates a state before, a state after and a list of gates that was taken whole.
/// `broke` relates the same for a list that was taken in part before a stop.
/// `fits` says which gates fit a state.
/// `faults` counts the stops, and saturates at the greatest `u64`.
pub trait GateOut {
    ghost took: { Self → Self → List PlainGate → Type 0 };

    ghost broke: { Self → Self → List PlainGate → Type 0 };

    ghost fits: { Self → PlainGate → Type 0 };

    ghost faults: { Self → ℕ };

    /// Takes a gate that fits.
    ///
    /// On Ok it took the gate, and its fault counter is unchanged.
    /// If it stopped, it broke in the gate, and its fault counter rose.
    fn put(&mut self, gate: &Gate) -> Result<(), Stopped>
        requires { fits self.old (plain gate.now) }
        ensures gave { Gave took broke faults self.old self.new result (plain gate.now ∷ []) };

    /// A state took the empty list to itself.
    ghost took_none: { (a : Self) → took a a [] };

    /// Two lists taken one after the other are taken as one list.
    ghost took_both: { (a b c : Self) (xs ys : List PlainGate) → took a b xs → took b c ys → took a c (xs ++ ys) };

    /// A list taken, then a break in a second list, is a break in both as one list.
    ghost broke_later: { (a b c : Self) (xs ys : List PlainGate) → took a b xs → broke b c ys → broke a c (xs ++ ys) };

    /// A break in a list is a break in every longer list that begins with it.
    ghost broke_longer: { (a b : Self) (xs ys : List PlainGate) → broke a b xs → broke a b (xs ++ ys) };

    /// The same gates fit before and after a list is taken.
    ghost fits_stays: { (a b : Self) (xs : List PlainGate) (gate : PlainGate) → took a b xs → fits a gate ↔ fits b gate };
}
