//! The cost of X gates, as counts that stop at the greatest `u64`.
ghost use Rattle.std.specs.Prelude.{◌≡◌, [], ◌∷◌};
ghost use Rattle.tw_code.specs.Rows.{most_controls};
ghost use Rattle.tw_resolve.specs.Setting.{reported};
ghost use Rattle.tw_frames.specs.Inventory.{gate_lines, toffolis};
ghost use Rattle.tw_cost.specs.Costs.{capped_cost, cost_of, in_turn, no_cost};

use crate::rows::Row;
use tw_gate::Level;

/// The number of gates of a Toffoli gate at the level where it is not one gate.
const TOFFOLI_LINES: u64 = 15;

/// What X gates cost at a level.
#[derive(Debug, Clone, Copy, PartialEq, Eq)]
pub struct Cost {
    /// The gate lines at the level.
    pub lines: u64,
    /// The Toffoli gates that they become.
    pub toffolis: u64,
    /// The most controls of one gate.
    pub most_controls: u64,
}

/// The number of Toffoli gates of an X gate with this number of controls.
fn toffolis(controls: u64) -> u64
    ensures { result ≡ reported (toffolis controls) }
{
    if controls < 2 {
        0
    } else if controls == 2 {
        1
    } else {
        controls.saturating_add(controls - 3)
    }
}

/// The number of lines of an X gate with this number of controls, at a level.
fn gate_lines(level: Level, controls: u64) -> u64
    ensures { result ≡ reported (gate_lines level controls) }
{
    match level {
        Level::Mcx => 1,
        Level::Tof => { if controls <= 2 { 1 } else { toffolis(controls) } }
        Level::T => {
            if controls <= 1 {
                1
            } else {
                toffolis(controls).saturating_mul(TOFFOLI_LINES)
            }
        }
    }
}

/// The most controls of a gate of a row; 0 without gates.
fn most_controls(row: Row) -> u64
    ensures { result ≡ most_controls (row ∷ []) }
{
    if row.gates == 0 { 0 } else { row.controls }
}

impl Cost {
    /// There are no gates.
    pub fn nothing() -> Cost
        ensures { result ≡ no_cost }
    {
        Cost {
            lines: 0,
            toffolis: 0,
            most_controls: 0,
        }
    }

    /// Two circuits, one after the other.
    pub fn then(self, rest: Cost) -> Cost
        ensures { result ≡ capped_cost (in_turn self rest) }
    {
        Cost {
            lines: self.lines.saturating_add(rest.lines),
            toffolis: self.toffolis.saturating_add(rest.toffolis),
            most_controls: self.most_controls.max(rest.most_controls),
        }
    }
}

/// The cost of one row at a level.
fn cost_of_row(level: Level, row: Row) -> Cost
    ensures { result ≡ cost_of level (row ∷ []) }
{
    Cost {
        lines: row.gates.saturating_mul(gate_lines(level, row.controls)),
        toffolis: row.gates.saturating_mul(toffolis(row.controls)),
        most_controls: most_controls(row),
    }
}

/// The cost of rows at a level.
pub fn cost_of(level: Level, rows: &[Row]) -> Cost
    ensures { result ≡ cost_of level rows.now }
{
    let mut total = Cost::nothing();
    for row in rows {
        total = total.then(cost_of_row(level, *row));
    }
    total
}
