//! Rows of an inventory: numbers of X gates that have the same number of controls.
ghost use Rattle.std.specs.Prelude.{◌≡◌};
ghost use Rattle.tw_code.specs.Rows.{row};

use std::marker::Model;

/// A number of X gates with the same number of controls.
#[derive(Debug, Clone, Copy, PartialEq, Eq)]
pub struct Row {
    pub gates: u64,
    pub controls: u64,
}

impl Model for Row {
    ghost use Rattle.tw_code.specs.Rows as rows;

    ghost Value = { rows.Row };

    ghost view = { λ fields. record { gates = fields.gates; controls = fields.controls } };

    ghost inverse = { λ row. record { gates = row.gates; controls = row.controls } };
}

impl Row {
    /// This number of X gates with this number of controls.
    pub fn new(gates: u64, controls: u64) -> Row
        ensures { result ≡ row gates controls }
    {
        Row { gates, controls }
    }
}
