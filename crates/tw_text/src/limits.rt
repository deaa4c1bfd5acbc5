//! The limits of inputs, programs and gate files.
ghost use Rattle.std.specs.Prelude.{◌≡◌};
ghost use Rattle.tw_text.specs.Limits.{limit_of};

use crate::refusal::Counted;

/// The most bytes of an input.
pub const INPUT_LIMIT: u64 = 134_217_728;

/// The most brackets that are open at one place of a source.
pub const NESTING_LIMIT: u64 = 64;

/// The most statements that are run.
pub const STATEMENTS_LIMIT: u64 = 1_000_000;

/// The most statements that are nested in one another.
pub const DEPTH_LIMIT: u64 = 1_000;

/// The most controls of one gate.
pub const CONTROLS_LIMIT: u64 = 64;

/// The most wires of a gate file.
pub const WIRES_LIMIT: u64 = 1_048_576;

/// The most gate lines of a gate file.
pub const LINES_LIMIT: u64 = 4_194_304;

/// The most states, or lines of bits, of one input.
pub const STATES_LIMIT: u64 = 1_024;

impl Counted {
    /// The limit: the greatest count that is accepted.
    pub fn limit(self) -> u64
        ensures { result ≡ limit_of self }
    {
        match self {
            Counted::Input => INPUT_LIMIT,
            Counted::Nesting => NESTING_LIMIT,
            Counted::Statements => STATEMENTS_LIMIT,
            Counted::Depth => DEPTH_LIMIT,
            Counted::Controls => CONTROLS_LIMIT,
            Counted::Wires => WIRES_LIMIT,
            Counted::Lines => LINES_LIMIT,
            Counted::States => STATES_LIMIT,
        }
    }
}
