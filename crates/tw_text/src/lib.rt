//! Texts: decimal numbers, prefixes, and places by line and column.
//! The limits of inputs. The reasons of refusals, and their lines. The type of arenas.
//! The definitions of `specs/` say what each of these is, and `proofs/` has their laws.
#![tactic(auto)]

mod cut;
mod decimal;
mod diagnostic;
mod digits;
mod limits;
mod place;
mod prefix;
mod refusal;
mod whole;

pub use cut::{before, first_char, text_after};
pub use decimal::read_decimal;
pub use diagnostic::{Diagnostic, DiagnosticLine};
pub use digits::split_digits;
pub use limits::{
    CONTROLS_LIMIT, DEPTH_LIMIT, INPUT_LIMIT, LINES_LIMIT, NESTING_LIMIT, STATEMENTS_LIMIT,
    STATES_LIMIT, WIRES_LIMIT,
};
pub use place::{Pos, place_after};
pub use prefix::after;
pub use refusal::{Arena, Counted, Fault, Refusal, Rule, StateWhy};
pub use whole::whole_decimal;
