//! Gates on wires, which are numbered from 0; lists of gates, what they do to bits, and takers of gates.
//! The definitions of `specs/` give the action of a list of gates on bits, its inverse, and its T-count.
#![tactic(auto)]

mod acting;
mod gate;
mod list;
mod out;

pub use acting::{apply, apply_list};
pub use gate::{Gate, Level, TOFFOLI_T_COUNT};
pub use list::{GateList, invert};
pub use out::{GateOut, Stopped};
