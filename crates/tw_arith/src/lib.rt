//! The code of each kind of expression: it XORs the value into the wires of the result, and changes nothing else.
//! The definitions of `specs/` give the circuits, what they do to bits, and how many gates they have.
#![tactic(auto)]

mod atoms;
mod load;
mod logic;
mod operand;

pub use atoms::{constant_code, copy_code, pair_code};
pub use logic::and_code;
pub use operand::Operand;
