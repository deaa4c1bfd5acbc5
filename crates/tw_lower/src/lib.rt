//! The code of statements, and of the entry of a program, on the wires of its layout.
//! `specs/Lowering.antt` defines the code of each statement, and `proofs/CheckedEntry.antt` shows that the code of an entry simulates it.
#![tactic(auto)]

mod branch;
mod built;
mod expression;
mod frame;
mod lowering;
mod names;
mod operand;
mod paths;
mod placing;
mod wires;

pub use built::is_built;
pub use lowering::lower;
