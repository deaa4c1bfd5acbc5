//! The layout of wires, the inventory of a circuit, and how much an entry runs.
//! The definitions of `specs/` give the layout of the wires and the inventory of the gates, by recursion on the function, and the
//! number and the nesting of the statements that run, across calls.
#![tactic(auto)]

mod body;
mod entering;
mod frames;
mod laying;
mod marks;
mod measured;
mod measuring;
mod pairs;
mod regions;
mod scratch;
mod sizes;
mod workspace;

pub use body::Body;
pub use laying::layout;
pub use measured::Measured;
pub use measuring::{measure, need_within};
pub use pairs::{callee_bound, running_bound};
pub use regions::WireLayout;
pub use sizes::{bits_of, bits_of_atom, bits_of_name, bits_of_path};
