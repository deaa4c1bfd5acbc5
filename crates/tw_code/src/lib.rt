//! Wire code: circuits of X gates as trees, their meaning on bits, and their gates under controls.
//! The definitions of `specs/` give the meaning, the reverse, the gates and the counts of gates of a code.
#![tactic(auto)]

mod apply;
mod build;
mod code;
mod emitter;
mod gates;
mod present;

pub use apply::apply_code;
pub use build::{conjugated, controlled, flip, sequence, with_setup};
pub use code::{Code, Options};
pub use emitter::{Emitter, emit};
