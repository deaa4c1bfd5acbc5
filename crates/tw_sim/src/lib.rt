//! Gates simulated on lines of bits, 64 lines at a time: a machine word for each wire, with a bit for each line.
//! `specs/` defines lines of bits, the refusals of other texts, and the lanes of words.
#![tactic(auto)]

mod answer;
mod lanes;
mod lines;
mod transpose;

pub use answer::simulate;
pub use lines::{LinesFault, too_many};
