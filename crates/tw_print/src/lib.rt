//! The printed form of programs: the one text in which each program is printed.
//! The definitions of `specs/` give the printed form of each tree, and `proofs/` join the pieces.
#![tactic(auto)]

mod programs;
mod progress;
mod statements;
mod terms;
mod types;

pub use programs::print_program;
