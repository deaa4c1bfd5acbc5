//! Reversibility: whether each function of a program can be undone, or else the first rule that it breaks.
//! The definitions of `specs/` say what each rule demands, and `proofs/` has their laws.
#![tactic(auto)]

mod checked;
mod entry;
mod function;
mod mention;
mod name_set;
mod path;
mod statement;
mod variable;
mod walk;

pub use checked::{Checked, check};
pub use entry::{Entry, find_entry};
pub use function::check_function;
