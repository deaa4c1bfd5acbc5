//! Names and types: whether a program is well-typed, or else the first rule that it breaks.
//! The definitions of `specs/` say what each rule demands, and `proofs/` has their laws.
#![tactic(auto)]

mod alias_search;
mod alias_table;
mod alias_types;
mod atoms;
mod calls;
mod declare;
mod demand;
mod expressions;
mod fun_table;
mod functions;
mod name_set;
mod names;
mod names_so_far;
mod paths;
mod recursion;
mod resolved;
mod sizes;
mod statements;
mod tables;
mod target_table;
mod target_types;
mod targets;
mod ty_sizes;
mod type_rules;
mod type_table;
mod typing;
mod variables;
mod written;

pub use demand::need;
pub use resolved::{Resolved, resolve};
