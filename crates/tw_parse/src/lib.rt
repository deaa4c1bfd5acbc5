//! The parser: from a source to its syntax tree in an arena, or to the first place that is wrong.
//! The definitions of `specs/` say what the grammar is, and what each rule takes from the tokens; `proofs/` has their laws.
#![tactic(auto)]

mod atoms;
mod calls;
mod error;
mod expressions;
mod functions;
mod parsing;
mod paths;
mod programs;
mod right_sides;
mod simple;
mod statements;
mod take;
mod types;

pub use parsing::parse;
