//! Syntax trees in an arena, and whether two of them are equal but for their places.
//! The definitions of `specs/` take them to trees without pointers, which keep the places.
#![tactic(auto)]

mod name;
mod program;
mod same_program;
mod same_statement;
mod same_term;
mod same_written;
mod statement;
mod term;
mod written;

pub use name::{Name, Path};
pub use program::{Alias, Decl, Fun, Param, Program, build_program};
pub use same_program::same_tree;
pub use statement::{No, Stmt, StmtKind, block, choice, otherwise, with_block};
pub use term::{Atom, AtomKind, Bound, Expr, ExprKind, OpKind, Rhs};
pub use written::{Written, WrittenKind, build_written};
