//! Functions, aliases and programs.
ghost use Rattle.std.specs.Prelude.{◌≡◌, IfOk, map};
ghost use Rattle.tw_syntax.specs.Programs.{program_tree, decl_tree};

use crate::name::Name;
use crate::statement::Stmt;
use crate::written::Written;
use std::alloc::AllocError;
use tw_text::{Arena, Pos};

/// A parameter and its type.
#[derive(Clone, Copy)]
pub struct Param<'a> {
    pub name: Name<'a>,
    pub ty: &'a Written<'a>,
}

/// A function.
#[derive(Clone, Copy)]
pub struct Fun<'a> {
    pub name: Name<'a>,
    /// The name of its bound, if it has one.
    pub bound: Option<Name<'a>>,
    pub params: &'a [Param<'a>],
    pub result: &'a Written<'a>,
    pub body: &'a [Stmt<'a>],
    /// The place of the keyword `return`.
    pub return_at: Pos,
    pub returned: Name<'a>,
}

/// An alias: a name for a type.
#[derive(Clone, Copy)]
pub struct Alias<'a> {
    pub name: Name<'a>,
    pub body: &'a Written<'a>,
}

/// A declaration.
#[derive(Clone, Copy)]
pub enum Decl<'a> {
    Alias(Alias<'a>),
    Fun(Fun<'a>),
}

/// A program: its declarations, in order.
#[derive(Clone, Copy)]
pub struct Program<'a> {
    pub decls: &'a [Decl<'a>],
}

/// A program in the arena. An error: the arena is out of memory.
pub fn build_program<'a>(
    arena: &'a Arena,
    decls: &'a [Decl<'a>],
) -> Result<&'a Program<'a>, AllocError>
    ensures { IfOk result (λ x. (program_tree x.now).decls ≡ map decl_tree decls.now) }
{
    Ok(arena.try_alloc(Program { decls })?)
}
