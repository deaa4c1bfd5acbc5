//! The variables of right sides.
ghost use Rattle.std.specs.Prelude.{◌≡◌, ◌++◌, OnOk, map};
ghost use Rattle.tw_syntax.specs.Names.{name_tree};
ghost use Rattle.tw_syntax.specs.Terms.{atom_tree, expr_tree, rhs_tree};
ghost use Rattle.tw_check.specs.Liveness.{atom_names, expr_names, rhs_names};
ghost use Rattle.tw_check.specs.Right.{writes};

use std::alloc::AllocError;
use tw_syntax::{Atom, AtomKind, Expr, ExprKind, Name, Rhs};

/// Whether a right side writes its variables: a call does.
pub fn writes(rhs: &Rhs) -> bool
    ensures { result ≡ writes (rhs_tree rhs.now) }
{
    match rhs {
        Rhs::Call { .. } => true,
        _ => false,
    }
}

/// Appends the variable of an atom, if it has one. An error: out of memory.
fn push_atom<'a>(names: &mut Vec<Name<'a>>, atom: &Atom<'a>) -> Result<(), AllocError>
    ensures { OnOk result (map name_tree names.new.items ≡ map name_tree names.old.items ++ atom_names (atom_tree atom.now)) }
{
    match &atom.kind {
        AtomKind::Place(path) => {
            names.push(path.root)?;
            Ok(())
        }
        _ => Ok(()),
    }
}

/// Appends the variables of an expression, from left to right. An error: out of memory.
fn push_expr<'a>(names: &mut Vec<Name<'a>>, expr: &Expr<'a>) -> Result<(), AllocError>
    ensures { OnOk result (map name_tree names.new.items ≡ map name_tree names.old.items ++ expr_names (expr_tree expr.now)) }
{
    match &expr.kind {
        ExprKind::One(x) => push_atom(names, x),
        ExprKind::Two(x, y) => {
            push_atom(names, x)?;
            push_atom(names, y)
        }
        ExprKind::Not(x) => push_atom(names, x),
        ExprKind::Op(_, x, y) => {
            push_atom(names, x)?;
            push_atom(names, y)
        }
    }
}

/// Appends the variables of a right side, from left to right. An error: out of memory.
pub fn push_variables<'a>(names: &mut Vec<Name<'a>>, rhs: &Rhs<'a>) -> Result<(), AllocError>
    ensures { OnOk result (map name_tree names.new.items ≡ map name_tree names.old.items ++ rhs_names (rhs_tree rhs.now)) }
{
    match rhs {
        Rhs::Expr(expr) => push_expr(names, expr),
        Rhs::Call { args, .. } => names.extend_from_slice(args),
        Rhs::Alloc(_) => Ok(()),
    }
}
