//! The types of expressions, and their rules.
ghost use Rattle.std.specs.Prelude.{◌≡◌, ◌++◌, IfOk, None, option_map};
ghost use Rattle.tw_syntax.specs.Terms.{AtomTree, TwoExpr, atom_tree, expr_tree};
ghost use Rattle.tw_types.specs.FromCode.{ty_of};
ghost use Rattle.tw_resolve.specs.Demands.{Tries};
ghost use Rattle.tw_resolve.specs.Setting.{pair_of, size_rules};
ghost use Rattle.tw_resolve.specs.Expressions.{atom_rules, expr_rules, expr_type, left_type, result_type, right_type};
ghost use Rattle.tw_resolve.specs.Tables.{setting_in};
ghost use Rattle.tw_resolve.specs.Variables.{variables_in};

use crate::atoms::{atom_type, check_atom};
use crate::tables::Tables;
use crate::ty_sizes::sized;
use crate::type_rules::check_size;
use crate::variables::Variables;
use std::alloc::{AllocError, Global};
use tw_syntax::{Atom, Expr, ExprKind, OpKind};
use tw_text::{Arena, Fault, Pos};
use tw_types::Ty;

/// The type of the result of an operator.
fn result_type<'a>(op: OpKind) -> Ty<'a>
    ensures { ty_of result ≡ result_type op }
{
    match op {
        OpKind::Add => Ty::Uint,
        OpKind::Sub => Ty::Uint,
        OpKind::Mul => Ty::Uint,
        OpKind::Lt => Ty::Bool,
        OpKind::Eq => Ty::Bool,
        OpKind::Ne => Ty::Bool,
        OpKind::And => Ty::Bool,
        OpKind::Or => Ty::Bool,
    }
}

/// The type that an operator needs on its left; `==` and `!=` take any.
fn left_type<'a>(op: OpKind) -> Option<Ty<'a>>
    ensures { option_map ty_of result ≡ left_type op }
{
    match op {
        OpKind::Add => Some(Ty::Uint),
        OpKind::Sub => Some(Ty::Uint),
        OpKind::Mul => Some(Ty::Uint),
        OpKind::Lt => Some(Ty::Uint),
        OpKind::Eq => None,
        OpKind::Ne => None,
        OpKind::And => Some(Ty::Bool),
        OpKind::Or => Some(Ty::Bool),
    }
}

/// The type that an operator needs on its right, after a left operand of this type.
fn right_type<'a>(op: OpKind, left: Option<Ty<'a>>) -> Option<Ty<'a>>
    ensures { option_map ty_of result ≡ right_type op (option_map ty_of left.entry) }
{
    match op {
        OpKind::Add => Some(Ty::Uint),
        OpKind::Sub => Some(Ty::Uint),
        OpKind::Mul => Some(Ty::Uint),
        OpKind::Lt => Some(Ty::Uint),
        OpKind::Eq => left,
        OpKind::Ne => left,
        OpKind::And => Some(Ty::Bool),
        OpKind::Or => Some(Ty::Bool),
    }
}

/// A pair of types, if both are known. An error: the arena is out of memory.
fn pair_of<'a>(
    arena: &'a Arena,
    first: Option<Ty<'a>>,
    second: Option<Ty<'a>>,
) -> Result<Option<Ty<'a>>, AllocError>
    ensures { IfOk result (λ found. option_map ty_of found ≡ pair_of (option_map ty_of first.entry) (option_map ty_of second.entry)) }
{
    let Some(left) = first else {
        return Ok(None);
    };
    let Some(right) = second else {
        return Ok(None);
    };
    Ok(Some(Ty::Pair(arena.try_alloc(left)?, arena.try_alloc(right)?)))
}

/// A type, if it is known, is not too deep and not too large.
fn check_ty_size(tables: &Tables<'_>, at: Pos, found: Option<Ty<'_>>) -> Result<(), Fault>
    ensures { Tries (size_rules (setting_in tables.now) at (option_map ty_of found.entry)) result }
{
    match found {
        Some(ty) => check_size(tables, at, Some(sized(tables.types.widths(), ty))),
        None => Ok(()),
    }
}

/// Two atoms, of any type, keep their rules.
#[tactic(auto, using(crate::proofs::Trying::trying))]
fn check_halves<'a>(
    alloc: Global,
    arena: &'a Arena,
    tables: &Tables<'a>,
    variables: &Variables<'a>,
    x: &Atom<'a>,
    y: &Atom<'a>,
) -> Result<(), Fault>
    ensures { Tries (atom_rules (setting_in tables.now) (variables_in variables.now.table.entries) None (atom_tree x.now) ++ atom_rules (setting_in tables.now) (variables_in variables.now.table.entries) None (atom_tree y.now)) result }
{
    check_atom(alloc, arena, tables, variables, None, x)?;
    check_atom(alloc, arena, tables, variables, None, y)?;
    Ok(())
}

/// The type of a pair, which is not too deep and not too large, and whose halves keep their rules.
#[tactic(auto, using(crate::proofs::Trying::trying))]
fn check_pair<'a>(
    alloc: Global,
    arena: &'a Arena,
    tables: &Tables<'a>,
    variables: &Variables<'a>,
    at: Pos,
    x: &Atom<'a>,
    y: &Atom<'a>,
) -> Result<Option<Ty<'a>>, Fault>
    ensures tried { Tries (expr_rules (setting_in tables.now) (variables_in variables.now.table.entries) (TwoExpr at (atom_tree x.now) (atom_tree y.now))) result }
    ensures found { IfOk result (λ found. option_map ty_of found ≡ expr_type (setting_in tables.now) (variables_in variables.now.table.entries) (TwoExpr at (atom_tree x.now) (atom_tree y.now))) }
{
    let first = atom_type(alloc, arena, tables, variables, x)?;
    let second = atom_type(alloc, arena, tables, variables, y)?;
    let pair = pair_of(arena, first, second)?;
    check_ty_size(tables, at, pair)?;
    check_halves(alloc, arena, tables, variables, x, y)?;
    Ok(pair)
}

/// The type of an expression, whose operands have the types that its operator needs.
#[tactic(auto, using(crate::proofs::Trying::trying))]
pub fn check_expr<'a>(
    alloc: Global,
    arena: &'a Arena,
    tables: &Tables<'a>,
    variables: &Variables<'a>,
    expr: &Expr<'a>,
) -> Result<Option<Ty<'a>>, Fault>
    ensures tried { Tries (expr_rules (setting_in tables.now) (variables_in variables.now.table.entries) (expr_tree expr.now)) result }
    ensures found { IfOk result (λ found. option_map ty_of found ≡ expr_type (setting_in tables.now) (variables_in variables.now.table.entries) (expr_tree expr.now)) }
{
    match &expr.kind {
        ExprKind::One(x) => check_atom(alloc, arena, tables, variables, None, x),
        ExprKind::Two(x, y) => check_pair(alloc, arena, tables, variables, expr.at, x, y),
        ExprKind::Not(x) => {
            check_atom(alloc, arena, tables, variables, Some(Ty::Bool), x)?;
            Ok(Some(Ty::Bool))
        }
        ExprKind::Op(op, x, y) => {
            let left = check_atom(alloc, arena, tables, variables, left_type(*op), x)?;
            let needed = right_type(*op, left);
            check_atom(alloc, arena, tables, variables, needed, y)?;
            Ok(Some(result_type(*op)))
        }
    }
}
