//! Tests whether atoms, expressions and right sides are equal but for their places.
ghost use Rattle.std.specs.Prelude.{◌≡◌, map, eqb};
ghost use Rattle.std.specs.Option.{option_map};
ghost use Rattle.tw_syntax.specs.Names.{name_tree, path_tree};
ghost use Rattle.tw_syntax.specs.Terms.{atom_tree, bound_tree, expr_tree, rhs_tree};
ghost use Rattle.tw_syntax.specs.Same.{op_number, same_atom, same_bound, same_each, same_expr, same_name, same_optional, same_path, same_rhs};

use crate::name::{Name, Path};
use crate::same_written::same_written;
use crate::term::{Atom, AtomKind, Bound, Expr, ExprKind, OpKind, Rhs};

/// Whether two names are equal but for their places.
pub fn same_name(x: &Name, y: &Name) -> bool
    ensures { result ≡ same_name (name_tree x.now) (name_tree y.now) }
{
    x.text == y.text
}

/// Whether two paths are equal but for their places.
pub fn same_path(x: &Path, y: &Path) -> bool
    ensures { result ≡ same_path (path_tree x.now) (path_tree y.now) }
{
    same_name(&x.root, &y.root) && x.steps == y.steps
}

/// Whether two operators are equal.
fn same_op(x: OpKind, y: OpKind) -> bool
    ensures { result ≡ eqb (op_number x) (op_number y) }
{
    x as u8 == y as u8
}

/// Whether two atoms are equal but for their places.
fn same_atom(x: &Atom, y: &Atom) -> bool
    ensures { result ≡ same_atom (atom_tree x.now) (atom_tree y.now) }
{
    match &x.kind {
        AtomKind::Place(path) => match &y.kind {
            AtomKind::Place(other) => same_path(path, other),
            _ => false,
        },
        AtomKind::Number(number) => match &y.kind {
            AtomKind::Number(other) => number == other,
            _ => false,
        },
        AtomKind::True => match &y.kind {
            AtomKind::True => true,
            _ => false,
        },
        AtomKind::False => match &y.kind {
            AtomKind::False => true,
            _ => false,
        },
        AtomKind::Unit => match &y.kind {
            AtomKind::Unit => true,
            _ => false,
        },
        AtomKind::Null(ty) => match &y.kind {
            AtomKind::Null(other) => same_written(ty, other),
            _ => false,
        },
        AtomKind::Zero(ty) => match &y.kind {
            AtomKind::Zero(other) => same_written(ty, other),
            _ => false,
        },
    }
}

/// Whether two expressions are equal but for their places.
fn same_expr(x: &Expr, y: &Expr) -> bool
    ensures { result ≡ same_expr (expr_tree x.now) (expr_tree y.now) }
{
    match &x.kind {
        ExprKind::One(a) => match &y.kind {
            ExprKind::One(b) => same_atom(a, b),
            _ => false,
        },
        ExprKind::Two(a, b) => match &y.kind {
            ExprKind::Two(c, d) => same_atom(a, c) && same_atom(b, d),
            _ => false,
        },
        ExprKind::Not(a) => match &y.kind {
            ExprKind::Not(b) => same_atom(a, b),
            _ => false,
        },
        ExprKind::Op(op, a, b) => match &y.kind {
            ExprKind::Op(other, c, d) => same_op(*op, *other) && same_atom(a, c) && same_atom(b, d),
            _ => false,
        },
    }
}

/// Whether two bounds are equal but for their places.
fn same_bound(x: &Bound, y: &Bound) -> bool
    ensures { result ≡ same_bound (bound_tree x.now) (bound_tree y.now) }
{
    match x {
        Bound::Fixed(number) => match y {
            Bound::Fixed(other) => number == other,
            _ => false,
        },
        Bound::Same(name) => match y {
            Bound::Same(other) => same_name(name, other),
            _ => false,
        },
        Bound::Less(name, number) => match y {
            Bound::Less(other, less) => same_name(name, other) && number == less,
            _ => false,
        },
    }
}

/// Whether two bounds, or their absence, are equal but for their places.
fn same_bounds(x: &Option<Bound>, y: &Option<Bound>) -> bool
    ensures { result ≡ same_optional same_bound (option_map bound_tree x.now) (option_map bound_tree y.now) }
{
    match x {
        None => y.is_none(),
        Some(bound) => match y {
            None => false,
            Some(other) => same_bound(bound, other),
        },
    }
}

/// Whether two lists of names are equal but for their places.
#[tactic(auto, using(crate::proofs::Lists::lengths))]
fn same_names(x: &[Name], y: &[Name]) -> bool
    ensures { result ≡ same_each same_name (map name_tree x.now) (map name_tree y.now) }
{
    if x.len() != y.len() {
        return false;
    }
    for i in 0..x.len() {
        if !same_name(&x[i], &y[i]) {
            return false;
        }
    }
    true
}

/// Whether two right sides are equal but for their places.
pub fn same_rhs(x: &Rhs, y: &Rhs) -> bool
    ensures { result ≡ same_rhs (rhs_tree x.now) (rhs_tree y.now) }
{
    match x {
        Rhs::Expr(expr) => match y {
            Rhs::Expr(other) => same_expr(expr, other),
            _ => false,
        },
        Rhs::Call {
            callee,
            bound,
            args,
        } => match y {
            Rhs::Call {
                callee: other,
                bound: limit,
                args: names,
            } => same_name(callee, other) && same_bounds(bound, limit) && same_names(args, names),
            _ => false,
        },
        Rhs::Alloc(ty) => match y {
            Rhs::Alloc(other) => same_written(ty, other),
            _ => false,
        },
    }
}
