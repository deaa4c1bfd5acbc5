//! Expressions.

ghost use Rattle.std.specs.Prelude.{◌≡◌, suc};
ghost use Rattle.tw_syntax.specs.Terms.{atom_tree, expr_tree};
ghost use Rattle.tw_lex.specs.Left.{left_of};
ghost use Rattle.tw_parse.specs.reading.Steps.{Returns};
ghost use Rattle.tw_parse.specs.reading.Terms.{op_of, op_at, not_at, two_at, paren_expr_at, op_expr_at, expr_at};

use crate::atoms::atom;
use crate::error::ParseError;
use crate::take::{leads, place, take_open, take_symbol};
use tw_lex::{Cursor, Symbol};
use tw_syntax::{Atom, AtomKind, Expr, ExprKind, OpKind};
use tw_text::{Arena, Pos};

/// The operator that stands here.
fn operator(cursor: &Cursor<'_>) -> Option<OpKind>
    ensures { result ≡ op_of (left_of cursor.now) }
{
    if leads(Symbol::Plus, cursor) {
        return Some(OpKind::Add);
    }
    if leads(Symbol::Minus, cursor) {
        return Some(OpKind::Sub);
    }
    if leads(Symbol::Star, cursor) {
        return Some(OpKind::Mul);
    }
    if leads(Symbol::Less, cursor) {
        return Some(OpKind::Lt);
    }
    if leads(Symbol::Equal, cursor) {
        return Some(OpKind::Eq);
    }
    if leads(Symbol::NotEqual, cursor) {
        return Some(OpKind::Ne);
    }
    if leads(Symbol::And, cursor) {
        return Some(OpKind::And);
    }
    if leads(Symbol::Or, cursor) {
        return Some(OpKind::Or);
    }
    None
}

/// What follows the first atom of an expression: nothing, or an operator and an atom.
#[tactic(auto, unfolding(crate::specs::reading::Terms::op_at))]
fn operation<'a>(
    arena: &'a Arena,
    place: Pos,
    left: Atom<'a>,
    cursor: &mut Cursor<'a>,
    room: u32,
) -> Result<Expr<'a>, ParseError>
    ensures { Returns (λ x. (expr_tree x, left_of cursor.new)) result (op_at place (atom_tree left.entry) room (left_of cursor.old)) }
{
    match operator(cursor) {
        None => Ok(Expr {
            at: place,
            kind: ExprKind::One(left),
        }),
        Some(op) => {
            cursor.advance();
            let right = atom(arena, cursor, room)?;
            Ok(Expr {
                at: place,
                kind: ExprKind::Op(op, left, right),
            })
        }
    }
}

/// `not` and an atom.
#[tactic(auto, unfolding(crate::specs::reading::Terms::not_at))]
fn negation<'a>(
    arena: &'a Arena,
    cursor: &mut Cursor<'a>,
    room: u32,
) -> Result<Expr<'a>, ParseError>
    ensures { Returns (λ x. (expr_tree x, left_of cursor.new)) result (not_at room (left_of cursor.old)) }
{
    let place = take_symbol(Symbol::Not, cursor)?;
    let negated = atom(arena, cursor, room)?;
    Ok(Expr {
        at: place,
        kind: ExprKind::Not(negated),
    })
}

/// A pair of atoms, after its `(`.
#[tactic(auto, unfolding(crate::specs::reading::Terms::two_at))]
fn two<'a>(
    arena: &'a Arena,
    place: Pos,
    cursor: &mut Cursor<'a>,
    room: u32,
) -> Result<Expr<'a>, ParseError>
    ensures { Returns (λ x. (expr_tree x, left_of cursor.new)) result (two_at place (suc room) (left_of cursor.old)) }
{
    let first = atom(arena, cursor, room)?;
    take_symbol(Symbol::Comma, cursor)?;
    let second = atom(arena, cursor, room)?;
    take_symbol(Symbol::CloseParen, cursor)?;
    Ok(Expr {
        at: place,
        kind: ExprKind::Two(first, second),
    })
}

/// An expression that begins with `(`.
#[tactic(auto, unfolding(crate::specs::reading::Terms::paren_expr_at))]
fn paren<'a>(arena: &'a Arena, cursor: &mut Cursor<'a>, room: u32) -> Result<Expr<'a>, ParseError>
    ensures { Returns (λ x. (expr_tree x, left_of cursor.new)) result (paren_expr_at room (left_of cursor.old)) }
{
    let place = take_open(Symbol::OpenParen, room, cursor)?;
    if leads(Symbol::CloseParen, cursor) {
        take_symbol(Symbol::CloseParen, cursor)?;
        let left = Atom {
            at: place,
            kind: AtomKind::Unit,
        };
        return operation(arena, place, left, cursor, room);
    }
    two(arena, place, cursor, room - 1)
}

/// An atom, or two with an operator.
#[tactic(auto, unfolding(crate::specs::reading::Terms::op_expr_at))]
fn atoms<'a>(arena: &'a Arena, cursor: &mut Cursor<'a>, room: u32) -> Result<Expr<'a>, ParseError>
    ensures { Returns (λ x. (expr_tree x, left_of cursor.new)) result (op_expr_at room (left_of cursor.old)) }
{
    let place = place(cursor)?;
    let left = atom(arena, cursor, room)?;
    operation(arena, place, left, cursor, room)
}

/// An expression, in which so many brackets may open.
#[tactic(auto, unfolding(crate::specs::reading::Terms::expr_at))]
pub fn expr<'a>(
    arena: &'a Arena,
    cursor: &mut Cursor<'a>,
    room: u32,
) -> Result<Expr<'a>, ParseError>
    ensures { Returns (λ x. (expr_tree x, left_of cursor.new)) result (expr_at room (left_of cursor.old)) }
{
    if leads(Symbol::Not, cursor) {
        return negation(arena, cursor, room);
    }
    if leads(Symbol::OpenParen, cursor) {
        return paren(arena, cursor, room);
    }
    atoms(arena, cursor, room)
}
