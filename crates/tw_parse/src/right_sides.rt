//! The right sides of `let`.

ghost use Rattle.std.specs.Prelude.{◌≡◌};
ghost use Rattle.tw_syntax.specs.Terms.{rhs_tree};
ghost use Rattle.tw_lex.specs.Left.{left_of};
ghost use Rattle.tw_parse.specs.reading.Steps.{Returns};
ghost use Rattle.tw_parse.specs.reading.Terms.{alloc_at, rhs_at};

use crate::calls::{call, leads_call};
use crate::error::ParseError;
use crate::expressions::expr;
use crate::take::{leads, take_symbol};
use crate::types::type_argument;
use tw_lex::{Cursor, Symbol};
use tw_syntax::Rhs;
use tw_text::Arena;

/// `alloc` and a type in type_argument brackets.
#[tactic(auto, unfolding(crate::specs::reading::Terms::alloc_at))]
fn alloc<'a>(arena: &'a Arena, cursor: &mut Cursor<'a>, room: u32) -> Result<Rhs<'a>, ParseError>
    ensures { Returns (λ x. (rhs_tree x, left_of cursor.new)) result (alloc_at room (left_of cursor.old)) }
{
    take_symbol(Symbol::Alloc, cursor)?;
    let of = type_argument(arena, cursor, room)?;
    Ok(Rhs::Alloc(of))
}

/// A right side, in which so many brackets may open.
#[tactic(auto, unfolding(crate::specs::reading::Terms::rhs_at))]
pub fn rhs<'a>(arena: &'a Arena, cursor: &mut Cursor<'a>, room: u32) -> Result<Rhs<'a>, ParseError>
    ensures { Returns (λ x. (rhs_tree x, left_of cursor.new)) result (rhs_at room (left_of cursor.old)) }
{
    if leads(Symbol::Alloc, cursor) {
        return alloc(arena, cursor, room);
    }
    if leads_call(cursor) {
        return call(arena, cursor, room);
    }
    let expr = expr(arena, cursor, room)?;
    Ok(Rhs::Expr(expr))
}
