//! Types.

ghost use Rattle.std.specs.Prelude.{◌≡◌, ◌+◌, ◌<◌, suc};
ghost use Rattle.tw_syntax.specs.Types.{written_tree};
ghost use Rattle.tw_lex.specs.Left.{left_of};
ghost use Rattle.tw_parse.specs.reading.Steps.{Returns};
ghost use Rattle.tw_parse.specs.reading.Terms.{type_at, ptr_with, paren_with, pair_with, plain_type_at, type_argument_with};

use crate::error::ParseError;
use crate::take::{leads, take_name, take_open, take_symbol};
use tw_lex::{Cursor, Symbol};
use tw_syntax::{Written, WrittenKind, build_written};
use tw_text::{Arena, Pos};

/// `uint`, `bool` or a name.
#[tactic(auto, unfolding(crate::specs::reading::Terms::plain_type_at))]
fn plain_type<'a>(arena: &'a Arena, cursor: &mut Cursor<'a>) -> Result<&'a Written<'a>, ParseError>
    ensures { Returns (λ x. (written_tree x.now, left_of cursor.new)) result (plain_type_at (left_of cursor.old)) }
{
    if leads(Symbol::Uint, cursor) {
        let place = take_symbol(Symbol::Uint, cursor)?;
        return Ok(build_written(arena, place, WrittenKind::Uint)?);
    }
    if leads(Symbol::Bool, cursor) {
        let place = take_symbol(Symbol::Bool, cursor)?;
        return Ok(build_written(arena, place, WrittenKind::Bool)?);
    }
    let name = take_name(cursor)?;
    Ok(build_written(arena, name.at, WrittenKind::Named(name.text))?)
}

/// A type in type_argument brackets.
#[cycle(types)]
#[tactic(auto, unfolding(crate::specs::reading::Terms::type_argument_with))]
pub fn type_argument<'a>(
    arena: &'a Arena,
    cursor: &mut Cursor<'a>,
    room: u32,
) -> Result<&'a Written<'a>, ParseError>
    ensures { Returns (λ x. (written_tree x.now, left_of cursor.new)) result (type_argument_with (type_at room) room (left_of cursor.old)) }
{
    take_open(Symbol::Less, room, cursor)?;
    let to = written(arena, cursor, room - 1)?;
    take_symbol(Symbol::Greater, cursor)?;
    Ok(to)
}

/// `ptr` and a type in type_argument brackets.
#[cycle(types)]
#[tactic(auto, unfolding(crate::specs::reading::Terms::ptr_with))]
fn ptr<'a>(
    arena: &'a Arena,
    cursor: &mut Cursor<'a>,
    room: u32,
) -> Result<&'a Written<'a>, ParseError>
    ensures { Returns (λ x. (written_tree x.now, left_of cursor.new)) result (ptr_with (type_at room) room (left_of cursor.old)) }
{
    let place = take_symbol(Symbol::Ptr, cursor)?;
    let to = type_argument(arena, cursor, room)?;
    Ok(build_written(arena, place, WrittenKind::Ptr(to))?)
}

/// A pair of types, after its `(`.
#[cycle(types)]
#[tactic(auto, unfolding(crate::specs::reading::Terms::pair_with))]
fn pair<'a>(
    arena: &'a Arena,
    place: Pos,
    cursor: &mut Cursor<'a>,
    room: u32,
) -> Result<&'a Written<'a>, ParseError>
    ensures { Returns (λ x. (written_tree x.now, left_of cursor.new)) result (pair_with (type_at (suc room)) place (left_of cursor.old)) }
{
    let first = written(arena, cursor, room)?;
    take_symbol(Symbol::Comma, cursor)?;
    let second = written(arena, cursor, room)?;
    take_symbol(Symbol::CloseParen, cursor)?;
    Ok(build_written(arena, place, WrittenKind::Pair(first, second))?)
}

/// The unit type, or a pair of types.
#[cycle(types)]
#[tactic(auto, unfolding(crate::specs::reading::Terms::paren_with))]
fn paren<'a>(
    arena: &'a Arena,
    cursor: &mut Cursor<'a>,
    room: u32,
) -> Result<&'a Written<'a>, ParseError>
    ensures { Returns (λ x. (written_tree x.now, left_of cursor.new)) result (paren_with (type_at room) room (left_of cursor.old)) }
{
    let place = take_open(Symbol::OpenParen, room, cursor)?;
    if leads(Symbol::CloseParen, cursor) {
        take_symbol(Symbol::CloseParen, cursor)?;
        return Ok(build_written(arena, place, WrittenKind::Unit)?);
    }
    pair(arena, place, cursor, room - 1)
}

/// A type, in which so many brackets may open.
#[cycle(types)]
#[tactic(auto, unfolding(crate::specs::reading::Terms::type_at, crate::specs::reading::Terms::type_with))]
pub fn written<'a>(
    arena: &'a Arena,
    cursor: &mut Cursor<'a>,
    room: u32,
) -> Result<&'a Written<'a>, ParseError>
    ensures { Returns (λ x. (written_tree x.now, left_of cursor.new)) result (type_at (suc room) (left_of cursor.old)) }
{
    if leads(Symbol::Ptr, cursor) {
        return ptr(arena, cursor, room);
    }
    if leads(Symbol::OpenParen, cursor) {
        return paren(arena, cursor, room);
    }
    plain_type(arena, cursor)
}
