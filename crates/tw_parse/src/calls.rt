//! Calls, with their bounds and arguments.

ghost use Rattle.std.specs.Prelude.{◌≡◌, map};
ghost use Rattle.std.specs.Option.{option_map};
ghost use Rattle.tw_syntax.specs.Names.{name_tree};
ghost use Rattle.tw_syntax.specs.Terms.{bound_tree, rhs_tree};
ghost use Rattle.tw_lex.specs.declared.symbol.Symbol.TheVariants as symbols;
ghost use Rattle.tw_lex.specs.Left.{left_of};
ghost use Rattle.tw_parse.specs.reading.Steps.{Returns, all_at, leads, put_first};
ghost use Rattle.tw_parse.specs.reading.Terms.{named_bound_at, bound_at, call_bound_at, comma_name_at, names_at, args_at, call_at, leads_call};

use crate::error::ParseError;
use crate::take::{
    leads, leads_name, leads_number, take_bound_number, take_name, take_open, take_symbol,
};
use bumpalo::collections::into_bump_slice;
use tw_lex::{Cursor, Symbol};
use tw_syntax::{Bound, Name, Rhs};
use tw_text::Arena;

/// A bound that begins with a name.
#[tactic(auto, unfolding(crate::specs::reading::Terms::named_bound_at))]
fn named_bound<'a>(cursor: &mut Cursor<'a>) -> Result<Bound<'a>, ParseError>
    ensures { Returns (λ x. (bound_tree x, left_of cursor.new)) result (named_bound_at (left_of cursor.old)) }
{
    let name = take_name(cursor)?;
    if leads(Symbol::Minus, cursor) {
        take_symbol(Symbol::Minus, cursor)?;
        let less = take_bound_number(cursor)?;
        return Ok(Bound::Less(name, less));
    }
    Ok(Bound::Same(name))
}

/// A bound.
#[tactic(auto, unfolding(crate::specs::reading::Terms::bound_at))]
fn bound<'a>(cursor: &mut Cursor<'a>) -> Result<Bound<'a>, ParseError>
    ensures { Returns (λ x. (bound_tree x, left_of cursor.new)) result (bound_at (left_of cursor.old)) }
{
    if leads_number(cursor) {
        let number = take_bound_number(cursor)?;
        return Ok(Bound::Fixed(number));
    }
    named_bound(cursor)
}

/// The bound of a call in its brackets, where there is one.
#[tactic(auto, unfolding(crate::specs::reading::Terms::call_bound_at))]
fn call_bound<'a>(cursor: &mut Cursor<'a>) -> Result<Option<Bound<'a>>, ParseError>
    ensures { Returns (λ x. (option_map bound_tree x, left_of cursor.new)) result (call_bound_at (left_of cursor.old)) }
{
    if !leads(Symbol::OpenBracket, cursor) {
        return Ok(None);
    }
    take_symbol(Symbol::OpenBracket, cursor)?;
    let bound = bound(cursor)?;
    take_symbol(Symbol::CloseBracket, cursor)?;
    Ok(Some(bound))
}

/// A comma and a name.
#[tactic(auto, unfolding(crate::specs::reading::Terms::comma_name_at))]
fn comma_name<'a>(cursor: &mut Cursor<'a>) -> Result<Name<'a>, ParseError>
    ensures { Returns (λ x. (name_tree x, left_of cursor.new)) result (comma_name_at (left_of cursor.old)) }
{
    take_symbol(Symbol::Comma, cursor)?;
    take_name(cursor)
}

/// A name that was read, and all that follow it after commas.
fn more_names<'a>(
    arena: &'a Arena,
    first: Name<'a>,
    cursor: &mut Cursor<'a>,
) -> Result<&'a [Name<'a>], ParseError>
    ensures { Returns (λ x. (map name_tree x.now, left_of cursor.new)) result (put_first (name_tree first.entry) (all_at (leads symbols.Comma) comma_name_at (left_of cursor.old))) }
{
    let mut names = Vec::new(arena);
    names.push(first)?;
    let count = cursor.left();
    for _ in 0..count {
        if !leads(Symbol::Comma, cursor) {
            return Ok(into_bump_slice(names));
        }
        names.push(comma_name(cursor)?)?;
    }
    Ok(into_bump_slice(names))
}

/// Names with commas between them, or nothing.
#[tactic(auto, unfolding(crate::specs::reading::Terms::names_at))]
fn names<'a>(arena: &'a Arena, cursor: &mut Cursor<'a>) -> Result<&'a [Name<'a>], ParseError>
    ensures { Returns (λ x. (map name_tree x.now, left_of cursor.new)) result (names_at (left_of cursor.old)) }
{
    if !leads_name(cursor) {
        return Ok(&[]);
    }
    let first = take_name(cursor)?;
    more_names(arena, first, cursor)
}

/// The arguments of a call.
#[tactic(auto, unfolding(crate::specs::reading::Terms::args_at))]
fn args<'a>(
    arena: &'a Arena,
    cursor: &mut Cursor<'a>,
    room: u32,
) -> Result<&'a [Name<'a>], ParseError>
    ensures { Returns (λ x. (map name_tree x.now, left_of cursor.new)) result (args_at room (left_of cursor.old)) }
{
    take_open(Symbol::OpenParen, room, cursor)?;
    let names = names(arena, cursor)?;
    take_symbol(Symbol::CloseParen, cursor)?;
    Ok(names)
}

/// Whether a call stands here.
pub fn leads_call(cursor: &Cursor<'_>) -> bool
    ensures { result ≡ leads_call (left_of cursor.now) }
{
    if !leads_name(cursor) {
        return false;
    }
    let mut next = *cursor;
    next.advance();
    leads(Symbol::OpenBracket, &next) || leads(Symbol::OpenParen, &next)
}

/// A call, in which so many brackets may open.
#[tactic(auto, unfolding(crate::specs::reading::Terms::call_at))]
pub fn call<'a>(arena: &'a Arena, cursor: &mut Cursor<'a>, room: u32) -> Result<Rhs<'a>, ParseError>
    ensures { Returns (λ x. (rhs_tree x, left_of cursor.new)) result (call_at room (left_of cursor.old)) }
{
    let callee = take_name(cursor)?;
    let bound = call_bound(cursor)?;
    let args = args(arena, cursor, room)?;
    Ok(Rhs::Call {
        callee,
        bound,
        args,
    })
}
