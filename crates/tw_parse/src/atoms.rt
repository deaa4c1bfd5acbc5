//! Atoms.

ghost use Rattle.std.specs.Prelude.{◌≡◌, suc};
ghost use Rattle.tw_syntax.specs.Terms.{atom_tree};
ghost use Rattle.tw_lex.specs.Left.{left_of};
ghost use Rattle.tw_parse.specs.reading.Steps.{Returns};
ghost use Rattle.tw_parse.specs.reading.Terms.{unit_at, null_at, zero_at, plain_atom_at, atom_at};

use crate::error::ParseError;
use crate::paths::path;
use crate::take::{leads, leads_number, place, take_number, take_open, take_symbol};
use crate::types::type_argument;
use tw_lex::{Cursor, Symbol};
use tw_syntax::{Atom, AtomKind};
use tw_text::Arena;

/// The unit value.
#[tactic(auto, unfolding(crate::specs::reading::Terms::unit_at))]
fn unit<'a>(cursor: &mut Cursor<'a>, room: u32) -> Result<Atom<'a>, ParseError>
    ensures { Returns (λ x. (atom_tree x, left_of cursor.new)) result (unit_at room (left_of cursor.old)) }
{
    let place = take_open(Symbol::OpenParen, room, cursor)?;
    take_symbol(Symbol::CloseParen, cursor)?;
    Ok(Atom {
        at: place,
        kind: AtomKind::Unit,
    })
}

/// A null pointer.
#[tactic(auto, unfolding(crate::specs::reading::Terms::null_at))]
fn null<'a>(arena: &'a Arena, cursor: &mut Cursor<'a>, room: u32) -> Result<Atom<'a>, ParseError>
    ensures { Returns (λ x. (atom_tree x, left_of cursor.new)) result (null_at room (left_of cursor.old)) }
{
    let place = take_symbol(Symbol::Null, cursor)?;
    let to = type_argument(arena, cursor, room)?;
    Ok(Atom {
        at: place,
        kind: AtomKind::Null(to),
    })
}

/// The default value of a type.
#[tactic(auto, unfolding(crate::specs::reading::Terms::zero_at))]
fn zero<'a>(arena: &'a Arena, cursor: &mut Cursor<'a>, room: u32) -> Result<Atom<'a>, ParseError>
    ensures { Returns (λ x. (atom_tree x, left_of cursor.new)) result (zero_at room (left_of cursor.old)) }
{
    let place = take_symbol(Symbol::Default, cursor)?;
    let of = type_argument(arena, cursor, room)?;
    Ok(Atom {
        at: place,
        kind: AtomKind::Zero(of),
    })
}

/// An atom without brackets.
#[tactic(auto, unfolding(crate::specs::reading::Terms::plain_atom_at))]
fn plain_atom<'a>(arena: &'a Arena, cursor: &mut Cursor<'a>) -> Result<Atom<'a>, ParseError>
    ensures { Returns (λ x. (atom_tree x, left_of cursor.new)) result (plain_atom_at (left_of cursor.old)) }
{
    if leads(Symbol::True, cursor) {
        let place = take_symbol(Symbol::True, cursor)?;
        return Ok(Atom {
            at: place,
            kind: AtomKind::True,
        });
    }
    if leads(Symbol::False, cursor) {
        let place = take_symbol(Symbol::False, cursor)?;
        return Ok(Atom {
            at: place,
            kind: AtomKind::False,
        });
    }
    if leads_number(cursor) {
        let place = place(cursor)?;
        let value = take_number(cursor)?;
        return Ok(Atom {
            at: place,
            kind: AtomKind::Number(value),
        });
    }
    let path = path(arena, cursor)?;
    Ok(Atom {
        at: path.root.at,
        kind: AtomKind::Place(path),
    })
}

/// An atom, in which so many brackets may open.
#[tactic(auto, unfolding(crate::specs::reading::Terms::atom_at, crate::specs::reading::Terms::atom_with))]
pub fn atom<'a>(
    arena: &'a Arena,
    cursor: &mut Cursor<'a>,
    room: u32,
) -> Result<Atom<'a>, ParseError>
    ensures { Returns (λ x. (atom_tree x, left_of cursor.new)) result (atom_at (suc room) (left_of cursor.old)) }
{
    if leads(Symbol::OpenParen, cursor) {
        return unit(cursor, room);
    }
    if leads(Symbol::Null, cursor) {
        return null(arena, cursor, room);
    }
    if leads(Symbol::Default, cursor) {
        return zero(arena, cursor, room);
    }
    plain_atom(arena, cursor)
}
