//! The statements that hold no others.

ghost use Rattle.std.specs.Prelude.{◌≡◌};
ghost use Rattle.tw_syntax.specs.Names.{path_tree};
ghost use Rattle.tw_syntax.specs.Terms.{rhs_tree};
ghost use Rattle.tw_syntax.specs.Statements.{stmt_tree};
ghost use Rattle.tw_lex.specs.Left.{left_of};
ghost use Rattle.tw_parse.specs.reading.Steps.{Returns};
ghost use Rattle.tw_parse.specs.reading.Statements.{direction_at, rhs_end_at, let_at, exchange_at, swap_at, mem_swap_at, skip_at, plain_stmt_at};

use crate::error::ParseError;
use crate::paths::path;
use crate::right_sides::rhs;
use crate::take::{leads, take_name, take_symbol};
use tw_lex::{Cursor, Symbol};
use tw_syntax::{Path, Rhs, Stmt, StmtKind};
use tw_text::Arena;

/// `<-`, which is `true`, or `->`, which is `false`.
#[tactic(auto, unfolding(crate::specs::reading::Statements::direction_at))]
fn direction(cursor: &mut Cursor<'_>) -> Result<bool, ParseError>
    ensures { Returns (λ x. (x, left_of cursor.new)) result (direction_at (left_of cursor.old)) }
{
    if leads(Symbol::Assign, cursor) {
        take_symbol(Symbol::Assign, cursor)?;
        return Ok(true);
    }
    take_symbol(Symbol::Arrow, cursor)?;
    Ok(false)
}

/// A right side and a semicolon.
#[tactic(auto, unfolding(crate::specs::reading::Statements::rhs_end_at))]
fn rhs_end<'a>(arena: &'a Arena, cursor: &mut Cursor<'a>, room: u32) -> Result<Rhs<'a>, ParseError>
    ensures { Returns (λ x. (rhs_tree x, left_of cursor.new)) result (rhs_end_at room (left_of cursor.old)) }
{
    let rhs = rhs(arena, cursor, room)?;
    take_symbol(Symbol::Semicolon, cursor)?;
    Ok(rhs)
}

/// A `let`.
#[tactic(auto, unfolding(crate::specs::reading::Statements::let_at))]
fn let_stmt<'a>(
    arena: &'a Arena,
    cursor: &mut Cursor<'a>,
    room: u32,
) -> Result<Stmt<'a>, ParseError>
    ensures { Returns (λ x. (stmt_tree x, left_of cursor.new)) result (let_at room (left_of cursor.old)) }
{
    let place = take_symbol(Symbol::Let, cursor)?;
    let target = take_name(cursor)?;
    let forward = direction(cursor)?;
    let rhs = rhs_end(arena, cursor, room)?;
    Ok(Stmt {
        at: place,
        kind: StmtKind::Let {
            forward,
            target,
            rhs,
        },
    })
}

/// `<->`, a path and a semicolon.
#[tactic(auto, unfolding(crate::specs::reading::Statements::exchange_at))]
fn exchange<'a>(arena: &'a Arena, cursor: &mut Cursor<'a>) -> Result<Path<'a>, ParseError>
    ensures { Returns (λ x. (path_tree x, left_of cursor.new)) result (exchange_at (left_of cursor.old)) }
{
    take_symbol(Symbol::Swap, cursor)?;
    let path = path(arena, cursor)?;
    take_symbol(Symbol::Semicolon, cursor)?;
    Ok(path)
}

/// A swap of two paths.
#[tactic(auto, unfolding(crate::specs::reading::Statements::swap_at))]
fn swap<'a>(arena: &'a Arena, cursor: &mut Cursor<'a>) -> Result<Stmt<'a>, ParseError>
    ensures { Returns (λ x. (stmt_tree x, left_of cursor.new)) result (swap_at (left_of cursor.old)) }
{
    let left = path(arena, cursor)?;
    let right = exchange(arena, cursor)?;
    Ok(Stmt {
        at: left.root.at,
        kind: StmtKind::Swap(left, right),
    })
}

/// A swap with the value that a pointer points to.
#[tactic(auto, unfolding(crate::specs::reading::Statements::mem_swap_at))]
fn mem_swap<'a>(arena: &'a Arena, cursor: &mut Cursor<'a>) -> Result<Stmt<'a>, ParseError>
    ensures { Returns (λ x. (stmt_tree x, left_of cursor.new)) result (mem_swap_at (left_of cursor.old)) }
{
    let place = take_symbol(Symbol::Star, cursor)?;
    let pointer = path(arena, cursor)?;
    let value = exchange(arena, cursor)?;
    Ok(Stmt {
        at: place,
        kind: StmtKind::MemSwap(pointer, value),
    })
}

/// `skip` and a semicolon.
#[tactic(auto, unfolding(crate::specs::reading::Statements::skip_at))]
fn skip<'a>(cursor: &mut Cursor<'a>) -> Result<Stmt<'a>, ParseError>
    ensures { Returns (λ x. (stmt_tree x, left_of cursor.new)) result (skip_at (left_of cursor.old)) }
{
    let place = take_symbol(Symbol::Skip, cursor)?;
    take_symbol(Symbol::Semicolon, cursor)?;
    Ok(Stmt {
        at: place,
        kind: StmtKind::Skip,
    })
}

/// A statement that holds no others, in which so many brackets may open.
#[tactic(auto, unfolding(crate::specs::reading::Statements::plain_stmt_at))]
pub fn plain_stmt<'a>(
    arena: &'a Arena,
    cursor: &mut Cursor<'a>,
    room: u32,
) -> Result<Stmt<'a>, ParseError>
    ensures { Returns (λ x. (stmt_tree x, left_of cursor.new)) result (plain_stmt_at room (left_of cursor.old)) }
{
    if leads(Symbol::Let, cursor) {
        return let_stmt(arena, cursor, room);
    }
    if leads(Symbol::Star, cursor) {
        return mem_swap(arena, cursor);
    }
    if leads(Symbol::Skip, cursor) {
        return skip(cursor);
    }
    swap(arena, cursor)
}
