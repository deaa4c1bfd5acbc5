//! Statements, and the blocks that they hold.

ghost use Rattle.std.specs.Prelude.{◌≡◌, suc, map};
ghost use Rattle.tw_syntax.specs.Statements.{stmt_tree, else_tree};
ghost use Rattle.tw_lex.specs.Left.{left_of};
ghost use Rattle.tw_parse.specs.reading.Steps.{Returns, all_at};
ghost use Rattle.tw_parse.specs.reading.Statements.{goes_before, block_with, block_stmt_with, else_with, if_with, with_with, stmt_at};

use crate::error::ParseError;
use crate::paths::path;
use crate::simple::plain_stmt;
use crate::take::{leads, place, take_open, take_symbol};
use bumpalo::collections::into_bump_slice;
use tw_lex::{Cursor, Symbol};
use tw_syntax::{No, Stmt, block as block_of, choice, otherwise, with_block};
use tw_text::Arena;

/// The statements before this mark, in which so many brackets may open.
#[cycle(statements)]
pub fn stmts<'a>(
    arena: &'a Arena,
    end: Symbol,
    cursor: &mut Cursor<'a>,
    room: u32,
) -> Result<&'a [Stmt<'a>], ParseError>
    ensures { Returns (λ x. (map stmt_tree x.now, left_of cursor.new)) result (all_at (goes_before end) (stmt_at (suc room)) (left_of cursor.old)) }
{
    let count = cursor.left();
    let mut stmts = Vec::with_capacity(arena, 1)?;
    for _ in 0..count {
        if leads(end, cursor) {
            return Ok(into_bump_slice(stmts));
        }
        stmts.push(stmt(arena, cursor, room)?)?;
    }
    Ok(into_bump_slice(stmts))
}

/// Statements in braces.
#[cycle(statements)]
#[tactic(auto, unfolding(crate::specs::reading::Statements::block_with))]
fn block<'a>(
    arena: &'a Arena,
    cursor: &mut Cursor<'a>,
    room: u32,
) -> Result<&'a [Stmt<'a>], ParseError>
    ensures { Returns (λ x. (map stmt_tree x.now, left_of cursor.new)) result (block_with (stmt_at room) room (left_of cursor.old)) }
{
    take_open(Symbol::OpenBrace, room, cursor)?;
    let stmts = stmts(arena, Symbol::CloseBrace, cursor, room - 1)?;
    take_symbol(Symbol::CloseBrace, cursor)?;
    Ok(stmts)
}

/// A block as a statement.
#[cycle(statements)]
#[tactic(auto, using(crate::proofs::code::Chains::chains), unfolding(crate::specs::reading::Statements::block_stmt_with))]
fn block_stmt<'a>(
    arena: &'a Arena,
    cursor: &mut Cursor<'a>,
    room: u32,
) -> Result<Stmt<'a>, ParseError>
    ensures { Returns (λ x. (stmt_tree x, left_of cursor.new)) result (block_stmt_with (stmt_at room) room (left_of cursor.old)) }
{
    let place = place(cursor)?;
    let stmts = block(arena, cursor, room)?;
    Ok(block_of(place, stmts))
}

/// An `else` and its block, where there is one.
#[cycle(statements)]
#[tactic(auto, using(crate::proofs::code::Chains::chains), unfolding(crate::specs::reading::Statements::else_with))]
fn other<'a>(
    arena: &'a Arena,
    cursor: &mut Cursor<'a>,
    room: u32,
) -> Result<Option<No<'a>>, ParseError>
    ensures { Returns (λ x. (else_tree x, left_of cursor.new)) result (else_with (stmt_at room) room (left_of cursor.old)) }
{
    if leads(Symbol::Else, cursor) {
        let place = take_symbol(Symbol::Else, cursor)?;
        let stmts = block(arena, cursor, room)?;
        return Ok(Some(otherwise(place, stmts)));
    }
    Ok(None)
}

/// An `if`.
#[cycle(statements)]
#[tactic(auto, using(crate::proofs::code::Chains::chains), unfolding(crate::specs::reading::Statements::if_with))]
fn if_stmt<'a>(arena: &'a Arena, cursor: &mut Cursor<'a>, room: u32) -> Result<Stmt<'a>, ParseError>
    ensures { Returns (λ x. (stmt_tree x, left_of cursor.new)) result (if_with (stmt_at room) room (left_of cursor.old)) }
{
    let place = take_symbol(Symbol::If, cursor)?;
    let cond = path(arena, cursor)?;
    let body = block(arena, cursor, room)?;
    let other = other(arena, cursor, room)?;
    Ok(choice(place, cond, body, other))
}

/// A `with`.
#[cycle(statements)]
#[tactic(auto, using(crate::proofs::code::Chains::chains), unfolding(crate::specs::reading::Statements::with_with))]
fn with_stmt<'a>(
    arena: &'a Arena,
    cursor: &mut Cursor<'a>,
    room: u32,
) -> Result<Stmt<'a>, ParseError>
    ensures { Returns (λ x. (stmt_tree x, left_of cursor.new)) result (with_with (stmt_at room) room (left_of cursor.old)) }
{
    let place = take_symbol(Symbol::With, cursor)?;
    let setup = block(arena, cursor, room)?;
    take_symbol(Symbol::Do, cursor)?;
    let work = block(arena, cursor, room)?;
    Ok(with_block(place, setup, work))
}

/// A statement, in which so many brackets may open.
#[cycle(statements)]
#[tactic(auto, unfolding(crate::specs::reading::Statements::stmt_at, crate::specs::reading::Statements::stmt_with))]
fn stmt<'a>(arena: &'a Arena, cursor: &mut Cursor<'a>, room: u32) -> Result<Stmt<'a>, ParseError>
    ensures { Returns (λ x. (stmt_tree x, left_of cursor.new)) result (stmt_at (suc room) (left_of cursor.old)) }
{
    if leads(Symbol::If, cursor) {
        return if_stmt(arena, cursor, room);
    }
    if leads(Symbol::With, cursor) {
        return with_stmt(arena, cursor, room);
    }
    if leads(Symbol::OpenBrace, cursor) {
        return block_stmt(arena, cursor, room);
    }
    plain_stmt(arena, cursor, room)
}
