//! Declarations and programs.

ghost use Rattle.std.specs.Prelude.{◌≡◌, suc, map};
ghost use Rattle.tw_syntax.specs.Types.{written_tree};
ghost use Rattle.tw_syntax.specs.Programs.{alias_tree, decl_tree, program_tree};
ghost use Rattle.tw_lex.specs.Left.{left_of};
ghost use Rattle.tw_parse.specs.reading.Steps.{Returns, all_at, put_first};
ghost use Rattle.tw_parse.specs.reading.Statements.{type_end_at, alias_at, decl_at, is_more, program_at, whole_at};

use crate::error::ParseError;
use crate::functions::fun;
use crate::take::{leads, take_name, take_symbol};
use crate::types::written;
use bumpalo::collections::into_bump_slice;
use tw_lex::{Cursor, Symbol};
use tw_syntax::{Alias, Decl, Program, Written, build_program};
use tw_text::{Arena, NESTING_LIMIT};

/// A type and a semicolon.
#[tactic(auto, unfolding(crate::specs::reading::Statements::type_end_at))]
fn type_end<'a>(
    arena: &'a Arena,
    cursor: &mut Cursor<'a>,
    room: u32,
) -> Result<&'a Written<'a>, ParseError>
    ensures { Returns (λ x. (written_tree x.now, left_of cursor.new)) result (type_end_at room (left_of cursor.old)) }
{
    let body = written(arena, cursor, room)?;
    take_symbol(Symbol::Semicolon, cursor)?;
    Ok(body)
}

/// A name for a type.
#[tactic(auto, unfolding(crate::specs::reading::Statements::alias_at))]
fn alias<'a>(arena: &'a Arena, cursor: &mut Cursor<'a>, room: u32) -> Result<Alias<'a>, ParseError>
    ensures { Returns (λ x. (alias_tree x, left_of cursor.new)) result (alias_at room (left_of cursor.old)) }
{
    take_symbol(Symbol::Type, cursor)?;
    let name = take_name(cursor)?;
    take_symbol(Symbol::Define, cursor)?;
    let body = type_end(arena, cursor, room)?;
    Ok(Alias { name, body })
}

/// A declaration, in which so many brackets may open.
#[tactic(auto, unfolding(crate::specs::reading::Statements::decl_at))]
fn decl<'a>(arena: &'a Arena, cursor: &mut Cursor<'a>, room: u32) -> Result<Decl<'a>, ParseError>
    ensures { Returns (λ x. (decl_tree x, left_of cursor.new)) result (decl_at room (left_of cursor.old)) }
{
    if leads(Symbol::Type, cursor) {
        let alias = alias(arena, cursor, room)?;
        return Ok(Decl::Alias(alias));
    }
    let fun = fun(arena, cursor, room)?;
    Ok(Decl::Fun(fun))
}

/// Whether a token is left.
fn has_more(cursor: &Cursor<'_>) -> bool
    ensures { result ≡ is_more (left_of cursor.now) }
{
    cursor.first().is_some()
}

/// A declaration that was read, and all that follow it.
fn more_decls<'a>(
    arena: &'a Arena,
    first: Decl<'a>,
    cursor: &mut Cursor<'a>,
    room: u32,
) -> Result<&'a [Decl<'a>], ParseError>
    ensures { Returns (λ x. (map decl_tree x.now, left_of cursor.new)) result (put_first (decl_tree first.entry) (all_at is_more (decl_at room) (left_of cursor.old))) }
{
    let mut decls = Vec::new(arena);
    decls.push(first)?;
    let count = cursor.left();
    for _ in 0..count {
        if !has_more(cursor) {
            return Ok(into_bump_slice(decls));
        }
        decls.push(decl(arena, cursor, room)?)?;
    }
    Ok(into_bump_slice(decls))
}

/// A program, in which so many brackets may open.
#[tactic(auto, unfolding(crate::specs::reading::Statements::program_at))]
fn program_in<'a>(
    arena: &'a Arena,
    cursor: &mut Cursor<'a>,
    room: u32,
) -> Result<&'a Program<'a>, ParseError>
    ensures { Returns (λ x. program_tree x.now) result (program_at room (left_of cursor.old)) }
{
    let first = decl(arena, cursor, room)?;
    let decls = more_decls(arena, first, cursor, room)?;
    Ok(build_program(arena, decls)?)
}

/// A program, in which brackets may be open up to their limit.
pub fn program<'a>(arena: &'a Arena, cursor: &mut Cursor<'a>) -> Result<&'a Program<'a>, ParseError>
    ensures { Returns (λ x. program_tree x.now) result (whole_at (left_of cursor.old)) }
{
    program_in(arena, cursor, NESTING_LIMIT as u32)
}
