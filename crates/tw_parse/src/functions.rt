//! Functions.

ghost use Rattle.std.specs.Prelude.{◌≡◌, suc, map};
ghost use Rattle.std.specs.Option.{option_map};
ghost use Rattle.tw_syntax.specs.Names.{name_tree};
ghost use Rattle.tw_syntax.specs.Types.{written_tree};
ghost use Rattle.tw_syntax.specs.Programs.{param_tree, fun_tree};
ghost use Rattle.tw_lex.specs.declared.symbol.Symbol.TheVariants as symbols;
ghost use Rattle.tw_lex.specs.Left.{left_of};
ghost use Rattle.tw_parse.specs.reading.Steps.{Returns, all_at, leads, put_first};
ghost use Rattle.tw_parse.specs.reading.Terms.{type_at};
ghost use Rattle.tw_parse.specs.reading.Statements.{param_with, comma_param_with, param_list_with, params_at, fun_bound_at, title_at, interface_at, return_at, body_at, fun_at};
ghost use Rattle.tw_parse.specs.reading.Parts.{title_of, interface_of, return_of, body_of};

use crate::error::ParseError;
use crate::statements::stmts;
use crate::take::{leads, leads_name, take_name, take_open, take_symbol};
use crate::types::written;
use bumpalo::collections::into_bump_slice;
use tw_lex::{Cursor, Symbol};
use tw_syntax::{Fun, Name, Param, Stmt, Written};
use tw_text::{Arena, Pos};

/// A function's name and bound.
#[derive(Clone, Copy)]
pub struct Title<'a> {
    pub name: Name<'a>,
    pub bound: Option<Name<'a>>,
}

/// A function's parameters and the type of its result.
#[derive(Clone, Copy)]
pub struct Interface<'a> {
    pub params: &'a [Param<'a>],
    pub result: &'a Written<'a>,
}

/// The end of a function's body.
#[derive(Clone, Copy)]
pub struct Return<'a> {
    pub at: Pos,
    pub name: Name<'a>,
}

/// A function's body.
#[derive(Clone, Copy)]
pub struct Body<'a> {
    pub stmts: &'a [Stmt<'a>],
    pub last: Return<'a>,
}

/// A parameter.
#[tactic(auto, unfolding(crate::specs::reading::Statements::param_with))]
fn param<'a>(arena: &'a Arena, cursor: &mut Cursor<'a>, room: u32) -> Result<Param<'a>, ParseError>
    ensures { Returns (λ x. (param_tree x, left_of cursor.new)) result (param_with (type_at (suc room)) (left_of cursor.old)) }
{
    let name = take_name(cursor)?;
    take_symbol(Symbol::Colon, cursor)?;
    let ty = written(arena, cursor, room)?;
    Ok(Param { name, ty })
}

/// A comma and a parameter.
#[tactic(auto, unfolding(crate::specs::reading::Statements::comma_param_with))]
fn comma_param<'a>(
    arena: &'a Arena,
    cursor: &mut Cursor<'a>,
    room: u32,
) -> Result<Param<'a>, ParseError>
    ensures { Returns (λ x. (param_tree x, left_of cursor.new)) result (comma_param_with (type_at (suc room)) (left_of cursor.old)) }
{
    take_symbol(Symbol::Comma, cursor)?;
    param(arena, cursor, room)
}

/// A parameter that was read, and all that follow it after commas.
fn more_params<'a>(
    arena: &'a Arena,
    first: Param<'a>,
    cursor: &mut Cursor<'a>,
    room: u32,
) -> Result<&'a [Param<'a>], ParseError>
    ensures { Returns (λ x. (map param_tree x.now, left_of cursor.new)) result (put_first (param_tree first.entry) (all_at (leads symbols.Comma) (comma_param_with (type_at (suc room))) (left_of cursor.old))) }
{
    let mut params = Vec::new(arena);
    params.push(first)?;
    let count = cursor.left();
    for _ in 0..count {
        if !leads(Symbol::Comma, cursor) {
            return Ok(into_bump_slice(params));
        }
        params.push(comma_param(arena, cursor, room)?)?;
    }
    Ok(into_bump_slice(params))
}

/// Parameters with commas between them, or nothing.
#[tactic(auto, unfolding(crate::specs::reading::Statements::param_list_with))]
fn param_list<'a>(
    arena: &'a Arena,
    cursor: &mut Cursor<'a>,
    room: u32,
) -> Result<&'a [Param<'a>], ParseError>
    ensures { Returns (λ x. (map param_tree x.now, left_of cursor.new)) result (param_list_with (type_at (suc room)) (left_of cursor.old)) }
{
    if !leads_name(cursor) {
        return Ok(&[]);
    }
    let first = param(arena, cursor, room)?;
    more_params(arena, first, cursor, room)
}

/// The parameters of a function.
#[tactic(auto, unfolding(crate::specs::reading::Statements::params_at))]
fn params<'a>(
    arena: &'a Arena,
    cursor: &mut Cursor<'a>,
    room: u32,
) -> Result<&'a [Param<'a>], ParseError>
    ensures { Returns (λ x. (map param_tree x.now, left_of cursor.new)) result (params_at room (left_of cursor.old)) }
{
    take_open(Symbol::OpenParen, room, cursor)?;
    let params = param_list(arena, cursor, room - 1)?;
    take_symbol(Symbol::CloseParen, cursor)?;
    Ok(params)
}

/// The bound of a function in its brackets, where there is one.
#[tactic(auto, unfolding(crate::specs::reading::Statements::fun_bound_at))]
fn fun_bound<'a>(cursor: &mut Cursor<'a>) -> Result<Option<Name<'a>>, ParseError>
    ensures { Returns (λ x. (option_map name_tree x, left_of cursor.new)) result (fun_bound_at (left_of cursor.old)) }
{
    if !leads(Symbol::OpenBracket, cursor) {
        return Ok(None);
    }
    take_symbol(Symbol::OpenBracket, cursor)?;
    let name = take_name(cursor)?;
    take_symbol(Symbol::CloseBracket, cursor)?;
    Ok(Some(name))
}

/// `fun`, a name and perhaps a bound.
#[tactic(auto, unfolding(crate::specs::reading::Statements::title_at))]
fn take_title<'a>(cursor: &mut Cursor<'a>) -> Result<Title<'a>, ParseError>
    ensures { Returns (λ x. (title_of x, left_of cursor.new)) result (title_at (left_of cursor.old)) }
{
    take_symbol(Symbol::Fun, cursor)?;
    let name = take_name(cursor)?;
    let bound = fun_bound(cursor)?;
    Ok(Title { name, bound })
}

/// Parameters, `->` and a type.
#[tactic(auto, unfolding(crate::specs::reading::Statements::interface_at))]
fn take_interface<'a>(
    arena: &'a Arena,
    cursor: &mut Cursor<'a>,
    room: u32,
) -> Result<Interface<'a>, ParseError>
    ensures { Returns (λ x. (interface_of x, left_of cursor.new)) result (interface_at room (left_of cursor.old)) }
{
    let params = params(arena, cursor, room)?;
    take_symbol(Symbol::Arrow, cursor)?;
    let result = written(arena, cursor, room)?;
    Ok(Interface { params, result })
}

/// `return`, a name and a semicolon.
#[tactic(auto, unfolding(crate::specs::reading::Statements::return_at))]
fn take_last<'a>(cursor: &mut Cursor<'a>) -> Result<Return<'a>, ParseError>
    ensures { Returns (λ x. (return_of x, left_of cursor.new)) result (return_at (left_of cursor.old)) }
{
    let place = take_symbol(Symbol::Return, cursor)?;
    let name = take_name(cursor)?;
    take_symbol(Symbol::Semicolon, cursor)?;
    Ok(Return { at: place, name })
}

/// The body of a function in its braces.
#[tactic(auto, unfolding(crate::specs::reading::Statements::body_at))]
fn take_body<'a>(
    arena: &'a Arena,
    cursor: &mut Cursor<'a>,
    room: u32,
) -> Result<Body<'a>, ParseError>
    ensures { Returns (λ x. (body_of x, left_of cursor.new)) result (body_at room (left_of cursor.old)) }
{
    take_open(Symbol::OpenBrace, room, cursor)?;
    let stmts = stmts(arena, Symbol::Return, cursor, room - 1)?;
    let last = take_last(cursor)?;
    take_symbol(Symbol::CloseBrace, cursor)?;
    Ok(Body { stmts, last })
}

/// A function, in which so many brackets may open.
#[tactic(auto, using(crate::proofs::code::Chains::chains), unfolding(crate::specs::reading::Statements::fun_at))]
pub fn fun<'a>(arena: &'a Arena, cursor: &mut Cursor<'a>, room: u32) -> Result<Fun<'a>, ParseError>
    ensures { Returns (λ x. (fun_tree x, left_of cursor.new)) result (fun_at room (left_of cursor.old)) }
{
    let title = take_title(cursor)?;
    let interface = take_interface(arena, cursor, room)?;
    let body = take_body(arena, cursor, room)?;
    Ok(Fun {
        name: title.name,
        bound: title.bound,
        params: interface.params,
        result: interface.result,
        body: body.stmts,
        return_at: body.last.at,
        returned: body.last.name,
    })
}
