//! What the rules of the grammar look at and take at the beginning of the tokens that are left.

ghost use Rattle.std.specs.Prelude.{◌≡◌, ◌-◌, suc, ℕ, List, ◌==◌, length, IfOk};
ghost use Rattle.tw_syntax.specs.Names.{name_tree};
ghost use Rattle.tw_parse.specs.declared.error.Rejection.TheVariants.{Syntax};
ghost use Rattle.tw_parse.specs.declared.error.ParseError.TheVariants as error;
ghost use Rattle.tw_lex.specs.Scans.{lexeme_of};
ghost use Rattle.tw_lex.specs.Left.{left_of};
ghost use Rattle.tw_parse.specs.reading.Steps.{Returns, symbol_number, is_symbol, is_name, is_number, leads, leads_name, leads_number, place_at, take_symbol, take_open, take_name, take_number, take_bound_number, take_component};

use crate::error::{ParseError, Rejection};
use tw_lex::{Cursor, Symbol, TokenKind};
use tw_syntax::Name;
use tw_text::Pos;

/// The halt where the token at this place is wrong.
fn wrong(cursor: &Cursor<'_>) -> ParseError
    ensures { result ≡ error.Rejection (Syntax (length (left_of cursor.now))) }
{
    ParseError::Rejection(Rejection::Syntax(cursor.left()))
}

fn number_of(mark: Symbol) -> u8
    ensures { result ≡ symbol_number mark }
{
    mark as u8
}

fn is_symbol(mark: Symbol, kind: TokenKind) -> bool
    ensures { (text : List ℕ) → result ≡ is_symbol mark (lexeme_of kind text) }
{
    match kind {
        TokenKind::Word(given) => number_of(given) == number_of(mark),
        TokenKind::Mark(given) => number_of(given) == number_of(mark),
        TokenKind::Name => false,
        TokenKind::Number(_) => false,
    }
}

/// Whether this mark stands here.
pub fn leads(mark: Symbol, cursor: &Cursor<'_>) -> bool
    ensures { result ≡ leads mark (left_of cursor.now) }
{
    match cursor.first() {
        Some(token) => is_symbol(mark, token.kind),
        None => false,
    }
}

/// This mark, and its place.
pub fn take_symbol(mark: Symbol, cursor: &mut Cursor<'_>) -> Result<Pos, ParseError>
    ensures { Returns (λ p. (p, left_of cursor.new)) result (take_symbol mark (left_of cursor.old)) }
{
    match cursor.first() {
        Some(token) => {
            if !is_symbol(mark, token.kind) {
                return Err(wrong(cursor));
            }
            cursor.advance();
            Ok(token.at)
        }
        None => Err(wrong(cursor)),
    }
}

/// This mark, which opens a bracket, and its place. An error too where no more brackets may open.
pub fn take_open(mark: Symbol, room: u32, cursor: &mut Cursor<'_>) -> Result<Pos, ParseError>
    ensures given { Returns (λ p. (p, left_of cursor.new)) result (take_open mark room (left_of cursor.old)) }
    ensures roomy { IfOk result (λ p. suc (room - 1) ≡ room) }
{
    let count = cursor.left();
    let place = take_symbol(mark, cursor)?;
    if room == 0 {
        return Err(ParseError::Rejection(Rejection::Nesting(count)));
    }
    Ok(place)
}

fn is_name(kind: TokenKind) -> bool
    ensures { (text : List ℕ) → result ≡ is_name (lexeme_of kind text) }
{
    match kind {
        TokenKind::Name => true,
        TokenKind::Number(_) => false,
        TokenKind::Word(_) => false,
        TokenKind::Mark(_) => false,
    }
}

fn is_number(kind: TokenKind) -> bool
    ensures { (text : List ℕ) → result ≡ is_number (lexeme_of kind text) }
{
    match kind {
        TokenKind::Name => false,
        TokenKind::Number(_) => true,
        TokenKind::Word(_) => false,
        TokenKind::Mark(_) => false,
    }
}

/// Whether a name stands here.
pub fn leads_name(cursor: &Cursor<'_>) -> bool
    ensures { result ≡ leads_name (left_of cursor.now) }
{
    match cursor.first() {
        Some(token) => is_name(token.kind),
        None => false,
    }
}

/// Whether a number stands here.
pub fn leads_number(cursor: &Cursor<'_>) -> bool
    ensures { result ≡ leads_number (left_of cursor.now) }
{
    match cursor.first() {
        Some(token) => is_number(token.kind),
        None => false,
    }
}

/// The place of the token at this place.
pub fn place(cursor: &Cursor<'_>) -> Result<Pos, ParseError>
    ensures { Returns (λ p. p) result (place_at (left_of cursor.now)) }
{
    match cursor.first() {
        Some(token) => Ok(token.at),
        None => Err(wrong(cursor)),
    }
}

/// A name.
pub fn take_name<'a>(cursor: &mut Cursor<'a>) -> Result<Name<'a>, ParseError>
    ensures { Returns (λ name. (name_tree name, left_of cursor.new)) result (take_name (left_of cursor.old)) }
{
    let Some(token) = cursor.first() else {
        return Err(wrong(cursor));
    };
    match token.kind {
        TokenKind::Name => {
            cursor.advance();
            Ok(Name {
                text: token.text,
                at: token.at,
            })
        }
        TokenKind::Word(_) | TokenKind::Number(_) | TokenKind::Mark(_) => Err(wrong(cursor)),
    }
}

/// A number.
pub fn take_number(cursor: &mut Cursor<'_>) -> Result<u64, ParseError>
    ensures { Returns (λ number. (number, left_of cursor.new)) result (take_number (left_of cursor.old)) }
{
    let Some(token) = cursor.first() else {
        return Err(wrong(cursor));
    };
    match token.kind {
        TokenKind::Number(value) => {
            cursor.advance();
            Ok(value)
        }
        TokenKind::Name | TokenKind::Word(_) | TokenKind::Mark(_) => Err(wrong(cursor)),
    }
}

/// A number of at most 255.
#[tactic(auto, unfolding(crate::specs::reading::Steps::take_bound_number))]
pub fn take_bound_number(cursor: &mut Cursor<'_>) -> Result<u8, ParseError>
    ensures { Returns (λ number. (number, left_of cursor.new)) result (take_bound_number (left_of cursor.old)) }
{
    let error = wrong(cursor);
    let number = take_number(cursor)?;
    if number < 256 {
        Ok(number as u8)
    } else {
        Err(error)
    }
}

/// The number 1 or 2.
#[tactic(auto, unfolding(crate::specs::reading::Steps::take_component))]
pub fn take_component(cursor: &mut Cursor<'_>) -> Result<u8, ParseError>
    ensures { Returns (λ number. (number, left_of cursor.new)) result (take_component (left_of cursor.old)) }
{
    let error = wrong(cursor);
    let number = take_number(cursor)?;
    if number == 1 || number == 2 {
        Ok(number as u8)
    } else {
        Err(error)
    }
}
