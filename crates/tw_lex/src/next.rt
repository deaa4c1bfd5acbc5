//! The next token of a text.

ghost use Rattle.std.specs.Prelude.{◌≡◌, ℕ, List, true, false, IfSome};
ghost use Rattle.std.specs.Option.{IfNone};
ghost use Rattle.std.specs.Str.{chars};
ghost use Rattle.tw_text.specs.Suffixes.{Begins};
ghost use Rattle.tw_lex.specs.declared.token.TokenKind.{TokenKind};
ghost use Rattle.tw_lex.specs.Next.{IsNext, IsPassed};
ghost use Rattle.tw_lex.specs.Scans.{Found, Lacks};
ghost use Rattle.tw_lex.specs.Tokens.{Piece, Blank, Comment, starts_name};

use crate::Token;
use crate::leading::leading_char;
use crate::number::number;
use crate::operator::operator;
use crate::run::{Run, after_run};
use crate::scanned::Scanned;
use crate::space::after_spaces;
use crate::suffix::Suffix;
use crate::word::word;
use tw_text::{Pos, before};
use unicode_ident::is_xid_start;

/// What stands next in a text.
#[derive(Debug, Clone, Copy)]
pub enum Next<'t> {
    /// A token, and the suffix after it.
    Token(Token<'t>, Suffix<'t>),
    /// The end of the text.
    End,
    /// Characters that begin no token, at this place.
    Wrong(Pos),
}

/// Whether a name may begin with a character.
fn starts_name(c: char) -> bool
    ensures { result ≡ starts_name c }
{
    if c < '\u{80}' {
        c.is_ascii_alphabetic() || c == '_'
    } else {
        is_xid_start(c)
    }
}

/// The number, operator or delimiter at the beginning of a text, from its first character, which begins no name, and what follows that.
#[inline(always)]
fn scanned_mark<'t>(text: &'t str, first: char, following: &'t str) -> Option<Scanned<'t>>
    requires begins { Begins text.now first following.now }
    requires starts { starts_name first ≡ false }
    requires no_blank { (c : ℕ) → Lacks (chars text.now) (Blank c) }
    requires no_comment { (cs : List ℕ) → Lacks (chars text.now) (Comment cs) }
    ensures some { IfSome result (λ found. Found text.now found.rest.now found.count found.kind) }
    ensures none { IfNone result ((piece : Piece) → Lacks (chars text.now) piece) }
{
    if first.is_ascii_digit() {
        return number(text);
    }
    operator(text, first, following)
}

/// The token at the beginning of a text, from its first character and what follows that.
#[inline(always)]
fn scanned<'t>(text: &'t str, first: char, following: &'t str) -> Option<Scanned<'t>>
    requires begins { Begins text.now first following.now }
    requires no_blank { (c : ℕ) → Lacks (chars text.now) (Blank c) }
    requires no_comment { (cs : List ℕ) → Lacks (chars text.now) (Comment cs) }
    ensures some { IfSome result (λ found. Found text.now found.rest.now found.count found.kind) }
    ensures none { IfNone result ((piece : Piece) → Lacks (chars text.now) piece) }
{
    if starts_name(first) {
        return Some(word(text, first, following));
    }
    scanned_mark(text, first, following)
}

/// What stands next in a text, after white space and comments.
#[inline(always)]
pub fn next_token(suffix: Suffix<'_>) -> Next<'_>
    ensures { IsNext suffix.entry.text.now suffix.entry.at result }
{
    let start = after_spaces(suffix);
    let Some((first, following)) = leading_char(start.text) else {
        return Next::End;
    };
    match scanned(start.text, first, following) {
        Some(found) => {
            let token = Token {
                text: before(start.text, found.rest),
                at: start.at,
                kind: found.kind,
            };
            Next::Token(token, start.past(found.count, found.rest))
        }
        None => Next::Wrong(start.at),
    }
}

/// What stands next in a text, without what a token is.
#[derive(Debug, Clone, Copy)]
pub enum Passed<'t> {
    /// The suffix after a token.
    Token(Suffix<'t>),
    /// The end of the text.
    End,
    /// Characters that begin no token, at this place.
    Wrong(Pos),
}

/// What follows the token at the beginning of a text, and the number of the token's characters, from its first character and what
/// follows that.
#[inline(always)]
fn after_scanned<'t>(text: &'t str, first: char, following: &'t str) -> Option<(&'t str, usize)>
    requires begins { Begins text.now first following.now }
    requires no_blank { (c : ℕ) → Lacks (chars text.now) (Blank c) }
    requires no_comment { (cs : List ℕ) → Lacks (chars text.now) (Comment cs) }
    ensures some { IfSome result (λ found. (kind : TokenKind) × Found text.now found.0.now found.1 kind) }
    ensures none { IfNone result ((piece : Piece) → Lacks (chars text.now) piece) }
{
    if starts_name(first) {
        let (rest, count) = after_run(following, Run::Name);
        return Some((rest, count + 1));
    }
    let found = scanned_mark(text, first, following)?;
    Some((found.rest, found.count))
}

/// What stands next in a text, after white space and comments, without what a token is.
#[inline(always)]
pub fn after_token(suffix: Suffix<'_>) -> Passed<'_>
    ensures { IsPassed suffix.entry.text.now suffix.entry.at result }
{
    let start = after_spaces(suffix);
    let Some((first, following)) = leading_char(start.text) else {
        return Passed::End;
    };
    match after_scanned(start.text, first, following) {
        Some((rest, count)) => Passed::Token(start.past(count, rest)),
        None => Passed::Wrong(start.at),
    }
}
