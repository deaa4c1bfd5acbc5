//! Names and keywords.

ghost use Rattle.std.specs.Prelude.{◌≡◌, ℕ, true, List, ◌∷◌};
ghost use Rattle.std.specs.Str.{chars};
ghost use Rattle.tw_text.specs.Suffixes.{Begins};
ghost use Rattle.tw_lex.specs.Scans.{Found, word_kind};
ghost use Rattle.tw_lex.specs.Symbols.{find_symbol, symbol_of, symbols_from};
ghost use Rattle.tw_lex.specs.Tokens.{starts_name};

use crate::run::{Run, after_run};
use crate::scanned::Scanned;
use crate::{Symbol, TokenKind};
use tw_text::before;

/// The symbol of a list with this text, if one has it.
#[inline(always)]
fn symbol_with(text: &str, list: &[Symbol]) -> Option<Symbol>
    ensures { result ≡ find_symbol list.now text.now }
{
    for symbol in list {
        if symbol.text() == text {
            return Some(*symbol);
        }
    }
    None
}

/// The symbol with a text that begins with this character, if one has it.
#[inline(always)]
#[tactic(auto, unfolding(crate::specs::Symbols::symbols_from))]
fn symbol_from(text: &str, first: char) -> Option<Symbol>
    ensures { result ≡ find_symbol (symbols_from first) text.now }
{
    match first {
        'a' => symbol_with(text, &[Symbol::Alloc]),
        'b' => symbol_with(text, &[Symbol::Bool]),
        'd' => symbol_with(text, &[Symbol::Default, Symbol::Do]),
        'e' => symbol_with(text, &[Symbol::Else]),
        'f' => symbol_with(text, &[Symbol::False, Symbol::Fun]),
        'i' => symbol_with(text, &[Symbol::If]),
        'l' => symbol_with(text, &[Symbol::Let]),
        'n' => symbol_with(text, &[Symbol::Null, Symbol::Not]),
        'p' => symbol_with(text, &[Symbol::Ptr]),
        'r' => symbol_with(text, &[Symbol::Return]),
        's' => symbol_with(text, &[Symbol::Skip]),
        't' => symbol_with(text, &[Symbol::Type, Symbol::True]),
        'u' => symbol_with(text, &[Symbol::Uint]),
        'w' => symbol_with(text, &[Symbol::With]),
        _ => symbol_with(text, Symbol::starting_with(first)),
    }
}

/// What letters that begin with a character are: a keyword or a name.
#[inline(always)]
fn kind_of(text: &str, first: char) -> TokenKind
    requires { (cs : List ℕ) × (chars text.now ≡ first ∷ cs) }
    ensures { result ≡ word_kind (symbol_of (chars text.now)) }
{
    match symbol_from(text, first) {
        Some(symbol) => TokenKind::Word(symbol),
        None => TokenKind::Name,
    }
}

/// The name or keyword at the beginning of a text, from its first character and what follows that.
#[inline(always)]
pub fn word<'t>(text: &'t str, first: char, following: &'t str) -> Scanned<'t>
    requires begins { Begins text.now first following.now }
    requires starts { starts_name first ≡ true }
    ensures { Found text.now result.rest.now result.count result.kind }
{
    let (rest, count) = after_run(following, Run::Name);
    Scanned {
        kind: kind_of(before(text, rest), first),
        count: count + 1,
        rest,
    }
}
