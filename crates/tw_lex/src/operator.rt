//! Operators and delimiters.

ghost use Rattle.std.specs.Prelude.{◌≡◌, ◌∷◌, [], Some, None, false, IfSome};
ghost use Rattle.std.specs.Option.{IfNone};
ghost use Rattle.std.specs.Str.{chars};
ghost use Rattle.tw_text.specs.Suffixes.{Begins, Follows};
ghost use Rattle.tw_lex.specs.declared.symbol.Symbol.{Symbol};
ghost use Rattle.tw_lex.specs.Scans.{Found, Lacks};
ghost use Rattle.tw_lex.specs.Symbols.{symbol_text, symbols_from, find_prefix};
ghost use Rattle.tw_lex.specs.Tokens.{Operator, starts_name};

use crate::leading::after_char;
use crate::scanned::Scanned;
use crate::{Symbol, TokenKind};
use tw_text::text_after;

/// The longest symbol at the beginning of a text that begins with `<`.
#[inline(always)]
fn less<'t>(text: &'t str, following: &'t str) -> Scanned<'t>
    requires begins { Begins text.now 60 following.now }
    requires starts { starts_name 60 ≡ false }
    ensures { Found text.now result.rest.now result.count result.kind }
{
    let Some(rest) = after_char(following, '-') else {
        return Scanned {
            kind: TokenKind::Mark(Symbol::Less),
            count: 1,
            rest: following,
        };
    };
    match after_char(rest, '>') {
        Some(end) => Scanned {
            kind: TokenKind::Mark(Symbol::Swap),
            count: 3,
            rest: end,
        },
        None => Scanned {
            kind: TokenKind::Mark(Symbol::Assign),
            count: 2,
            rest,
        },
    }
}

/// The symbol of two characters at the beginning of a text if the second one follows, and otherwise the symbol of the first one.
#[inline(always)]
fn longer<'t>(
    text: &'t str,
    first: char,
    following: &'t str,
    second: char,
    long: Symbol,
    short: Symbol,
) -> Scanned<'t>
    requires begins { Begins text.now first following.now }
    requires starts { starts_name first ≡ false }
    requires list { symbols_from first ≡ long ∷ short ∷ [] }
    requires long { symbol_text long ≡ first ∷ second ∷ [] }
    requires short { symbol_text short ≡ first ∷ [] }
    ensures { Found text.now result.rest.now result.count result.kind }
{
    match after_char(following, second) {
        Some(rest) => Scanned {
            kind: TokenKind::Mark(long),
            count: 2,
            rest,
        },
        None => Scanned {
            kind: TokenKind::Mark(short),
            count: 1,
            rest: following,
        },
    }
}

/// The operator or delimiter at the beginning of a text, as `operator` finds it; `None` too for some symbols that are not frequent.
#[inline(always)]
#[tactic(auto, unfolding(crate::specs::Symbols::symbols_from))]
fn frequent<'t>(text: &'t str, first: char, following: &'t str) -> Option<Scanned<'t>>
    requires begins { Begins text.now first following.now }
    requires starts { starts_name first ≡ false }
    ensures { IfSome result (λ found. Found text.now found.rest.now found.count found.kind) }
{
    match first {
        '<' => Some(less(text, following)),
        '-' => Some(longer(text, first, following, '>', Symbol::Arrow, Symbol::Minus)),
        '=' => Some(longer(text, first, following, '=', Symbol::Equal, Symbol::Define)),
        _ => {
            let symbol = Symbol::single(first)?;
            Some(Scanned {
                kind: TokenKind::Mark(symbol),
                count: 1,
                rest: following,
            })
        }
    }
}

/// The first symbol of a list that begins a text, and what follows it.
#[cold]
#[inline(never)]
fn front_symbol<'t>(text: &'t str, list: &[Symbol]) -> Option<(Symbol, &'t str)>
    ensures found { IfSome result (λ found. find_prefix list.now (chars text.now) ≡ Some found.0) }
    ensures follows { IfSome result (λ found. Follows text.now (symbol_text found.0) found.1.now) }
    ensures none { IfNone result (find_prefix list.now (chars text.now) ≡ None) }
{
    for symbol in list {
        if let Some(rest) = text_after(text, symbol.text()) {
            return Some((*symbol, rest));
        }
    }
    None
}

/// The operator or delimiter at the beginning of a text, from its first character, which begins no name, and what follows that.
#[inline(always)]
pub fn operator<'t>(text: &'t str, first: char, following: &'t str) -> Option<Scanned<'t>>
    requires begins { Begins text.now first following.now }
    requires starts { starts_name first ≡ false }
    ensures some { IfSome result (λ found. Found text.now found.rest.now found.count found.kind) }
    ensures none { IfNone result ((symbol : Symbol) → Lacks (chars text.now) (Operator symbol)) }
{
    if let Some(found) = frequent(text, first, following) {
        return Some(found);
    }
    let (symbol, rest) = front_symbol(text, Symbol::starting_with(first))?;
    Some(Scanned {
        kind: TokenKind::Mark(symbol),
        count: symbol.text().len(),
        rest,
    })
}
