//! Numbers.

ghost use Rattle.std.specs.Prelude.{◌≡◌, ℕ, IfSome};
ghost use Rattle.std.specs.Option.{IfNone};
ghost use Rattle.std.specs.Str.{chars};
ghost use Rattle.unicode_ident.specs.Ident.{is_xid_continue};
ghost use Rattle.tw_lex.specs.Scans.{Found, Lacks};
ghost use Rattle.tw_lex.specs.Symbols.{starts_with};
ghost use Rattle.tw_lex.specs.Tokens.{Digits};

use crate::TokenKind;
use crate::leading::leading_char;
use crate::run::{Run, after_run};
use crate::scanned::Scanned;
use tw_text::{before, whole_decimal};
use unicode_ident::is_xid_continue;

/// Whether a name could go on with a text.
fn continues_name(text: &str) -> bool
    ensures { result ≡ starts_with is_xid_continue (chars text.now) }
{
    match leading_char(text) {
        Some((c, _)) => is_xid_continue(c),
        None => false,
    }
}

/// The number at the beginning of a text. `None` if the text begins with no digit, and if its digits break a rule: a leading
/// zero, a value above the greatest `u64`, or a character that continues names directly after them.
#[inline(always)]
pub fn number(text: &str) -> Option<Scanned<'_>>
    ensures some { IfSome result (λ found. Found text.now found.rest.now found.count found.kind) }
    ensures none { IfNone result ((value : ℕ) → Lacks (chars text.now) (Digits value)) }
{
    let (rest, count) = after_run(text, Run::Digits);
    let value = whole_decimal(before(text, rest).as_bytes())?;
    if continues_name(rest) {
        return None;
    }
    Some(Scanned {
        kind: TokenKind::Number(value),
        count,
        rest,
    })
}
