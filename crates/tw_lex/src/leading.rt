//! The first character of a text, fast if it is ASCII.

ghost use Rattle.std.specs.Prelude.{◌≡◌, ◌≢◌, ◌<◌, ℕ, List, [], ◌∷◌, length, IfSome};
ghost use Rattle.std.specs.Option.{IfNone};
ghost use Rattle.std.specs.Str.{chars};
ghost use Rattle.tw_text.specs.Suffixes.{Begins};

use tw_text::first_char;

/// What follows the first character of a text. `first` becomes this character: the result of a rare call stays in registers.
#[cold]
#[inline(never)]
fn wide_char<'t>(text: &'t str, first: &mut char) -> &'t str
    requires { 0 < length text.now }
    ensures { Begins text.now first.new result.now }
{
    let Some((c, rest)) = first_char(text) else {
        unreachable!()
    };
    *first = c;
    rest
}

/// The first character of a text, and what follows it; `None` of the empty text.
#[inline(always)]
pub fn leading_char(text: &str) -> Option<(char, &str)>
    ensures some { IfSome result (λ found. Begins text.now found.0 found.1.now) }
    ensures none { IfNone result (chars text.now ≡ []) }
{
    let bytes = text.as_bytes();
    if bytes.is_empty() {
        return None;
    }
    if bytes[0] < 128 {
        return Some((bytes[0] as char, &text[1..]));
    }
    let mut first = ' ';
    let rest = wide_char(text, &mut first);
    Some((first, rest))
}

/// What follows this character at the beginning of a text. `None` if the text does not begin with it.
#[inline(always)]
pub fn after_char(text: &str, c: char) -> Option<&str>
    ensures some { IfSome result (λ rest. Begins text.now c rest.now) }
    ensures none { IfNone result ((mid : List ℕ) → chars text.now ≢ c ∷ mid) }
{
    match leading_char(text) {
        Some((first, rest)) if first == c => Some(rest),
        _ => None,
    }
}
