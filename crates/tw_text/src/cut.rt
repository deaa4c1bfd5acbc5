//! Texts cut in two between characters.
ghost use Rattle.std.specs.Prelude.{◌≡◌, ◌≢◌, ◌+◌, ◌++◌, ℕ, List, [], length, IfSome};
ghost use Rattle.std.specs.Option.{IfNone};
ghost use Rattle.std.specs.Str.{chars};
ghost use Rattle.tw_text.specs.Suffixes.{Begins, EndsWith, Follows};

/// The first character of a text, and the suffix after it. `None` for the empty text.
pub fn first_char(text: &str) -> Option<(char, &str)>
    ensures some { IfSome result (λ found. Begins text.now found.0 found.1.now) }
    ensures none { IfNone result (chars text.now ≡ []) }
{
    let mut letters = text.chars();
    let first = letters.next()?;
    Some((first, letters.as_str()))
}

/// The prefix of a text before a suffix.
pub fn before<'t>(text: &'t str, rest: &str) -> &'t str
    requires { EndsWith text.now rest.now }
    ensures spelled { chars text.now ≡ chars result.now ++ chars rest.now }
    ensures len { length result.now + length rest.now ≡ length text.now }
{
    text.split_at(text.len() - rest.len()).0
}

/// The suffix after this prefix of a text. `None` if the text does not begin with it.
pub fn text_after<'t>(text: &'t str, prefix: &str) -> Option<&'t str>
    ensures some { IfSome result (λ rest. Follows text.now prefix.now rest.now) }
    ensures none { IfNone result ((mid : List ℕ) → chars text.now ≢ chars prefix.now ++ mid) }
{
    text.strip_prefix(prefix)
}
