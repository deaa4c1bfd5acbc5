//! White space and comments.

ghost use Rattle.std.specs.Prelude.{◌≡◌, ◌<◌, ◌≤◌, ℕ, true, false, List, [], length, codes, IfSome};
ghost use Rattle.std.specs.Option.{IfNone};
ghost use Rattle.std.specs.Str.{chars};
ghost use Rattle.tw_text.specs.Suffixes.{Follows};
ghost use Rattle.tw_lex.specs.Scans.{SplitsTo, Lacks, RunsTo};
ghost use Rattle.tw_lex.specs.Tokens.{is_blank, is_in_line, Blank, Comment};

use crate::leading::leading_char;
use crate::run::{Run, after_run};
use crate::suffix::Suffix;
use tw_text::text_after;

/// Whether a character is white space.
fn is_blank(c: char) -> bool
    ensures { result ≡ is_blank c }
{
    c == ' ' || c == '\n' || c == '\t' || c == '\r'
}

/// The suffix after the spaces at the beginning of this one.
#[inline(always)]
fn after_gap(suffix: Suffix<'_>) -> Suffix<'_>
    ensures spaces { SplitsTo (chars suffix.entry.text.now) suffix.entry.at [] (chars result.text.now) result.at }
    ensures shorter { length result.text.now ≤ length suffix.entry.text.now }
{
    let (rest, count) = after_run(suffix.text, Run::Space);
    suffix.past(count, rest)
}

/// Whether a text begins with a comment.
#[cold]
#[inline(never)]
fn begins_comment(text: &str) -> bool
    ensures yes { result ≡ true → (line : List ℕ) × Follows text.now (codes "//") line }
    ensures no { result ≡ false → (cs : List ℕ) → Lacks (chars text.now) (Comment cs) }
{
    match text_after(text, "//") {
        Some(_) => true,
        None => false,
    }
}

/// What follows the first line of a text, from its newline on. `count` becomes the number of the line's characters: the result of a
/// rare call stays in registers.
#[cold]
#[inline(never)]
fn after_line<'t>(text: &'t str, count: &mut usize) -> &'t str
    ensures { RunsTo is_in_line text.now result.now count.new }
{
    let (rest, passed) = after_run(text, Run::Line);
    *count = passed;
    rest
}

/// The suffix after the comment at the beginning of this one, from its newline on.
#[inline(always)]
fn after_comment(suffix: Suffix<'_>) -> Option<Suffix<'_>>
    ensures some { IfSome result (λ found. SplitsTo (chars suffix.entry.text.now) suffix.entry.at [] (chars found.text.now) found.at) }
    ensures shorter { IfSome result (λ found. length found.text.now < length suffix.entry.text.now) }
    ensures none { IfNone result ((cs : List ℕ) → Lacks (chars suffix.entry.text.now) (Comment cs)) }
{
    if !begins_comment(suffix.text) {
        return None;
    }
    let mut count = 0;
    let rest = after_line(suffix.text, &mut count);
    Some(suffix.past(count, rest))
}

/// The suffix after the character of white space or the comment at the beginning of this one.
#[inline(always)]
fn after_space(suffix: Suffix<'_>) -> Option<Suffix<'_>>
    ensures some { IfSome result (λ found. SplitsTo (chars suffix.entry.text.now) suffix.entry.at [] (chars found.text.now) found.at) }
    ensures shorter { IfSome result (λ found. length found.text.now < length suffix.entry.text.now) }
    ensures no_blank { IfNone result ((c : ℕ) → Lacks (chars suffix.entry.text.now) (Blank c)) }
    ensures no_comment { IfNone result ((cs : List ℕ) → Lacks (chars suffix.entry.text.now) (Comment cs)) }
{
    let (c, rest) = leading_char(suffix.text)?;
    if c == '\n' {
        return Some(suffix.next_line(rest));
    }
    if is_blank(c) {
        return Some(suffix.past(1, rest));
    }
    if c != '/' {
        return None;
    }
    after_comment(suffix)
}

/// The suffix after all white space and comments at the beginning of this one.
#[inline(always)]
pub fn after_spaces(suffix: Suffix<'_>) -> Suffix<'_>
    ensures spaces { SplitsTo (chars suffix.entry.text.now) suffix.entry.at [] (chars result.text.now) result.at }
    ensures shorter { length result.text.now ≤ length suffix.entry.text.now }
    ensures no_blank { (c : ℕ) → Lacks (chars result.text.now) (Blank c) }
    ensures no_comment { (cs : List ℕ) → Lacks (chars result.text.now) (Comment cs) }
{
    let mut rest = after_gap(suffix);
    while let Some(following) = after_space(rest) {
        rest = after_gap(following);
    }
    rest
}
