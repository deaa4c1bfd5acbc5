//! Runs of characters of one sort.

ghost use Rattle.std.specs.Prelude.{◌≡◌, drop};
ghost use Rattle.std.specs.Str.{IsCharBoundary};
ghost use Rattle.unicode_ident.specs.Ident.{is_xid_continue};
ghost use Rattle.tw_lex.specs.Scans.{goes_on, Runs, RunsTo};

use crate::leading::leading_char;
use unicode_ident::is_xid_continue;

/// A sort of characters.
#[derive(Debug, Clone, Copy, PartialEq, Eq)]
pub enum Run {
    /// Spaces.
    Space,
    /// Characters that may continue a name.
    Name,
    /// ASCII digits.
    Digits,
    /// Characters of one line.
    Line,
}

/// Whether a name may go on with an ASCII character.
const NAME_CHARS: [bool; 128] = [
    false, false, false, false, false, false, false, false, false, false, false, false, false,
    false, false, false, false, false, false, false, false, false, false, false, false, false,
    false, false, false, false, false, false, false, false, false, false, false, false, false,
    false, false, false, false, false, false, false, false, false, true, true, true, true, true,
    true, true, true, true, true, false, false, false, false, false, false, false, true, true,
    true, true, true, true, true, true, true, true, true, true, true, true, true, true, true, true,
    true, true, true, true, true, true, true, true, false, false, false, false, true, false, true,
    true, true, true, true, true, true, true, true, true, true, true, true, true, true, true, true,
    true, true, true, true, true, true, true, true, true, false, false, false, false, false,
];

/// Whether a name may go on with a character.
fn is_name_char(c: char) -> bool
    ensures { result ≡ is_xid_continue c }
{
    if c < '\u{80}' {
        NAME_CHARS[c as usize]
    } else {
        is_xid_continue(c)
    }
}

/// Whether a run goes on with a character.
fn goes_on(run: Run, c: char) -> bool
    ensures { result ≡ goes_on run c }
{
    match run {
        Run::Space => c == ' ',
        Run::Name => is_name_char(c),
        Run::Digits => c.is_ascii_digit(),
        Run::Line => c != '\n',
    }
}

/// What follows the longest run at the beginning of a text whose first characters, so many, belong to it. `total` becomes the number of
/// the run's characters: the result of a rare call stays in registers.
#[cold]
#[inline(never)]
fn after_more<'t>(text: &'t str, passed: usize, run: Run, total: &mut usize) -> &'t str
    requires suffix { IsCharBoundary text.now passed }
    requires runs { Runs (goes_on run) text.now (drop passed text.now) passed }
    ensures { RunsTo (goes_on run) text.now result.now total.new }
{
    let mut rest = &text[passed..];
    let mut count = passed;
    while let Some((c, following)) = leading_char(rest) {
        if !goes_on(run, c) {
            *total = count;
            return rest;
        }
        rest = following;
        count += 1;
    }
    *total = count;
    rest
}

/// What follows the longest run at the beginning of a text, and the number of the run's characters.
#[inline(always)]
pub fn after_run(text: &str, run: Run) -> (&str, usize)
    ensures { RunsTo (goes_on run) text.now result.0.now result.1 }
{
    let bytes = text.as_bytes();
    let mut count = 0;
    while count < bytes.len() && bytes[count] < 128 && goes_on(run, bytes[count] as char) {
        count += 1;
    }
    if count < bytes.len() && bytes[count] >= 128 {
        let mut total = count;
        let rest = after_more(text, count, run, &mut total);
        return (rest, total);
    }
    (&text[count..], count)
}
