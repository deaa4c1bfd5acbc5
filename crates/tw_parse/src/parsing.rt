//! From the bytes of a source to its syntax tree.

ghost use Rattle.std.specs.Prelude.{◌≡◌, ◌<◌, List, length, drop, MatchResult, IfOk, IfErr};
ghost use Rattle.std.specs.Str.{chars, IsUtf8};
ghost use Rattle.tw_text.specs.declared.refusal.Fault.TheVariants as fault;
ghost use Rattle.tw_syntax.specs.Programs.{ProgramTree, program_tree};
ghost use Rattle.tw_parse.specs.declared.error.ParseError.TheVariants as error;
ghost use Rattle.tw_text.specs.Places.{first_place};
ghost use Rattle.tw_lex.specs.Tokens.{Lexed, HasTokens};
ghost use Rattle.tw_lex.specs.Cursors.{HasCount};
ghost use Rattle.tw_lex.specs.Left.{left_of};
ghost use Rattle.tw_parse.specs.Sources.{IsSource, IsRefused};
ghost use Rattle.tw_parse.specs.Refusals.{place_left, end_of};
ghost use Rattle.tw_parse.specs.reading.Outcomes.{fault_of, IsParsed, IsFault, IsNoTextFault};

use crate::error::{ParseError, Rejection};
use crate::programs::program;
use std::alloc::Global;
use tw_lex::{Cursor, count_tokens};
use tw_syntax::Program;
use tw_text::{Arena, Counted, Fault, NESTING_LIMIT, Pos, Refusal, Rule, place_after};

/// Passes so many tokens.
fn skip(cursor: &mut Cursor<'_>, count: usize)
    ensures { left_of cursor.new ≡ drop count (left_of cursor.old) }
{
    for _ in 0..count {
        cursor.advance();
    }
}

/// The place of the first of so many last tokens, or the place after the text.
fn place_of(text: &str, count: usize, left: usize) -> Pos
    requires short { length text.now < 4294967295 }
    requires counted { HasCount (chars text.now) count }
    ensures { (toks : List Lexed) → HasTokens (chars text.now) first_place toks → result ≡ place_left toks left (end_of text.now) }
{
    if left == 0 {
        return place_after(text);
    }
    let mut cursor = Cursor::new(text, count);
    let passed = cursor.left().saturating_sub(left);
    skip(&mut cursor, passed);
    match cursor.first() {
        Some(token) => token.at,
        None => place_after(text),
    }
}

/// The fault for a stop in a text with so many tokens.
fn fault(stop: ParseError, text: &str, count: usize) -> Fault
    requires short { length text.now < 4294967295 }
    requires counted { HasCount (chars text.now) count }
    ensures { (toks : List Lexed) → HasTokens (chars text.now) first_place toks → result ≡ fault_of stop toks (end_of text.now) }
{
    match stop {
        ParseError::Memory => Fault::Memory,
        ParseError::Rejection(Rejection::Syntax(left)) => {
            Fault::Refused(Refusal::broken(Rule::Syntax, place_of(text, count, left)))
        }
        ParseError::Rejection(Rejection::Nesting(left)) => {
            let at = place_of(text, count, left);
            Fault::Refused(Refusal::passed(Counted::Nesting, NESTING_LIMIT + 1, at))
        }
    }
}

/// The text that the bytes are.
fn text_of(bytes: &[u8]) -> Result<&str, Fault>
    requires { length bytes.now < 4294967295 }
    ensures { MatchResult result (λ text. (text.now ≡ bytes.now) × IsUtf8 bytes.now) (λ e. IsNoTextFault bytes.now e) }
{
    match std::str::from_utf8(bytes) {
        Ok(text) => Ok(text),
        Err(error) => {
            let Ok(front) = std::str::from_utf8(&bytes[..error.valid_up_to()]) else {
                unreachable!()
            };
            Err(Fault::Refused(Refusal::broken(Rule::Utf8, place_after(front))))
        }
    }
}

/// The program that the text is.
fn parse_text<'a>(arena: &'a Arena, text: &'a str) -> Result<&'a Program<'a>, Fault>
    requires { length text.now < 4294967295 }
    ensures found { IfOk result (λ x. IsParsed text.now (program_tree x.now)) }
    ensures refused { IfErr result (λ e. IsFault text.now e) }
{
    let count = count_tokens(text)?;
    match program(arena, &mut Cursor::new(text, count)) {
        Ok(program) => Ok(program),
        Err(stop) => Err(fault(stop, text, count)),
    }
}

/// What reading gives of a source.
fn read<'a>(arena: &'a Arena, bytes: &'a [u8]) -> Result<&'a Program<'a>, Fault>
    requires { length bytes.now < 4294967295 }
    ensures found { IfOk result (λ x. IsParsed bytes.now (program_tree x.now)) }
    ensures refused { IfErr result (λ e. IsFault bytes.now e) }
{
    let text = text_of(bytes)?;
    parse_text(arena, text)
}

/// The syntax tree of a source, in the arena. Refused with its place, the first fault from the left: `Utf8` at the first
/// byte that begins no character; then `Token` where characters are no token; then `Syntax` at the first token that does
/// not go on with a program, or after the last character where one is missing, and `Limit(Nesting)` with 65 and 64 at the
/// token that opens the 65th bracket. `Fault::Memory` where memory is wanting; the arena may then have grown.
pub fn parse<'a>(
    _alloc: Global,
    arena: &'a Arena,
    bytes: &'a [u8],
) -> Result<&'a Program<'a>, Fault>
    requires { length bytes.now < 4294967295 }
    ensures tree { IfOk result (λ x. IsSource bytes.now (program_tree x.now)) }
    ensures only { IfOk result (λ x. (other : ProgramTree) → IsSource bytes.now other → other ≡ program_tree x.now) }
    ensures accepted { IfOk result (λ x. (refusal : Refusal) → ¬ IsRefused bytes.now refusal) }
    ensures refused { (refusal : Refusal) → result ≡ Err (fault.Refused refusal) → IsRefused bytes.now refusal }
    ensures no_tree { (refusal : Refusal) → result ≡ Err (fault.Refused refusal) → (tree : ProgramTree) → ¬ IsSource bytes.now tree }
    ensures one_refusal { (refusal : Refusal) → result ≡ Err (fault.Refused refusal) → (other : Refusal) → IsRefused bytes.now other → other ≡ refusal }
{
    read(arena, bytes)
}
