ghost use Rattle.std.specs.Prelude.{◌≡◌, ◌<◌, List, length, map, IfOk};
ghost use Rattle.std.specs.List.{AllByRecursion};
ghost use Rattle.std.specs.Str.{chars};
ghost use Rattle.tw_text.specs.Places.{first_place};
ghost use Rattle.tw_lex.specs.Scans.{seen, IsToken, IsNoToken};
ghost use Rattle.tw_lex.specs.Tokens.{Lexed, HasTokens};
ghost use Rattle.tw_lex.specs.Cursors.{HasCount};

use crate::Token;
use crate::next::{Next, Passed, after_token, next_token};
use crate::suffix::Suffix;
use std::alloc::Global;
use tw_text::{Fault, Refusal, Rule};

/// The tokens of a text, found from left to right.
fn split<'t>(alloc: Global, text: &'t str) -> Result<Vec<Token<'t>>, Fault>
    requires { length text.now < 4294967295 }
    ensures tokens { IfOk result (λ v. HasTokens (chars text.now) first_place (map seen v.items)) }
    ensures texts { IfOk result (λ v. AllByRecursion IsToken v.items) }
    ensures refused { (r : Refusal) → result ≡ Err (Fault.Refused r) → IsNoToken (chars text.now) r }
{
    let mut items = Vec::new(alloc);
    let mut rest = Suffix::of(text);
    loop {
        match next_token(rest) {
            Next::Token(token, following) => {
                let Ok(()) = items.push(token) else {
                    return Err(Fault::Memory);
                };
                rest = following;
            }
            Next::End => return Ok(items),
            Next::Wrong(at) => return Err(Fault::Refused(Refusal::broken(Rule::Token, at))),
        }
    }
}

/// The number of the tokens of a text. Refused as by `tokens`.
pub fn count_tokens(text: &str) -> Result<usize, Fault>
    requires { length text.now < 4294967295 }
    ensures counted { IfOk result (HasCount (chars text.now)) }
    ensures refused { (r : Refusal) → result ≡ Err (Fault.Refused r) → IsNoToken (chars text.now) r }
{
    let mut count = 0;
    let mut rest = Suffix::of(text);
    loop {
        match after_token(rest) {
            Passed::Token(following) => {
                count += 1;
                rest = following;
            }
            Passed::End => return Ok(count),
            Passed::Wrong(stop) => return Err(Fault::Refused(Refusal::broken(Rule::Token, stop))),
        }
    }
}

/// The tokens of a text from left to right, each a slice of it with its place. The text has no other list of tokens.
/// Refused with the rule `Token` if the text does not split into tokens, white space and comments. The place is that of
/// the first digit of a number that breaks its rule, and otherwise of the character that begins no token.
/// `Fault::Memory` if memory runs out.
pub fn tokens<'t>(alloc: Global, text: &'t str) -> Result<Vec<Token<'t>>, Fault>
    requires { length text.now < 4294967295 }
    ensures tokens { IfOk result (λ v. HasTokens (chars text.now) first_place (map seen v.items)) }
    ensures texts { IfOk result (λ v. AllByRecursion IsToken v.items) }
    ensures only { IfOk result (λ v. (other : List Lexed) → HasTokens (chars text.now) first_place other → other ≡ map seen v.items) }
    ensures refused { (r : Refusal) → result ≡ Err (Fault.Refused r) → IsNoToken (chars text.now) r }
    ensures no_tokens { (r : Refusal) → result ≡ Err (Fault.Refused r) → (toks : List Lexed) → ¬ (HasTokens (chars text.now) first_place toks) }
    ensures one_refusal { (r : Refusal) → result ≡ Err (Fault.Refused r) → (other : Refusal) → IsNoToken (chars text.now) other → other ≡ r }
{
    split(alloc, text)
}
