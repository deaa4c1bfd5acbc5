//! The tokens of a text, found as they are asked for.

ghost use Rattle.std.specs.Prelude.{◌≡◌, ◌<◌, ◌∷◌, [], length, IfSome};
ghost use Rattle.std.specs.Option.{IfNone};
ghost use Rattle.std.specs.Str.{chars};
ghost use Rattle.tw_text.specs.Places.{first_place};
ghost use Rattle.tw_lex.specs.Scans.{seen};
ghost use Rattle.tw_lex.specs.Tokens.{HasTokens};
ghost use Rattle.tw_lex.specs.Cursors.{TokensFrom, TokensFrom-prop, HasCount, from_token, after_first};

use crate::Token;
use crate::next::{Next, next_token};
use crate::suffix::Suffix;

/// The tokens that are left of a text: the first of them, what follows it, and how many they are.
#[derive(Debug, Clone, Copy)]
pub struct Cursor<'t> {
    current: Option<Token<'t>>,
    rest: Suffix<'t>,
    left: usize,
    pub ghost tokens: { TokensFrom (chars rest.text.now) rest.at } by { TokensFrom-prop _ _ },
    pub ghost counted: { left ≡ length (from_token current tokens.0) },
}

impl<'t> Cursor<'t> {
    ghost use Rattle.tw_lex.specs.Left.{left_of};

    /// So many tokens, from a place of a text on.
    #[tactic(auto, unfolding(crate::specs::Left::left_of))]
    #[inline(always)]
    fn at(rest: Suffix<'t>, left: usize) -> Cursor<'t>
        requires { (toks : TokensFrom (chars rest.text.now) rest.at) × (left ≡ length toks.0) }
        ensures { (toks : TokensFrom (chars rest.entry.text.now) rest.entry.at) → left_of result ≡ toks.0 }
    {
        match next_token(rest) {
            Next::Token(token, following) => {
                return Cursor {
                    current: Some(token),
                    rest: following,
                    left,
                };
            }
            Next::End => {
                return Cursor {
                    current: None,
                    rest,
                    left,
                };
            }
            Next::Wrong(_) => unreachable!(),
        }
    }

    /// The tokens of a text, which are so many.
    #[tactic(auto, unfolding(crate::specs::Left::left_of))]
    #[inline(never)]
    pub fn new(text: &'t str, left: usize) -> Cursor<'t>
        requires short { length text.now < 4294967295 }
        requires counted { HasCount (chars text.now) left }
        ensures { HasTokens (chars text.now) first_place (left_of result) }
    {
        Cursor::at(Suffix::of(text), left)
    }

    /// The first token that is left.
    #[tactic(auto, unfolding(crate::specs::Left::left_of))]
    pub fn first(&self) -> Option<Token<'t>>
        ensures some { IfSome result (λ token. left_of self.now ≡ seen token ∷ self.now.tokens.0) }
        ensures none { IfNone result (left_of self.now ≡ []) }
    {
        self.current
    }

    /// The number of tokens that are left.
    #[tactic(auto, unfolding(crate::specs::Left::left_of))]
    pub fn left(&self) -> usize
        ensures { result ≡ length (left_of self.now) }
    {
        self.left
    }

    /// Passes the first token, if one is left.
    #[tactic(auto, unfolding(crate::specs::Left::left_of))]
    #[inline(never)]
    pub fn advance(&mut self)
        ensures { left_of self.new ≡ after_first (left_of self.old) }
    {
        if let Some(_) = self.current {
            *self = Cursor::at(self.rest, self.left - 1);
        }
    }
}
