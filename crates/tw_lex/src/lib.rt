//! Tokens: the names, keywords, numbers, operators and delimiters of a text, each with its place.
//! The definitions of `specs/` say what the pieces of a text are, and `proofs/` has their laws.
#![tactic(auto)]

mod cursor;
mod leading;
mod lexer;
mod next;
mod number;
mod operator;
mod run;
mod scanned;
mod space;
mod suffix;
mod symbol;
mod token;
mod word;

pub use cursor::Cursor;
pub use lexer::{count_tokens, tokens};
pub use symbol::Symbol;
pub use token::{Token, TokenKind};
