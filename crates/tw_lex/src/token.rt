use crate::Symbol;
use tw_text::Pos;

/// What a token is.
#[derive(Debug, Clone, Copy, PartialEq, Eq)]
pub enum TokenKind {
    /// A name.
    Name,
    /// A keyword.
    Word(Symbol),
    /// A number, with its value.
    Number(u64),
    /// An operator or a delimiter.
    Mark(Symbol),
}

/// A token: its text, which is a slice of the source, its place, and what it is.
#[derive(Debug, Clone, Copy, PartialEq, Eq)]
pub struct Token<'t> {
    pub text: &'t str,
    pub at: Pos,
    pub kind: TokenKind,
}
