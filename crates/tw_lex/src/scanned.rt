use crate::TokenKind;

/// A token at the beginning of a text: its kind, the number of its characters, and what follows it.
#[derive(Debug, Clone, Copy)]
pub struct Scanned<'t> {
    pub kind: TokenKind,
    pub count: usize,
    pub rest: &'t str,
}
