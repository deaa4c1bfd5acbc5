//! Why reading ends early.

ghost use Rattle.std.specs.Prelude.{◌≡◌};
ghost use Rattle.tw_parse.specs.declared.error.ParseError.TheVariants.{Memory};

use std::alloc::{AllocError, AllocFailed};

/// What is wrong with the tokens. The number says how many are left, the wrong one included: 0 at the end.
#[derive(Debug, Clone, Copy, PartialEq, Eq)]
pub enum Rejection {
    /// The token does not go on with a program.
    Syntax(usize),
    /// The token opens a bracket in too many others.
    Nesting(usize),
}

/// Why reading ends early: the tokens are wrong, or memory is wanting.
#[derive(Debug, Clone, Copy, PartialEq, Eq)]
pub enum ParseError {
    Memory,
    Rejection(Rejection),
}

impl From<AllocError> for ParseError {
    ghost from_gives = { λ _ e. e ≡ Memory };

    fn from(_error: AllocError) -> ParseError {
        ParseError::Memory
    }
}

impl<T: Drop> From<AllocFailed<T>> for ParseError {
    ghost from_gives = { λ _ e. e ≡ Memory };

    fn from(_error: AllocFailed<T>) -> ParseError {
        ParseError::Memory
    }
}
