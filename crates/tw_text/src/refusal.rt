//! Refusals: the rules of sources, and what limits count.
ghost use Rattle.std.specs.Prelude.{◌≡◌};
ghost use Rattle.tw_text.specs.Refusals.{broken, passed};
ghost use Rattle.tw_text.specs.declared.refusal.Fault.TheVariants as fault;

use crate::place::Pos;
use bumpalo::Bump;
use std::alloc::{AllocError, AllocFailed, Global};
use thiserror::Error;

/// The arena of syntax trees, types and names. Its owner outlives all that borrows from it.
pub type Arena = Bump<Global>;

/// What a limit counts.
#[derive(Debug, Clone, Copy, PartialEq, Eq)]
pub enum Counted {
    /// Bytes of the input.
    Input,
    /// Brackets that are open at one place of the source.
    Nesting,
    /// Statements that are run.
    Statements,
    /// Statements that are nested in one another.
    Depth,
    /// Controls of one gate.
    Controls,
    /// Wires of the layout.
    Wires,
    /// Gate lines.
    Lines,
    /// States, or lines of bits.
    States,
}

/// Why a text of states is refused.
#[derive(Debug, Clone, Copy, PartialEq, Eq)]
pub enum StateWhy {
    /// A line is wrong or missing.
    Syntax,
    /// The state is not well-formed: the chain from its head misses a free cell or passes a live one, or does not end.
    Chain,
}

/// The reason why a source is refused: the rule that it breaks, or the limit that it passes.
#[derive(Debug, Clone, Copy, PartialEq, Eq)]
pub enum Rule {
    /// Invalid UTF-8: a byte begins no character.
    Utf8,
    /// Lexical error: characters are no token.
    Token,
    /// Syntax error: no program continues with this token.
    Syntax,
    /// A name is declared twice.
    DuplicateName,
    /// A name is not declared.
    UnknownName,
    /// A type contains itself outside of pointers.
    RecursiveType,
    /// The pairs of a type are nested too deep.
    TypeTooDeep,
    /// A type is too large.
    TypeTooLarge,
    /// A function is called before it is declared, or by itself with no smaller bound.
    CallOrder,
    /// A call has a bound too many or too few, or a wrong number of arguments.
    BadCall,
    /// An argument occurs twice in a call.
    RepeatedArgument,
    /// A number does not fit a word.
    LiteralTooWide,
    /// A type is not the one that is needed.
    TypeMismatch,
    /// A name has another type than before.
    TypeChanged,
    /// A parameter is returned.
    BadReturn,
    /// No function fits the entry.
    BadEntry,
    /// A name has no value here.
    NotDeclared,
    /// A name has a value already.
    Redeclared,
    /// A name that occurs in a condition is written.
    ConditionWritten,
    /// A name is computed from itself.
    SelfUse,
    /// Two paths overlap.
    Overlap,
    /// Two branches end with different names.
    BranchesDiffer,
    /// A setup can't be undone.
    WithNotUndone,
    /// A function leaves other names than its parameters and its result.
    Left,
    /// A limit is passed.
    Limit(Counted),
}

/// A refusal: the rule, its place, the count that was found, and the limit. Both numbers are 0 if the rule is no limit.
#[derive(Debug, Clone, Copy, PartialEq, Eq)]
pub struct Refusal {
    pub rule: Rule,
    pub at: Pos,
    pub found: u64,
    pub limit: u64,
}

impl Refusal {
    /// The refusal for a broken rule at a place. The rule is no limit, so both numbers are 0.
    pub fn broken(rule: Rule, at: Pos) -> Refusal
        ensures { result ≡ broken rule at }
    {
        Refusal {
            rule,
            at,
            found: 0,
            limit: 0,
        }
    }

    /// The refusal for a limit that is passed, with the count that was found. Callers give the place 1:1
    /// for each limit but `Nesting`.
    pub fn passed(counted: Counted, found: u64, at: Pos) -> Refusal
        ensures { result ≡ passed counted found at }
    {
        Refusal {
            rule: Rule::Limit(counted),
            at,
            found,
            limit: counted.limit(),
        }
    }
}

/// Why a call has no answer: the source is refused, or memory ran out.
#[derive(Debug, Clone, Copy, PartialEq, Eq, Error)]
pub enum Fault {
    #[error("the source is refused")]
    Refused(Refusal),
    #[error("out of memory")]
    Memory,
}

impl From<AllocError> for Fault {
    ghost from_gives = { λ _ e. e ≡ fault.Memory };

    fn from(_error: AllocError) -> Fault {
        Fault::Memory
    }
}

impl<T: Drop> From<AllocFailed<T>> for Fault {
    ghost from_gives = { λ _ e. e ≡ fault.Memory };

    fn from(_error: AllocFailed<T>) -> Fault {
        Fault::Memory
    }
}
