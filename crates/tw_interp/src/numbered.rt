//! Statements in which variables, functions and targets have numbers.
use crate::formula::Formula;
use crate::variable::{Var, VarPath};
use tw_syntax::{Bound, Name, Written};
use tw_text::Pos;
use tw_types::TargetId;

/// A statement and its place.
#[derive(Clone, Copy)]
#[cycle(step)]
pub struct Step<'c, 'a> {
    pub at: Pos,
    pub action: Action<'c, 'a>,
}

/// The forms of a statement.
#[derive(Clone, Copy)]
#[cycle(step)]
pub enum Action<'c, 'a> {
    /// `forward` is true for an assignment, and false for an un-assignment.
    Let {
        forward: bool,
        target: Var<'a>,
        source: Source<'c, 'a>,
    },
    Swap(VarPath<'a>, VarPath<'a>),
    /// A pointer, what is exchanged with the value that it points to, and the target of the pointer's type.
    MemSwap {
        pointer: VarPath<'a>,
        place: VarPath<'a>,
        target: Option<TargetId>,
    },
    If {
        cond: VarPath<'a>,
        yes: &'c [Step<'c, 'a>],
        no: Option<Other<'c, 'a>>,
    },
    With {
        setup: &'c [Step<'c, 'a>],
        work: &'c [Step<'c, 'a>],
    },
    Block(&'c [Step<'c, 'a>]),
    Skip,
}

/// An `else`, and the place of this keyword.
#[derive(Clone, Copy)]
#[cycle(step)]
pub struct Other<'c, 'a> {
    pub at: Pos,
    pub steps: &'c [Step<'c, 'a>],
}

/// The right side of a `let`.
#[derive(Clone, Copy)]
pub enum Source<'c, 'a> {
    Formula(Formula<'a>),
    /// `number` is that of the function of this name.
    Call {
        callee: Name<'a>,
        number: Option<usize>,
        bound: Option<Bound<'a>>,
        args: &'c [Var<'a>],
    },
    /// A new block that holds a value of this type, the target of this number.
    Alloc {
        written: &'a Written<'a>,
        target: Option<TargetId>,
    },
}
