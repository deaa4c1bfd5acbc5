//! Atoms and expressions whose variables have numbers.
use crate::variable::VarPath;
use tw_syntax::{OpKind, Written};
use tw_text::Pos;

/// An atom and its place.
#[derive(Clone, Copy)]
pub struct Operand<'a> {
    pub at: Pos,
    pub kind: OperandKind<'a>,
}

/// The forms of an atom.
#[derive(Clone, Copy)]
pub enum OperandKind<'a> {
    Place(VarPath<'a>),
    Number(u64),
    True,
    False,
    Unit,
    /// The null pointer to this type.
    Null(&'a Written<'a>),
    /// The default value of this type.
    Zero(&'a Written<'a>),
}

/// An expression and its place.
#[derive(Clone, Copy)]
pub struct Formula<'a> {
    pub at: Pos,
    pub kind: FormulaKind<'a>,
}

/// The forms of an expression.
#[derive(Clone, Copy)]
pub enum FormulaKind<'a> {
    One(Operand<'a>),
    /// A pair.
    Two(Operand<'a>, Operand<'a>),
    Not(Operand<'a>),
    Op(OpKind, Operand<'a>, Operand<'a>),
}
