//! Atoms, expressions and right sides.
use crate::name::{Name, Path};
use crate::written::Written;
use tw_text::Pos;

/// An atom, an expression without computed parts, and its place.
#[derive(Clone, Copy)]
pub struct Atom<'a> {
    pub at: Pos,
    pub kind: AtomKind<'a>,
}

/// The forms of an atom.
#[derive(Clone, Copy)]
pub enum AtomKind<'a> {
    Place(Path<'a>),
    Number(u64),
    True,
    False,
    Unit,
    /// The null pointer to this type.
    Null(&'a Written<'a>),
    /// The default value of this type.
    Zero(&'a Written<'a>),
}

/// An expression and its place.
#[derive(Clone, Copy)]
pub struct Expr<'a> {
    pub at: Pos,
    pub kind: ExprKind<'a>,
}

/// The forms of an expression.
#[derive(Clone, Copy)]
pub enum ExprKind<'a> {
    One(Atom<'a>),
    /// A pair.
    Two(Atom<'a>, Atom<'a>),
    Not(Atom<'a>),
    Op(OpKind, Atom<'a>, Atom<'a>),
}

/// The operators between two atoms.
#[derive(Clone, Copy)]
pub enum OpKind {
    Add,
    Sub,
    Mul,
    Lt,
    Eq,
    Ne,
    And,
    Or,
}

/// The bound of a call.
#[derive(Clone, Copy)]
pub enum Bound<'a> {
    Fixed(u8),
    Same(Name<'a>),
    /// The bound of this name minus a number.
    Less(Name<'a>, u8),
}

/// The right side of a `let`.
#[derive(Clone, Copy)]
pub enum Rhs<'a> {
    Expr(Expr<'a>),
    Call {
        callee: Name<'a>,
        bound: Option<Bound<'a>>,
        args: &'a [Name<'a>],
    },
    /// A new block that holds a value of this type.
    Alloc(&'a Written<'a>),
}
