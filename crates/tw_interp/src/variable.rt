//! Variables by number.
use tw_syntax::Name;

/// A variable of a function: a name of the source, and the number of the variable among those of the function. There is no number if
/// the function has no variable of this name.
#[derive(Clone, Copy)]
pub struct Var<'a> {
    pub name: Name<'a>,
    pub slot: Option<usize>,
}

/// A path from a variable: the steps lead from its value to a part. A step is 1 for the first half of a pair, 2 for the second.
#[derive(Clone, Copy)]
pub struct VarPath<'a> {
    pub root: Var<'a>,
    pub steps: &'a [u8],
}
