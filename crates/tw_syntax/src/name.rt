//! Names and paths.
use tw_text::Pos;

/// A name and its place.
#[derive(Clone, Copy)]
pub struct Name<'a> {
    pub text: &'a str,
    pub at: Pos,
}

/// A path: a name, and the steps from its value to a part. A step is 1 for the first half of a pair, 2 for the second.
#[derive(Clone, Copy)]
pub struct Path<'a> {
    pub root: Name<'a>,
    pub steps: &'a [u8],
}
