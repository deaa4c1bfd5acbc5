//! Wire code and the options of its rewriting.

/// A circuit of X gates, as a tree. `mean` in `specs/Meaning.antt` gives what it does to bits; a wire past their end is 0.
///
/// Backward, a sequence runs its parts in reverse order, each of them backward, and a setup is followed by its work backward.
/// A code is proper if the wires of each `Flip` are distinct and the body of an `If` does not use the wire of the `If`. Forward and
/// backward of a proper code undo each other.
#[derive(Clone, Copy)]
pub enum Code<'a> {
    /// An X gate: flips the target exactly if all controls are 1. The controls may be in any order.
    Flip { controls: &'a [u32], target: u32 },
    /// These parts, in order.
    Seq(&'a [Code<'a>]),
    /// The body if the wire is 1, and nothing if it is 0.
    If(u32, &'a Code<'a>),
    /// A setup, the work after it, and the setup undone. The gates of the setup get the present controls.
    With(&'a Code<'a>, &'a Code<'a>),
    /// The same, but the gates of the setup get no present controls.
    Conj(&'a Code<'a>, &'a Code<'a>),
}

/// Which rewritings of code are on. `counts` in `specs/Counts.antt` gives how many gates they leave.
#[derive(Debug, Clone, Copy, PartialEq, Eq)]
pub struct Options {
    /// A gate gets at most one control from the `If`s around it.
    pub flatten: bool,
    /// Each `With` becomes a `Conj`.
    pub narrow: bool,
}
