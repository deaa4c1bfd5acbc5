//! States: memory, and the values of the variables of an entry.
use tw_types::{TargetId, Val};

/// The cell of a block.
#[derive(Drop)]
pub enum Cell {
    /// A free cell, with the address of the next free one, or 0.
    Free(u32),
    /// A live cell, with its target and its value.
    Live(TargetId, Val),
}

/// A state of an entry.
#[derive(Drop)]
pub struct State {
    /// The address of the first free cell, or 0.
    pub free: u32,
    /// The cells of blocks 1, 2 and so on.
    pub cells: Vec<Cell>,
    /// The values of the entry's parameters, in order. At its end the value of its result follows.
    pub store: Vec<Val>,
}

/// The side of an entry on which a state is: where its body begins, or where it ends.
#[derive(Debug, Clone, Copy, PartialEq, Eq)]
pub enum Side {
    Start,
    End,
}
