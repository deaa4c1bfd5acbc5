//! Operands of expressions.

/// An operand: the wires from one on, or bits of its own, least first.
#[derive(Clone, Copy)]
pub enum Operand<'a> {
    /// The first wire.
    Wires(u32),
    /// A constant. It has as many bits as its width.
    Fixed(&'a [bool]),
}
