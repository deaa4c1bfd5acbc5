//! The wires of a function while it runs.
ghost use Rattle.std.specs.Prelude.{unwrap_or};
ghost use Rattle.std.proofs.Props.{props};
ghost use Rattle.tw_arith.specs.Operands.{EndsWithin};
ghost use Rattle.tw_state.specs.States.{Name};
ghost use Rattle.tw_frames.specs.Found.{setting_of, types_of};
ghost use Rattle.tw_frames.specs.Sizes.{name_size};
ghost use Rattle.tw_lower.specs.NameWires.{wires_of};

use crate::names::NameWires;
use tw_frames::{Body, WireLayout};

/// The wires of a function while it runs, in the layout of an entry. All of them have numbers.
#[derive(Drop)]
pub struct FrameWires<'c, 'a> {
    /// The function.
    pub body: Body<'c, 'a>,
    /// The number of its bound.
    pub own: u8,
    /// The layout of the entry.
    pub layout: WireLayout,
    /// The first wires of its names.
    pub names: NameWires<'a>,
    /// The first wire of its `if`s.
    pub ifs: u32,
    pub ghost within: { (name : Name) → EndsWithin (unwrap_or (wires_of names name) ifs) (name_size (setting_of body).widths (types_of body) name) } by { Prim.hlevel props },
}
