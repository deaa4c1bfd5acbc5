//! The regions of the wires of an entry.
ghost use Rattle.std.specs.Prelude.{◌≡◌};
ghost use Rattle.tw_frames.specs.Layout.{capped_sizes, in_order, IsPlaced};

use tw_text::{Counted, Pos, Refusal, WIRES_LIMIT};
use tw_types::Widths;

/// The numbers of wires of the regions of an entry, as counts that stop at the greatest `u64`.
#[derive(Debug, Clone, Copy, PartialEq, Eq)]
pub struct RegionSizes {
    /// The wires of a block of memory.
    pub block: u64,
    /// The wires of all parameters.
    pub args: u64,
    /// The wires of the result.
    pub out: u64,
    /// The wires of the longest chain of frames.
    pub frames: u64,
    /// The wires of the scratch.
    pub scratch: u64,
    /// The flags of nested `if`s.
    pub flags: u64,
    /// The ancillas of the gate with the most controls.
    pub ladder: u64,
}

/// The layout of an entry: the wires of a block, the first wire of each region, and the number of all wires. The head of the memory lies
/// at wire 0, and its cells after the head.
#[derive(Debug, Clone, Copy, PartialEq, Eq)]
pub struct WireLayout {
    /// The wires of a block of memory.
    pub block: u32,
    /// The first wire of the parameters.
    pub args: u32,
    /// The first wire of the result.
    pub out: u32,
    /// The first wire of the frames.
    pub frame: u32,
    /// The first scratch wire.
    pub scratch: u32,
    /// The first flag.
    pub flags: u32,
    /// The first wire of the ladder.
    pub ladder: u32,
    /// The number of wires.
    pub wires: u32,
}

/// The layout with regions of these sizes. Refused by the limit on wires, with the exact number, or the greatest `u64` if the number is
/// greater.
pub fn place(widths: Widths, sizes: RegionSizes) -> Result<WireLayout, Refusal>
    ensures { (whole : RegionSizes) → sizes ≡ capped_sizes whole → IsPlaced (in_order widths whole) result }
{
    let blocks = u64::from(widths.block_count()).saturating_mul(sizes.block);
    let args = u64::from(widths.addr).saturating_add(blocks);
    let out = args.saturating_add(sizes.args);
    let frame = out.saturating_add(sizes.out);
    let scratch = frame.saturating_add(sizes.frames);
    let flags = scratch.saturating_add(sizes.scratch);
    let ladder = flags.saturating_add(sizes.flags);
    let wires = ladder.saturating_add(sizes.ladder);
    let too_many = wires > WIRES_LIMIT;
    if too_many {
        let at = Pos { line: 1, col: 1 };
        return Err(Refusal::passed(Counted::Wires, wires, at));
    }
    Ok(WireLayout {
        block: sizes.block as u32,
        args: args as u32,
        out: out as u32,
        frame: frame as u32,
        scratch: scratch as u32,
        flags: flags as u32,
        ladder: ladder as u32,
        wires: wires as u32,
    })
}
