//! Gate files in memory, and why bytes begin with none.
use thiserror::Error;
use tw_gate::{GateList, Level};
use tw_text::Refusal;

/// A gate file in memory.
#[derive(Debug, Drop)]
pub struct GateFile {
    /// Its level: which kinds of gates it may have.
    pub level: Level,
    /// The number of its wires, which are numbered from 0.
    pub wires: u32,
    /// The T-count of its gates.
    pub t_count: u64,
    /// Its gates, in the order in which they act.
    pub gates: GateList,
}

/// The parts of the text of a gate file, and the bytes after it.
#[derive(Debug, Clone, Copy)]
pub struct FileText<'b> {
    /// The five header lines.
    pub header: &'b [u8],
    /// The lines of the gates.
    pub lines: &'b [u8],
    /// The number of the gates.
    pub gates: u32,
    /// The bytes after the last line.
    pub rest: &'b [u8],
}

/// Why bytes begin with no gate file.
#[derive(Debug, Clone, Copy, PartialEq, Eq, Error)]
pub enum GateFault {
    /// This line is the first that is wrong or missing; or it is line 5, and its T-count is not that of the gates.
    /// Lines count from 1.
    #[error("a line of the gate file is wrong")]
    BadGateText { line: u32 },
    /// A number passes its limit: that of wires, of gate lines, or of controls. Its place is 1:1.
    #[error("the gate file passes a limit")]
    Over(Refusal),
    /// Out of memory.
    #[error("out of memory")]
    Memory,
}
