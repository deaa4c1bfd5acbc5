//! Gate files: the text of a file, written to a sink piece by piece, read back, and inverted without a list of its gates.
//! `specs/` defines the text of a file, the valid files, the lines that may follow one another, and how bytes that begin with no
//! file are refused. `proofs/` shows that the text of a file determines it.
#![tactic(auto)]

mod file;
mod gate_fits;
mod gate_words;
mod header;
mod inverting;
mod line_fault;
mod line_out;
mod numbers;
mod pieces;
mod reading;
mod text_reading;
mod writing;

pub use file::{FileText, GateFault, GateFile};
pub use inverting::write_inverse;
pub use line_out::LineOut;
pub use reading::read_gates;
pub use text_reading::read_text;
pub use writing::{write_end, write_gate, write_gate_file, write_header};
