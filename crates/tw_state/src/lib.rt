//! States of a program's memory and variables.
//! The definitions of `specs/` give the states, the semantics of statements, the renaming of blocks, the encoding in bits, and the texts.
#![tactic(auto)]

mod encoding;
mod free_cells;
mod line_text;
mod names;
mod number_text;
mod printing;
mod reading;
mod renaming;
mod state;
mod state_fault;
mod typing;
mod value_text;

pub use encoding::encode_state;
pub use free_cells::well_formed;
pub use names::{name_at, name_count};
pub use printing::print_state;
pub use reading::{SEPARATOR, read_states};
pub use renaming::rename;
pub use state::{Cell, Side, State};
pub use state_fault::StateFault;
pub use typing::typed;
