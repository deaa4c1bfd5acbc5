//! Programs that are handed out with the compiler, and states for them: the length of a list.
//! `specs/` gives the state of a list of words.
#![tactic(auto)]

mod ground_fault;
mod making;
mod source;

pub use ground_fault::GroundFault;
pub use making::list_state;
pub use source::{Ground, LIST_SOURCE, source_of};
