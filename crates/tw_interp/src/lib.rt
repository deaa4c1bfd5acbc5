//! The interpreter: it runs an entry of a reversible program on a state, forward or backward.
//! The definitions of `specs/` say what its answers mean in terms of the semantics of `tw_state`.
#![tactic(auto)]

mod activation;
mod call;
mod changes;
mod entry;
mod evaluate;
mod fault;
mod formula;
mod frame;
mod machine;
mod memory_step;
mod numbered;
mod numbering;
mod operator;
mod pad;
mod part;
mod prepare;
mod run;
mod runner;
mod step;
mod variable;

pub use entry::{first_side, last_side, run_entry};
pub use fault::{Reason, RunFault};
pub use runner::Runner;
