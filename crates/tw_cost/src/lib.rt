//! What the circuit of an entry costs, without building it.
//! One walk over the statements as they run, calls included, adds up the gates of the inventory. The definitions of the inventory are
//! those of `tw_frames` and `tw_code`.
#![tactic(auto)]

mod costs;
mod counting;
mod expressions;
mod memory;
mod operators;
mod pricing;
mod rows;

pub use pricing::{Priced, price};
