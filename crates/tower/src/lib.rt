//! The compiler as one call: from command-line arguments and a source of bytes to a sink of bytes and a status.
//! Each command has a file here and one of the same name in `specs/`, which defines its answer. `specs/Answer.antt` defines the
//! answer of a call to arguments and an input.
#![tactic(auto)]

mod accept;
mod call;
mod check;
mod compile;
mod encode;
mod ending;
mod entry;
mod format;
mod gathering;
mod invert;
mod marks;
mod options;
mod replies;
mod request;
mod run;
mod settings;
mod simulate;
mod status;
mod words;

pub use call::tower_main;
pub use status::Status;
pub use words::Words;
