//! Why texts of states are not read.
ghost use Rattle.std.specs.Prelude.{◌≡◌};
ghost use Rattle.tw_state.specs.declared.state_fault.StateFault.TheVariants as fault;

use std::alloc::{AllocError, AllocFailed};
use thiserror::Error;
use tw_text::StateWhy;

/// Why bytes are not read as states.
#[derive(Debug, Clone, Copy, PartialEq, Eq, Error)]
pub enum StateFault {
    /// This line is the first that is wrong or missing; or the state that begins there is not well-formed. Lines count from 1.
    #[error("a state is wrong")]
    BadState { line: u32, why: StateWhy },
    /// A separator follows as many states as the limit.
    #[error("there are too many states")]
    TooMany,
    /// Out of memory.
    #[error("out of memory")]
    Memory,
}

impl From<AllocError> for StateFault {
    ghost from_gives = { λ _ e. e ≡ fault.Memory };

    /// Out of memory.
    fn from(_error: AllocError) -> StateFault {
        StateFault::Memory
    }
}

impl<T: Drop> From<AllocFailed<T>> for StateFault {
    ghost from_gives = { λ _ e. e ≡ fault.Memory };

    fn from(_error: AllocFailed<T>) -> StateFault {
        StateFault::Memory
    }
}
