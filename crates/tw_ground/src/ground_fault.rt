//! Why a state is not made.
ghost use Rattle.std.specs.Prelude.{◌≡◌};
ghost use Rattle.tw_ground.specs.declared.ground_fault.GroundFault.TheVariants as fault;

use std::alloc::{AllocError, AllocFailed};
use thiserror::Error;

/// Why the state of a list is not made.
#[derive(Debug, Clone, Copy, PartialEq, Eq, Error)]
pub enum GroundFault {
    /// There are more items than blocks.
    #[error("there are more items than blocks")]
    TooMany { found: u64, limit: u64 },
    /// Out of memory.
    #[error("out of memory")]
    Memory,
}

impl From<AllocError> for GroundFault {
    ghost from_gives = { λ _ e. e ≡ fault.Memory };

    /// Out of memory.
    fn from(_error: AllocError) -> GroundFault {
        GroundFault::Memory
    }
}

impl<T: Drop> From<AllocFailed<T>> for GroundFault {
    ghost from_gives = { λ _ e. e ≡ fault.Memory };

    fn from(_error: AllocFailed<T>) -> GroundFault {
        GroundFault::Memory
    }
}
