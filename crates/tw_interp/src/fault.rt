//! Faults of a run.
ghost use Rattle.std.specs.Prelude.{◌≡◌, ◌≤◌, length};
ghost use Rattle.tw_interp.specs.declared.fault.Reason.TheVariants as reasons;
ghost use Rattle.tw_interp.specs.declared.fault.RunFault.TheVariants as fault;
ghost use Rattle.tw_interp.specs.Following.{reason_of};
ghost use Rattle.tw_interp.specs.StuckLines.{reason_name};

use std::alloc::{AllocError, AllocFailed};
use tw_text::Pos;

/// Why a statement is stuck. `docs/DEFINITIONS-MEANING.md` says which statements are stuck for which reason.
#[derive(Debug, Clone, Copy, PartialEq, Eq)]
pub enum Reason {
    /// An un-assigned variable has another value, or null is freed although a block is free.
    Unmet,
    /// A pointer leads to no live block of its target.
    Wild,
    /// The value of a freed block is not zero.
    Dirty,
    /// A variable that the branch not taken un-assigns is not zero.
    Pad,
}

/// Why a run has no result.
#[derive(Debug, Drop)]
pub enum RunFault {
    /// A statement is stuck. The place is its first token.
    Stuck { reason: Reason, at: Pos },
    /// Out of memory.
    Memory,
}

impl Reason {
    /// The name of the reason in the line of a statement that is stuck.
    pub fn name(self) -> &'static str
        ensures name { result.now ≡ reason_name (reason_of self) }
        ensures short { length result.now ≤ 5 }
    {
        match self {
            Reason::Unmet => "unmet",
            Reason::Wild => "wild",
            Reason::Dirty => "dirty",
            Reason::Pad => "pad",
        }
    }
}

impl From<AllocError> for RunFault {
    ghost from_gives = { λ _ e. e ≡ fault.Memory };

    /// Out of memory.
    fn from(_error: AllocError) -> RunFault {
        RunFault::Memory
    }
}

impl<T: Drop> From<AllocFailed<T>> for RunFault {
    ghost from_gives = { λ _ e. e ≡ fault.Memory };

    fn from(_error: AllocFailed<T>) -> RunFault {
        RunFault::Memory
    }
}

/// The answer where no rule of the semantics applies to a statement, which happens in no state that is typed for an accepted program.
pub fn no_rule(at: Pos) -> RunFault
    ensures { result ≡ fault.Stuck reasons.Unmet at }
{
    stuck(Reason::Unmet, at)
}

/// A statement is stuck.
pub fn stuck(reason: Reason, at: Pos) -> RunFault
    ensures { result ≡ fault.Stuck reason at }
{
    RunFault::Stuck { reason, at }
}
