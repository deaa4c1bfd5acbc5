//! The end of a call: the status, and the line of a refusal.
ghost use Rattle.std.specs.Prelude.{◌≡◌};
ghost use Rattle.tw_text.specs.declared.diagnostic.Diagnostic.TheVariants as diagnostic;
ghost use Rattle.tower.specs.declared.ending.Unanswered.TheVariants as unanswered;
ghost use Rattle.tower.specs.Outcomes.{rule_status, refusal_status};
ghost use Rattle.tower.specs.Ending.{of_source, of_gates, of_lines, of_states, Refused, Finished};

use crate::status::Status;
use std::alloc::{AllocError, AllocFailed};
use tw_gatetext::GateFault;
use tw_io::{Sink, WriteFault, write_all};
use tw_sim::{LinesFault, too_many};
use tw_state::StateFault;
use tw_text::{Diagnostic, Fault, Refusal, Rule};

/// How a command ends otherwise than with `Ok`.
#[derive(Debug, Clone, Copy, PartialEq, Eq)]
pub enum Unanswered {
    /// The request is refused. Nothing is written yet.
    Refused(Diagnostic),
    /// A statement is stuck on a state. The whole text was written.
    Stuck,
    /// Memory ran out. Nothing was written.
    Memory,
    /// The sink failed. It took a prefix of the text.
    WriteFault,
}

impl From<Fault> for Unanswered {
    ghost from_gives = { λ fault e. e ≡ of_source fault };

    fn from(fault: Fault) -> Unanswered {
        match fault {
            Fault::Refused(refusal) => Unanswered::Refused(Diagnostic::Refused(refusal)),
            Fault::Memory => Unanswered::Memory,
        }
    }
}

impl From<Refusal> for Unanswered {
    ghost from_gives = { λ refusal e. e ≡ unanswered.Refused (diagnostic.Refused refusal) };

    fn from(refusal: Refusal) -> Unanswered {
        Unanswered::Refused(Diagnostic::Refused(refusal))
    }
}

impl From<GateFault> for Unanswered {
    ghost from_gives = { λ fault e. e ≡ of_gates fault };

    fn from(fault: GateFault) -> Unanswered {
        match fault {
            GateFault::BadGateText { line } => {
                Unanswered::Refused(Diagnostic::BadGateText { line })
            }
            GateFault::Over(refusal) => Unanswered::Refused(Diagnostic::Refused(refusal)),
            GateFault::Memory => Unanswered::Memory,
        }
    }
}

impl From<LinesFault> for Unanswered {
    ghost from_gives = { λ fault e. e ≡ of_lines fault };

    fn from(fault: LinesFault) -> Unanswered {
        match fault {
            LinesFault::BitsLength { line } => Unanswered::Refused(Diagnostic::BitsLength { line }),
            LinesFault::Over(refusal) => Unanswered::Refused(Diagnostic::Refused(refusal)),
            LinesFault::Memory => Unanswered::Memory,
        }
    }
}

impl From<StateFault> for Unanswered {
    ghost from_gives = { λ fault e. e ≡ of_states fault };

    fn from(fault: StateFault) -> Unanswered {
        match fault {
            StateFault::BadState { line, why } => {
                Unanswered::Refused(Diagnostic::BadState { line, why })
            }
            StateFault::TooMany => Unanswered::Refused(Diagnostic::Refused(too_many())),
            StateFault::Memory => Unanswered::Memory,
        }
    }
}

impl From<WriteFault> for Unanswered {
    ghost from_gives = { λ _ e. e ≡ unanswered.WriteFault };

    fn from(_fault: WriteFault) -> Unanswered {
        Unanswered::WriteFault
    }
}

impl From<AllocError> for Unanswered {
    ghost from_gives = { λ _ e. e ≡ unanswered.Memory };

    fn from(_error: AllocError) -> Unanswered {
        Unanswered::Memory
    }
}

impl<T: Drop> From<AllocFailed<T>> for Unanswered {
    ghost from_gives = { λ _ e. e ≡ unanswered.Memory };

    fn from(_error: AllocFailed<T>) -> Unanswered {
        Unanswered::Memory
    }
}

/// The status of a refusal by this rule.
fn rule_status(rule: Rule) -> Status
    ensures { result ≡ rule_status rule }
{
    match rule {
        Rule::Utf8 => Status::Utf8,
        Rule::Token => Status::Token,
        Rule::Syntax => Status::Syntax,
        Rule::Limit(_) => Status::Limit,
        Rule::DuplicateName
        | Rule::UnknownName
        | Rule::RecursiveType
        | Rule::TypeTooDeep
        | Rule::TypeTooLarge
        | Rule::CallOrder
        | Rule::BadCall
        | Rule::RepeatedArgument
        | Rule::LiteralTooWide
        | Rule::TypeMismatch
        | Rule::TypeChanged
        | Rule::BadReturn
        | Rule::BadEntry => Status::Resolve,
        Rule::NotDeclared
        | Rule::Redeclared
        | Rule::ConditionWritten
        | Rule::SelfUse
        | Rule::Overlap
        | Rule::BranchesDiffer
        | Rule::WithNotUndone
        | Rule::Left => Status::Check,
    }
}

/// The status of a refusal.
fn refusal_status(why: &Diagnostic) -> Status
    ensures { result ≡ refusal_status why.now }
{
    match why {
        Diagnostic::Usage => Status::Usage,
        Diagnostic::Refused(refusal) => rule_status(refusal.rule),
        Diagnostic::BadGateText { .. } => Status::BadGateText,
        Diagnostic::BitsLength { .. } => Status::BitsLength,
        Diagnostic::BadState { .. } => Status::BadState,
        Diagnostic::LevelT => Status::LevelT,
        Diagnostic::NotBuilt => Status::NotBuilt,
    }
}

/// Writes the line of a refusal. Returns its status, or `WriteFault` if the sink fails.
pub fn refuse<K: Sink>(output: &mut K, why: &Diagnostic) -> Status
    ensures { Refused K.taken K.faults output.old output.new why.now result }
{
    match write_all(output, why.line().as_bytes()) {
        Ok(()) => refusal_status(why),
        Err(WriteFault) => Status::WriteFault,
    }
}

/// Ends a call after its command: writes the line of a refusal, and returns the status.
pub fn finish<K: Sink>(output: &mut K, did: Result<(), Unanswered>) -> Status
    ensures { Finished K.taken K.faults output.old output.new did result }
{
    match did {
        Ok(()) => Status::Ok,
        Err(Unanswered::Refused(why)) => refuse(output, &why),
        Err(Unanswered::Stuck) => Status::Stuck,
        Err(Unanswered::Memory) => Status::Memory,
        Err(Unanswered::WriteFault) => Status::WriteFault,
    }
}
