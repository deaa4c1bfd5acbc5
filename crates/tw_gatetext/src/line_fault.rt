//! Why a line of a gate file is refused.
ghost use Rattle.tw_gatetext.specs.Reading.{limit_seen, IsTried};

use crate::file::GateFault;
use crate::numbers::number_shown;
use tw_text::{Counted, Pos, Refusal, after};

/// A limit on a number of a line.
pub struct NumberLimit {
    /// The line's keyword and the space after it.
    pub word: &'static [u8],
    /// What the number counts.
    pub what: Counted,
}

/// The refusal of a line that is not right, with its number and its limit. If the number after the keyword passes the limit, this
/// is the reason, whatever follows. Otherwise the line is wrong.
pub fn refused_line(limit: &NumberLimit, line: u32, bytes: &[u8]) -> GateFault
    ensures { IsTried (limit_seen limit.now) bytes.now line result }
{
    let Some(behind) = after(bytes, limit.word) else {
        return GateFault::BadGateText { line };
    };
    let Some(found) = number_shown(behind) else {
        return GateFault::BadGateText { line };
    };
    if found <= limit.what.limit() {
        return GateFault::BadGateText { line };
    }
    GateFault::Over(Refusal::passed(limit.what, found, Pos { line: 1, col: 1 }))
}
