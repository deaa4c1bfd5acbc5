//! The entry of a program, with its price: what `compile` and `encode` begin with.
ghost use Rattle.std.specs.Prelude.{◌≤◌, length, IfErr, IfOk};
ghost use Rattle.tw_text.specs.declared.limits.TheConstants.{INPUT_LIMIT};
ghost use Rattle.tower.specs.Given.{file_request};
ghost use Rattle.tower.specs.CircuitEntries.{HasNoCircuit, IsPricedEntry};

use crate::accept::accept;
use crate::ending::Unanswered;
use crate::request::Options;
use std::alloc::Global;
use tw_check::{Checked, Entry, find_entry};
use tw_cost::{Priced, price};
use tw_gate::Level;
use tw_lower::is_built;
use tw_text::{Arena, Diagnostic};

/// No circuit is rewritten yet.
const NEITHER: tw_code::Options = tw_code::Options {
    flatten: false,
    narrow: false,
};

/// An entry whose circuit is within the limits.
#[derive(Drop)]
pub struct PricedEntry<'a> {
    /// The program.
    pub checked: Checked<'a>,
    /// The function, and the number of its bound.
    pub entry: Entry,
    /// What its circuit costs, and the layout of the wires.
    pub priced: Priced,
}

/// The entry that options name in the program whose source the bytes are. An error: the source is refused, or the program or the entry
/// by the first rule that does not hold, or as not built, or by the first limit that it passes; or memory ran out.
pub fn priced_entry<'a>(
    alloc: Global,
    arena: &'a Arena,
    options: &Options<'_>,
    bytes: &'a [u8],
) -> Result<PricedEntry<'a>, Unanswered>
    requires { length bytes.now ≤ INPUT_LIMIT }
    ensures priced { IfOk result (λ found. IsPricedEntry (file_request options.now) bytes.now found.checked found.entry found.priced) }
    ensures refused { IfErr result (HasNoCircuit (file_request options.now) bytes.now) }
{
    let checked = accept(alloc, arena, options.widths, bytes)?;
    let entry = find_entry(&checked, options.entry, options.bound)?;
    if !is_built(&checked) {
        return Err(Unanswered::Refused(Diagnostic::NotBuilt));
    }
    let priced = price(alloc, &checked, entry, NEITHER, Level::Mcx)?;
    Ok(PricedEntry {
        checked,
        entry,
        priced,
    })
}
