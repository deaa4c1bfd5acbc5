//! The price of an entry.
ghost use Rattle.std.specs.Prelude.{◌≡◌, ℕ, List, IfOk};
ghost use Rattle.tw_text.specs.declared.limits.TheConstants.{DEPTH_LIMIT};
ghost use Rattle.tw_syntax.specs.Programs.{program_tree};
ghost use Rattle.tw_code.specs.Rows.{Row, most_controls};
ghost use Rattle.tw_resolve.specs.Declarations.{funs_of};
ghost use Rattle.tw_resolve.specs.Demands.{Tries};
ghost use Rattle.tw_resolve.specs.Resolved.{resolved_setting};
ghost use Rattle.tw_check.specs.EntryPoints.{IsEntry};
ghost use Rattle.tw_state.specs.Depth.{EntryWithin};
ghost use Rattle.tw_frames.specs.declared.measured.Measured.{Measured};
ghost use Rattle.tw_frames.specs.declared.regions.WireLayout.{WireLayout};
ghost use Rattle.tw_frames.specs.Inventory.{line_total};
ghost use Rattle.tw_frames.specs.Layout.{HasOneLayout, IsLaidOut};
ghost use Rattle.tw_frames.specs.Measures.{HasOneMeasure, IsMeasured};
ghost use Rattle.tw_frames.specs.Regions.{AreFrames, AreInOrder};
ghost use Rattle.tw_cost.specs.Costs.{cost_of};
ghost use Rattle.tw_cost.specs.Prices.{HasInventory, HasOneInventory, IsPriced, price_rules};

use crate::costs::Cost;
use crate::counting::{Circuit, count_entry};
use std::alloc::Global;
use tw_check::{Checked, Entry};
use tw_code::Options;
use tw_frames::{Body, WireLayout, layout, measure, need_within};
use tw_gate::{Level, TOFFOLI_T_COUNT};
use tw_text::{Counted, Fault};

/// What the circuit of an entry costs at a level, and its layout.
#[derive(Debug, Clone, Copy, PartialEq, Eq)]
pub struct Priced {
    /// The gate lines at the level.
    pub lines: u64,
    /// The T gates and inverse T gates.
    pub t_count: u64,
    /// The Toffoli gates that the gates of two or more controls become.
    pub toffolis: u64,
    /// The most controls of one gate at the level `mcx`; 0 without gates.
    pub most_controls: u32,
    /// The layout of the wires.
    pub layout: WireLayout,
}

/// The cost of the circuit of an entry.
fn cost_of_entry(checked: &Checked<'_>, entry: Entry, circuit: Circuit) -> Cost
    requires { IsEntry (funs_of (program_tree checked.now.resolved.program.now).decls) entry }
    ensures { EntryWithin (resolved_setting checked.now.resolved) DEPTH_LIMIT entry.fun entry.bound → (rows : List Row) → HasInventory (resolved_setting checked.now.resolved) entry circuit.options rows → result ≡ cost_of circuit.level rows }
{
    let body = Body {
        program: &checked.resolved,
        fun: entry.fun,
    };
    count_entry(&body, circuit, entry.bound)
}

/// The price of an entry: the sums of its inventory, and its layout. Builds no circuit: takes one walk over the statements as they run,
/// calls included, with each setup once. Refused by the limits on statements, depth, controls, wires and lines, in this order, each
/// with the exact number, or the greatest `u64` if the number is greater. A fault: refused, or out of memory. The inventory is stated
/// in docs/CIRCUITS.md.
pub fn price(
    alloc: Global,
    checked: &Checked<'_>,
    entry: Entry,
    options: Options,
    level: Level,
) -> Result<Priced, Fault>
    requires { IsEntry (funs_of (program_tree checked.now.resolved.program.now).decls) entry }
    ensures priced { IfOk result (IsPriced (resolved_setting checked.now.resolved) entry options level) }
    ensures tried { (measured : Measured) (rows : List Row) (layout : WireLayout) → IsMeasured (resolved_setting checked.now.resolved) entry measured → HasInventory (resolved_setting checked.now.resolved) entry options rows → IsLaidOut (resolved_setting checked.now.resolved) entry options level (most_controls rows) layout → Tries (price_rules measured (most_controls rows) layout (line_total level rows)) result }
    ensures one_measure { HasOneMeasure (resolved_setting checked.now.resolved) entry }
    ensures one_inventory { HasOneInventory (resolved_setting checked.now.resolved) entry options }
    ensures one_layout { (most : ℕ) → HasOneLayout (resolved_setting checked.now.resolved) entry options level most }
    ensures regions { IfOk result (λ p. AreInOrder (resolved_setting checked.now.resolved).widths p.layout) }
    ensures frames { IfOk result (λ p. AreFrames (resolved_setting checked.now.resolved) entry p.layout) }
{
    let measured = measure(alloc, checked, entry)?;
    let cost = cost_of_entry(checked, entry, Circuit { options, level });
    need_within(Counted::Controls, cost.most_controls)?;
    let most_controls = cost.most_controls as u32;
    let layout = match layout(checked, entry, &measured, options, level, most_controls) {
        Ok(layout) => layout,
        Err(refusal) => return Err(Fault::Refused(refusal)),
    };
    need_within(Counted::Lines, cost.lines)?;
    Ok(Priced {
        lines: cost.lines,
        t_count: TOFFOLI_T_COUNT.saturating_mul(cost.toffolis),
        toffolis: cost.toffolis,
        most_controls,
        layout,
    })
}
