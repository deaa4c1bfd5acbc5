//! The layout of the wires of an entry.
ghost use Rattle.std.specs.Prelude.{◌≡◌, IfErr, IfOk, OnOk, Some, None, slice_get};
ghost use Rattle.tw_text.specs.declared.limits.TheConstants.{DEPTH_LIMIT};
ghost use Rattle.tw_syntax.specs.Programs.{FunTree, program_tree};
ghost use Rattle.tw_resolve.specs.Declarations.{funs_of};
ghost use Rattle.tw_resolve.specs.Demands.{first_broken};
ghost use Rattle.tw_resolve.specs.Resolved.{resolved_setting};
ghost use Rattle.tw_resolve.specs.Setting.{reported};
ghost use Rattle.tw_check.specs.EntryPoints.{IsEntry};
ghost use Rattle.tw_state.specs.Depth.{EntryWithin};
ghost use Rattle.tw_state.specs.Listed.{names_at_start};
ghost use Rattle.tw_state.specs.Steps.{fun_types};
ghost use Rattle.tw_frames.specs.Found.{setting_of};
ghost use Rattle.tw_frames.specs.Layout.{HasOneLayout, IsLaidOut, IsPlaced, capped_sizes, flag_count, ladder_size, region_sizes};
ghost use Rattle.tw_frames.specs.Measures.{IsMeasured};
ghost use Rattle.tw_frames.specs.Regions.{AreFrames, AreInOrder};
ghost use Rattle.tw_frames.specs.Sizes.{names_size};
ghost use Rattle.tw_frames.specs.Workspaces.{capped_workspace};
ghost use Rattle.tw_frames.specs.declared.regions.WireLayout.{WireLayout};
ghost use Rattle.tw_frames.specs.declared.workspace.Workspace.{Workspace};

use crate::body::Body;
use crate::entering::enter;
use crate::measured::Measured;
use crate::regions::{RegionSizes, WireLayout, place};
use crate::sizes::{bits_of_block, bits_of_name};
use crate::workspace::Workspace;
use tw_check::{Checked, Entry};
use tw_code::Options;
use tw_gate::Level;
use tw_text::Refusal;

/// The number of flags, if `if`s are nested this deep: with flattening, one for each `if` in another at the deepest place.
fn flag_count(options: Options, if_depth: u64) -> u64
    ensures { result ≡ flag_count options if_depth }
{
    if options.flatten {
        if_depth.saturating_sub(1)
    } else {
        0
    }
}

/// The number of wires of the ladder, for a gate of this number of controls: none at the level where it is one gate.
fn ladder_size(level: Level, most_controls: u32) -> u32
    ensures { result ≡ ladder_size level most_controls }
{
    match level {
        Level::Mcx => 0,
        Level::Tof => most_controls.saturating_sub(2),
        Level::T => most_controls.saturating_sub(2),
    }
}

/// The number of bits of the parameters of a function.
fn bits_of_params(body: &Body<'_, '_>) -> u64
    ensures { (fun : FunTree) → slice_get (setting_of body.now).funs body.now.fun ≡ Some fun → result ≡ reported (names_size (setting_of body.now).widths (fun_types (setting_of body.now) fun) (names_at_start fun)) }
{
    let params = body.program.fun_at(body.fun).params;
    let mut total: u64 = 0;
    for param in params {
        total = total.saturating_add(bits_of_name(body, param.name.text));
    }
    total
}

/// The sizes of the regions of an entry, for its workspace and these numbers of flags and of wires of the ladder.
fn sizes_of(body: &Body<'_, '_>, workspace: Workspace, flags: u64, ladder: u32) -> RegionSizes
    ensures { (fun : FunTree) (whole : Workspace) → slice_get (setting_of body.now).funs body.now.fun ≡ Some fun → workspace ≡ capped_workspace whole → result ≡ capped_sizes (region_sizes (setting_of body.now) fun whole flags ladder) }
{
    let program = body.program;
    RegionSizes {
        block: bits_of_block(program.targets(), program.widths()),
        args: bits_of_params(body),
        out: bits_of_name(body, program.fun_at(body.fun).returned.text),
        frames: workspace.frames,
        scratch: workspace.scratch,
        flags,
        ladder: u64::from(ladder),
    }
}

/// The layout of an entry, for the answer of `measure` for it, if its circuit has no gate of more controls than `most_controls`. Refused
/// by the limit on wires alone, with the exact number, or the greatest `u64` if the number is greater. Takes no memory. The regions are
/// stated in docs/CIRCUITS.md.
pub fn layout(
    checked: &Checked<'_>,
    entry: Entry,
    measure: &Measured,
    options: Options,
    level: Level,
    most_controls: u32,
) -> Result<WireLayout, Refusal>
    requires entry { IsEntry (funs_of (program_tree checked.now.resolved.program.now).decls) entry }
    requires measured { IsMeasured (resolved_setting checked.now.resolved) entry measure.now }
    requires within { EntryWithin (resolved_setting checked.now.resolved) DEPTH_LIMIT entry.fun entry.bound }
    ensures laid_out { IfOk result (IsLaidOut (resolved_setting checked.now.resolved) entry options level most_controls) }
    ensures placed { (whole : WireLayout) → IsLaidOut (resolved_setting checked.now.resolved) entry options level most_controls whole → IsPlaced whole result }
    ensures one { HasOneLayout (resolved_setting checked.now.resolved) entry options level most_controls }
    ensures regions { IfOk result (AreInOrder (resolved_setting checked.now.resolved).widths) }
    ensures frames { IfOk result (AreFrames (resolved_setting checked.now.resolved) entry) }
{
    let program = &checked.resolved;
    let body = Body {
        program,
        fun: entry.fun,
    };
    let workspace = enter(&body, entry.bound);
    let flags = flag_count(options, measure.if_depth);
    let sizes = sizes_of(&body, workspace, flags, ladder_size(level, most_controls));
    place(program.widths(), sizes)
}
