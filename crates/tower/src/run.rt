//! `run`: the results of a program on states, or the states whose results are given.
ghost use Rattle.std.specs.Prelude.{◌≡◌, ◌≤◌, true, length, slice_get, Some, None};
ghost use Rattle.tw_text.specs.declared.limits.TheConstants.{DEPTH_LIMIT, INPUT_LIMIT};
ghost use Rattle.tw_syntax.specs.Programs.{FunTree, program_tree};
ghost use Rattle.tw_resolve.specs.Declarations.{funs_of};
ghost use Rattle.tw_resolve.specs.Demands.{first_broken};
ghost use Rattle.tw_resolve.specs.Resolved.{resolved_setting};
ghost use Rattle.tw_check.specs.EntryPoints.{IsEntry};
ghost use Rattle.tw_state.specs.Depth.{EntryWithin};
ghost use Rattle.tw_frames.specs.declared.measured.Measured.{Measured};
ghost use Rattle.tw_frames.specs.Measures.{limit_rules};
ghost use Rattle.tower.specs.Ending.{Did};
ghost use Rattle.tower.specs.Given.{file_request};
ghost use Rattle.tower.specs.Marks.{parted};
ghost use Rattle.tower.specs.Run.{EntryAnswer, RunAnswer};
ghost use Rattle.tower.specs.Sources.{SourceAnswer};

use crate::accept::accept;
use crate::ending::Unanswered;
use crate::marks::split_at_mark;
use crate::replies::{is_one_stuck, replies_to, write_replies};
use crate::request::Options;
use bumpalo::Bump;
use std::alloc::Global;
use tw_check::{Checked, Entry, find_entry};
use tw_frames::measure;
use tw_interp::first_side;
use tw_io::Sink;
use tw_state::read_states;
use tw_text::Arena;

/// Writes the replies to the states of a text. All of them are computed before the first is written.
fn answer_states<K: Sink>(
    alloc: Global,
    checked: &Checked<'_>,
    entry: Entry,
    back: bool,
    lines: &[u8],
    output: &mut K,
) -> Result<(), Unanswered>
    requires entry { IsEntry (funs_of (program_tree checked.now.resolved.program.now).decls) entry }
    requires depth { EntryWithin (resolved_setting checked.now.resolved) DEPTH_LIMIT entry.fun entry.bound }
    requires within { length lines.now ≤ INPUT_LIMIT }
    ensures { (fun : FunTree) (measured : Measured) → slice_get (funs_of (program_tree checked.now.resolved.program.now).decls) entry.fun ≡ Some fun
        → first_broken (limit_rules measured) ≡ None
        → Did K.taken K.faults output.old output.new result (EntryAnswer (resolved_setting checked.now.resolved) fun entry.bound back measured lines.now) }
{
    let states = read_states(alloc, checked, entry, first_side(back), lines)?;
    let replies = replies_to(alloc, checked, entry, back, states)?;
    write_replies(output, checked, entry, back, &replies)?;
    if is_one_stuck(&replies) {
        return Err(Unanswered::Stuck);
    }
    Ok(())
}

/// Runs the entry of the program whose source is before the line `%%` on the states after it, forward or back, and writes the replies.
pub fn run_program<K: Sink>(
    alloc: Global,
    options: &Options<'_>,
    bytes: &[u8],
    output: &mut K,
) -> Result<(), Unanswered>
    requires { length bytes.now ≤ INPUT_LIMIT }
    ensures { Did K.taken K.faults output.old output.new result (SourceAnswer (parted true bytes.now).0 (RunAnswer (file_request options.now) (parted true bytes.now).1)) }
{
    let (source, lines) = split_at_mark(bytes);
    let arena: Arena = Bump::new(alloc);
    let checked = accept(alloc, &arena, options.widths, source)?;
    let entry = find_entry(&checked, options.entry, options.bound)?;
    measure(alloc, &checked, entry)?;
    answer_states(alloc, &checked, entry, options.inverse, lines, output)
}
