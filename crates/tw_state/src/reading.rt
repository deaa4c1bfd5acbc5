//! Reading the texts of states.
ghost use Rattle.std.specs.Prelude.{◌≡◌, ◌≢◌, ◌⊎◌, ◌<◌, ◌≤◌, ◌+◌, [], List, ℕ, Some, length, map, slice_get, IfOk, IfErr};
ghost use Rattle.tw_text.specs.declared.limits.TheConstants.{INPUT_LIMIT};
ghost use Rattle.tw_text.specs.declared.refusal.StateWhy.TheVariants as state_why;
ghost use Rattle.tw_syntax.specs.Programs.{FunTree, fun_tree, program_tree};
ghost use Rattle.tw_types.specs.Types.{block_count};
ghost use Rattle.tw_types.specs.FromCode.{value_of};
ghost use Rattle.tw_resolve.specs.Declarations.{funs_of};
ghost use Rattle.tw_resolve.specs.Setting.{Setting};
ghost use Rattle.tw_resolve.specs.Tables.{AreTargets};
ghost use Rattle.tw_resolve.specs.Resolved.{resolved_setting, type_at};
ghost use Rattle.tw_check.specs.EntryPoints.{IsEntry};
ghost use Rattle.tw_state.specs.States.{IsWellFormed};
ghost use Rattle.tw_state.specs.FromCode.{ListedState, cell_of, listed_of, names_at, state_at};
ghost use Rattle.tw_state.specs.StateLines.{AtHead, InState, IsWhole, begun};
ghost use Rattle.tw_state.specs.StateRefusals.{AreStatesIn, IsRefusedIn};
ghost use Rattle.tw_state.specs.Reading.{IsFittingValue, Leads, IsRefusedFrom, partial};
ghost use Rattle.tw_state.specs.declared.state.Side.{Side};
ghost use Rattle.tw_state.specs.declared.state_fault.StateFault.TheVariants as fault;

use crate::free_cells::well_formed;
use crate::line_text::{named_value, read_cell, read_head};
use crate::names::{name_at, name_count};
use crate::state::{Cell, Side, State};
use crate::state_fault::StateFault;
use std::alloc::{AllocError, Global};
use tw_check::{Checked, Entry};
use tw_syntax::Fun;
use tw_text::{STATES_LIMIT, StateWhy, after};
use tw_types::{Targets, Val, Widths};

/// The line between two states.
pub const SEPARATOR: &[u8] = b"--\n";

/// The refusal of the line after this number of lines.
fn wrong_line(lines: u32) -> StateFault
    requires { lines ≤ INPUT_LIMIT }
    ensures { result ≡ fault.BadState (lines + 1) state_why.Syntax }
{
    StateFault::BadState {
        line: lines + 1,
        why: StateWhy::Syntax,
    }
}

/// Reads the lines of the cells after so many lines: a cell for each block, the number of lines up to there, and the suffix after
/// them.
fn read_cells<'b>(
    alloc: Global,
    targets: &Targets,
    widths: Widths,
    lines: u32,
    bytes: &'b [u8],
) -> Result<(Vec<Cell>, u32, &'b [u8]), StateFault>
    requires within { lines + length bytes.now ≤ INPUT_LIMIT }
    ensures counted { IfOk result (λ read. (length read.0.items ≡ block_count widths) × (read.1 ≡ lines + length read.0.items)) }
    ensures read { IfOk result (λ read. (setting : Setting) (side : Side) (fun : FunTree) (states : List ListedState) (head : ℕ) → widths ≡ setting.widths → ∥ AreTargets setting targets.now ∥₁
        → Leads setting side fun (InState states (partial head [] [])) lines bytes.now (InState states (partial head (map cell_of read.0.items) [])) read.1 read.2.now) }
    ensures refused { IfErr result (λ why. (why ≡ fault.Memory) ⊎ ((setting : Setting) (side : Side) (fun : FunTree) (states : List ListedState) (head : ℕ) → widths ≡ setting.widths → ∥ AreTargets setting targets.now ∥₁
        → IsRefusedFrom setting side fun (InState states (partial head [] [])) lines bytes.now why)) }
{
    let mut cells = Vec::new(alloc);
    let mut read = lines;
    let mut rest = bytes;
    for block in 0..widths.block_count() {
        let Some((cell, behind)) = read_cell(alloc, targets, widths, block + 1, rest)? else {
            return Err(wrong_line(read));
        };
        cells.push(cell)?;
        read += 1;
        rest = behind;
    }
    Ok((cells, read, rest))
}

/// The value in the line of a variable of a function, and the suffix after the line. `None` if the bytes do not begin with such a
/// line. An error: out of memory.
fn read_name<'b>(
    alloc: Global,
    checked: &Checked,
    number: usize,
    name: &str,
    bytes: &'b [u8],
) -> Result<Option<(Val, &'b [u8])>, AllocError>
    requires { number < length (funs_of (program_tree checked.now.resolved.program.now).decls) }
    ensures { IfOk result (λ found. IsFittingValue checked.now.resolved.tables.types.widths (type_at (resolved_setting checked.now.resolved) number name.now) name.now bytes.now found) }
{
    let Some(ty) = checked.resolved.type_of(number, name) else {
        return Ok(None);
    };
    named_value(alloc, name, &ty, checked.resolved.widths(), bytes)
}

/// Reads the lines of the values after so many lines: a value for each name on the side, the number of lines up to there, and the
/// suffix after them.
fn read_values<'b>(
    alloc: Global,
    checked: &Checked,
    number: usize,
    fun: &Fun,
    side: Side,
    lines: u32,
    bytes: &'b [u8],
) -> Result<(Vec<Val>, u32, &'b [u8]), StateFault>
    requires function { slice_get (funs_of (program_tree checked.now.resolved.program.now).decls) number ≡ Some (fun_tree fun.now) }
    requires within { lines + length bytes.now ≤ INPUT_LIMIT }
    ensures counted { IfOk result (λ read. (length read.0.items ≡ length (names_at side (fun_tree fun.now))) × (read.1 ≡ lines + length read.0.items)) }
    ensures read { IfOk result (λ read. (states : List ListedState) (state : ListedState) → length state.cells ≡ block_count checked.now.resolved.tables.types.widths
        → Leads (resolved_setting checked.now.resolved) side (fun_tree fun.now) (InState states (partial state.head state.cells [])) lines bytes.now (InState states (partial state.head state.cells (map value_of read.0.items))) read.1 read.2.now) }
    ensures refused { IfErr result (λ why. (why ≡ fault.Memory) ⊎ ((states : List ListedState) (state : ListedState) → length state.cells ≡ block_count checked.now.resolved.tables.types.widths
        → IsRefusedFrom (resolved_setting checked.now.resolved) side (fun_tree fun.now) (InState states (partial state.head state.cells [])) lines bytes.now why)) }
{
    let mut values = Vec::new(alloc);
    let mut read = lines;
    let mut rest = bytes;
    for place in 0..name_count(fun, side) {
        let found = read_name(alloc, checked, number, name_at(fun, place), rest)?;
        let Some((val, behind)) = found else {
            return Err(wrong_line(read));
        };
        values.push(val)?;
        read += 1;
        rest = behind;
    }
    Ok((values, read, rest))
}

/// Reads a state after so many lines, and tries its chain: the state, the number of lines up to its end, and the suffix after it.
fn read_state<'b>(
    alloc: Global,
    checked: &Checked,
    entry: Entry,
    side: Side,
    lines: u32,
    bytes: &'b [u8],
) -> Result<(State, u32, &'b [u8]), StateFault>
    requires entry { IsEntry (funs_of (program_tree checked.now.resolved.program.now).decls) entry }
    requires within { lines + length bytes.now ≤ INPUT_LIMIT }
    ensures read { IfOk result (λ read. (fun : FunTree) (states : List ListedState) → slice_get (resolved_setting checked.now.resolved).funs entry.fun ≡ Some fun
        → Leads (resolved_setting checked.now.resolved) side fun (AtHead states) lines bytes.now (InState states (listed_of read.0)) read.1 read.2.now) }
    ensures later { IfOk result (λ read. lines ≤ read.1) }
    ensures whole { IfOk result (λ read. (fun : FunTree) → slice_get (resolved_setting checked.now.resolved).funs entry.fun ≡ Some fun
        → IsWhole (resolved_setting checked.now.resolved) side fun (listed_of read.0) × IsWellFormed (state_at side fun (listed_of read.0))) }
    ensures refused { IfErr result (λ why. (why ≡ fault.Memory) ⊎ ((fun : FunTree) (states : List ListedState) → slice_get (resolved_setting checked.now.resolved).funs entry.fun ≡ Some fun
        → (bytes.now ≡ [] → states ≢ []) → IsRefusedFrom (resolved_setting checked.now.resolved) side fun (AtHead states) lines bytes.now why)) }
{
    let fun = checked.resolved.fun_at(entry.fun);
    let widths = checked.resolved.widths();
    let Some((free, behind)) = read_head(bytes, widths) else {
        return Err(wrong_line(lines));
    };
    let (cells, read, behind) = read_cells(
        alloc,
        checked.resolved.targets(),
        widths,
        lines + 1,
        behind,
    )?;
    let (store, read, rest) = read_values(alloc, checked, entry.fun, fun, side, read, behind)?;
    let state = State { free, cells, store };
    if !well_formed(&state, widths) {
        return Err(StateFault::BadState {
            line: lines + 1,
            why: StateWhy::Chain,
        });
    }
    Ok((state, read, rest))
}

/// Reads the texts of states on a side of an entry: none if there are no bytes, and else one or more, with the line `--` between each
/// and the next. The entry fits the program, and the bytes are within the limit of inputs.
///
/// The errors: the first line that is wrong or missing; a state that is not well-formed, by the line of its head, once all its lines
/// are read; the limit on states, where a separator follows the last state that it allows; out of memory. `docs/FORMATS.md` has the
/// text and the order of its refusals.
pub fn read_states(
    alloc: Global,
    checked: &Checked,
    entry: Entry,
    side: Side,
    bytes: &[u8],
) -> Result<Vec<State>, StateFault>
    requires entry { IsEntry (funs_of (program_tree checked.now.resolved.program.now).decls) entry }
    requires within { length bytes.now ≤ INPUT_LIMIT }
    ensures read { IfOk result (λ states. AreStatesIn (resolved_setting checked.now.resolved) entry.fun side bytes.now (map listed_of states.items)) }
    ensures refused { IfErr result (λ why. (why ≡ fault.Memory) ⊎ IsRefusedIn (resolved_setting checked.now.resolved) entry.fun side bytes.now why) }
{
    let mut states = Vec::new(alloc);
    if bytes.is_empty() {
        return Ok(states);
    }
    let mut lines = 0;
    let mut rest = bytes;
    loop {
        let (state, read, behind) = read_state(alloc, checked, entry, side, lines, rest)?;
        states.push(state)?;
        if behind.is_empty() {
            return Ok(states);
        }
        let Some(next) = after(behind, SEPARATOR) else {
            return Err(wrong_line(read));
        };
        if states.len() as u64 == STATES_LIMIT {
            return Err(StateFault::TooMany);
        }
        lines = read + 1;
        rest = next;
    }
}
