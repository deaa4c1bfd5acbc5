//! `encode`: the bits of states on the wires of the circuit of an entry.
ghost use Rattle.std.specs.Prelude.{◌≡◌, ◌≤◌, ◌+◌, true, false, length, map, replicate, slice_get, Some};
ghost use Rattle.std.specs.List.{AllByRecursion};
ghost use Rattle.tw_text.specs.declared.limits.TheConstants.{INPUT_LIMIT};
ghost use Rattle.tw_syntax.specs.Programs.{FunTree, program_tree};
ghost use Rattle.tw_resolve.specs.Declarations.{funs_of};
ghost use Rattle.tw_resolve.specs.Resolved.{resolved_setting};
ghost use Rattle.tw_check.specs.EntryPoints.{IsEntry};
ghost use Rattle.tw_state.specs.FromCode.{listed_of};
ghost use Rattle.tw_sim.specs.BitLines.{bit_line};
ghost use Rattle.tw_interp.specs.Runs.{first_side};
ghost use Rattle.tower.specs.Given.{file_request};
ghost use Rattle.tower.specs.CircuitEntries.{IsPricedWithin};
ghost use Rattle.tower.specs.Encode.{EncodeAnswer, StatesAnswer};
ghost use Rattle.tower.specs.Encodings.{CanEncode, WroteEncoding, WroteEncodings};
ghost use Rattle.tower.specs.Marks.{parted};
ghost use Rattle.tower.specs.Sources.{SourceAnswer};
ghost use Rattle.tower.specs.Ending.{Did};

use crate::ending::Unanswered;
use crate::entry::{PricedEntry, priced_entry};
use crate::marks::split_at_mark;
use crate::request::Options;
use bumpalo::Bump;
use std::alloc::Global;
use tw_bits::Bits;
use tw_check::{Checked, Entry};
use tw_interp::first_side;
use tw_io::{Sink, WriteFault, write_all};
use tw_state::{Side, State, encode_state, read_states};
use tw_text::Arena;

/// Moves bits into a line of their characters: afterwards all bits are zero.
fn move_bits(bits: &mut Bits, line: &mut [u8])
    requires { length line.old ≡ length bits.old + 1 }
    ensures line { line.new ≡ bit_line bits.old }
    ensures bits { bits.new ≡ replicate (length bits.old) false }
{
    for place in 0..bits.len() {
        if bits.get(place) {
            bits.flip(place);
            line[place] = b'1';
        } else {
            line[place] = b'0';
        }
    }
    line[bits.len()] = b'\n';
}

/// Writes the encoding of a state on a side of an entry, as a line that is one piece. The bits, one for each wire, are zero before and
/// after, and the line has room for their characters and a newline. Does not allocate.
fn write_encoding<K: Sink>(
    checked: &Checked<'_>,
    entry: Entry,
    side: Side,
    state: &State,
    bits: &mut Bits,
    line: &mut [u8],
    output: &mut K,
) -> Result<(), WriteFault>
    requires entry { IsEntry (funs_of (program_tree checked.now.resolved.program.now).decls) entry }
    requires encodable { CanEncode (length bits.old) (resolved_setting checked.now.resolved) entry.fun side (listed_of state.now) }
    requires zeros { bits.old ≡ replicate (length bits.old) false }
    requires line { length line.old ≡ length bits.old + 1 }
    ensures wrote { WroteEncoding K.taken K.faults output.old output.new result (length bits.old) (resolved_setting checked.now.resolved) entry.fun side (listed_of state.now) }
    ensures zeros { bits.new ≡ bits.old }
    ensures line { length line.new ≡ length line.old }
{
    encode_state(state, checked, entry, side, bits);
    move_bits(bits, line);
    write_all(output, line)
}

/// Writes the encodings of states on a side of an entry, each as `write_encoding` does.
fn write_encodings<K: Sink>(
    checked: &Checked<'_>,
    entry: Entry,
    side: Side,
    states: &[State],
    bits: &mut Bits,
    line: &mut [u8],
    output: &mut K,
) -> Result<(), WriteFault>
    requires entry { IsEntry (funs_of (program_tree checked.now.resolved.program.now).decls) entry }
    requires encodable { AllByRecursion (CanEncode (length bits.old) (resolved_setting checked.now.resolved) entry.fun side) (map listed_of states.now) }
    requires zeros { bits.old ≡ replicate (length bits.old) false }
    requires line { length line.old ≡ length bits.old + 1 }
    ensures { WroteEncodings K.taken K.faults output.old output.new result (length bits.old) (resolved_setting checked.now.resolved) entry.fun side (map listed_of states.now) }
{
    for state in states {
        write_encoding(checked, entry, side, state, bits, line, output)?;
    }
    Ok(())
}

/// Writes the encodings of the states of a text, at the start of an entry or at its end, on the wires of its layout.
fn encode_states<K: Sink>(
    alloc: Global,
    found: &PricedEntry<'_>,
    at_end: bool,
    lines: &[u8],
    output: &mut K,
) -> Result<(), Unanswered>
    requires priced { IsPricedWithin (resolved_setting found.now.checked.resolved) found.now.entry found.now.priced }
    requires within { length lines.now ≤ INPUT_LIMIT }
    ensures { (fun : FunTree) → slice_get (funs_of (program_tree found.now.checked.resolved.program.now).decls) found.now.entry.fun ≡ Some fun
        → Did K.taken K.faults output.old output.new result (StatesAnswer found.now.priced.layout.wires (resolved_setting found.now.checked.resolved) (first_side at_end) fun lines.now) }
{
    let side = first_side(at_end);
    let states = read_states(alloc, &found.checked, found.entry, side, lines)?;
    let wires = found.priced.layout.wires as usize;
    let mut bits = Bits::zeros(alloc, wires)?;
    let mut line = vec![in alloc; 0; wires + 1]?;
    write_encodings(
        &found.checked,
        found.entry,
        side,
        &states,
        &mut bits,
        &mut line,
        output,
    )?;
    Ok(())
}

/// Writes the encodings of the states after the line `%%` on the wires of the entry of the program whose source is before it.
pub fn encode<K: Sink>(
    alloc: Global,
    options: &Options<'_>,
    bytes: &[u8],
    output: &mut K,
) -> Result<(), Unanswered>
    requires { length bytes.now ≤ INPUT_LIMIT }
    ensures { Did K.taken K.faults output.old output.new result (SourceAnswer (parted true bytes.now).0 (EncodeAnswer (file_request options.now) (parted true bytes.now).1)) }
{
    let (source, lines) = split_at_mark(bytes);
    let arena: Arena = Bump::new(alloc);
    let found = priced_entry(alloc, &arena, options, source)?;
    encode_states(alloc, &found, options.inverse, lines, output)
}
