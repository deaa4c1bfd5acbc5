//! The encoding of states in bits.
ghost use Rattle.std.specs.Prelude.{◌≡◌, ◌<◌, ◌≤◌, ◌+◌, ◌*◌, ◌^◌, false, length, map, take, replicate, slice_get, Some};
ghost use Rattle.std.specs.List.{AllByRecursion, flat_map};
ghost use Rattle.tw_syntax.specs.Programs.{fun_tree, program_tree};
ghost use Rattle.tw_types.specs.Types.{block_size, size};
ghost use Rattle.tw_types.specs.FromCode.{ty_of, value_of};
ghost use Rattle.tw_types.specs.Values.{value_bits};
ghost use Rattle.tw_resolve.specs.Declarations.{funs_of};
ghost use Rattle.tw_resolve.specs.Resolved.{resolved_setting, type_at};
ghost use Rattle.tw_check.specs.EntryPoints.{IsEntry};
ghost use Rattle.tw_state.specs.Encoding.{cell_bits};
ghost use Rattle.tw_state.specs.EntryEncoding.{Appends, EncodedFits, IsEncodedOn};
ghost use Rattle.tw_state.specs.FromCode.{cell_of, listed_of};
ghost use Rattle.tw_state.specs.Listed.{HaveTypes, names_at_end};
ghost use Rattle.tw_state.specs.Results.{Fits};
ghost use Rattle.tw_state.specs.Steps.{fun_types};
ghost use Rattle.tw_state.specs.TypedLists.{IsCell, IsTypedEntry};

use crate::names::{name_at, name_count};
use crate::state::{Cell, Side, State};
use tw_bits::Bits;
use tw_check::{Checked, Entry};
use tw_syntax::Fun;
use tw_types::{TargetId, Targets, Ty, Val, Widths, encode_into};

/// The number of bits of a type.
fn bit_count(ty: &Ty, widths: Widths) -> usize
    requires { size widths (ty_of ty.now) < 2 ^ 64 }
    ensures { result ≡ size widths (ty_of ty.now) }
{
    match ty {
        Ty::Unit => 0,
        Ty::Uint => widths.word as usize,
        Ty::Bool => 1,
        Ty::Ptr(_) => widths.addr as usize,
        Ty::Pair(first, second) => bit_count(first, widths) + bit_count(second, widths),
    }
}

/// The number of bits of a block: enough for an address and for each target.
fn block_bits(targets: &Targets, widths: Widths) -> usize
    requires { block_size widths targets.now < 2 ^ 64 }
    ensures { result ≡ block_size widths targets.now }
{
    let mut most = bit_count(&Ty::Ptr(TargetId(0)), widths);
    for number in 0..targets.len() {
        most = most.max(bit_count(&targets.ty(TargetId(number)), widths));
    }
    most
}

/// Writes the bits of a cell from a place on, where all are zero: its link or its value.
fn put_cell(cell: &Cell, targets: &Targets, widths: Widths, bits: &mut Bits, at: usize)
    requires typed { IsCell widths targets.now (cell_of cell.now) }
    requires within { at + block_size widths targets.now ≤ length bits.old }
    ensures { Appends at (cell_bits widths targets.now (cell_of cell.now)) bits.old bits.new }
{
    match cell {
        Cell::Free(next) => {
            encode_into(&Val::Ptr(*next), &Ty::Ptr(TargetId(0)), widths, bits, at)
        }
        Cell::Live(target, val) => encode_into(val, &targets.ty(*target), widths, bits, at),
    }
}

/// Writes the bits of cells from a place on, where all are zero, and returns the place after them.
fn put_cells(cells: &[Cell], targets: &Targets, widths: Widths, bits: &mut Bits, at: usize) -> usize
    requires typed { AllByRecursion (IsCell widths targets.now) (map cell_of cells.now) }
    requires some { 0 < length cells.now }
    requires within { at + length cells.now * block_size widths targets.now ≤ length bits.old }
    ensures next { result ≡ at + length cells.now * block_size widths targets.now }
    ensures after { result ≡ at + length (flat_map (cell_bits widths targets.now) (map cell_of cells.now)) }
    ensures bits { Appends at (flat_map (cell_bits widths targets.now) (map cell_of cells.now)) bits.old bits.new }
{
    // The length is a `usize`, so no place overflows.
    prove!(at <= bits.len());
    let block = block_bits(targets, widths);
    let mut next = at;
    for cell in cells {
        put_cell(cell, targets, widths, bits, next);
        next += block;
    }
    next
}

/// Writes the bits of the value of a variable from a place on, where all are zero, and returns the place after them.
fn put_value(
    val: &Val,
    checked: &Checked,
    number: usize,
    name: &str,
    bits: &mut Bits,
    at: usize,
) -> usize
    requires function { number < length (funs_of (program_tree checked.now.resolved.program.now).decls) }
    requires typed { Fits checked.now.resolved.tables.types.widths (type_at (resolved_setting checked.now.resolved) number name.now) (Some (value_of val.now)) }
    requires within { at + length (value_bits checked.now.resolved.tables.types.widths (value_of val.now)) ≤ length bits.old }
    ensures next { result ≡ at + length (value_bits checked.now.resolved.tables.types.widths (value_of val.now)) }
    ensures bits { Appends at (value_bits checked.now.resolved.tables.types.widths (value_of val.now)) bits.old bits.new }
{
    // The length is a `usize`, so no place overflows.
    prove!(at <= bits.len());
    let widths = checked.resolved.widths();
    let ty = checked.resolved.type_of(number, name).unwrap();
    encode_into(val, &ty, widths, bits, at);
    at + bit_count(&ty, widths)
}

/// Writes the bits of values of the names of an entry, in order, from a place on, where all are zero.
fn put_values(
    values: &[Val],
    checked: &Checked,
    number: usize,
    fun: &Fun,
    bits: &mut Bits,
    at: usize,
)
    requires function { slice_get (funs_of (program_tree checked.now.resolved.program.now).decls) number ≡ Some (fun_tree fun.now) }
    requires counted { length values.now ≤ length (names_at_end (fun_tree fun.now)) }
    requires typed { HaveTypes checked.now.resolved.tables.types.widths (fun_types (resolved_setting checked.now.resolved) (fun_tree fun.now))
        (take (length values.now) (names_at_end (fun_tree fun.now))) (map value_of values.now) }
    requires within { at + length (flat_map (value_bits checked.now.resolved.tables.types.widths) (map value_of values.now)) ≤ length bits.old }
    ensures { Appends at (flat_map (value_bits checked.now.resolved.tables.types.widths) (map value_of values.now)) bits.old bits.new }
{
    let mut next = at;
    for place in 0..values.len() {
        next = put_value(
            &values[place],
            checked,
            number,
            name_at(fun, place),
            bits,
            next,
        );
    }
}

/// Writes the encoding of a state on a side of an entry into bits that are all zero: the head, each cell in the bits of a block, and
/// the values of the entry's names in order. All other bits stay zero. The entry fits the program, the state is typed on this side,
/// and the bits are enough. Does not allocate. The definition is `encoded_on` of `docs/DEFINITIONS-MEANING.md`.
pub fn encode_state(state: &State, checked: &Checked, entry: Entry, side: Side, bits: &mut Bits)
    requires entry { IsEntry (funs_of (program_tree checked.now.resolved.program.now).decls) entry }
    requires typed { IsTypedEntry (resolved_setting checked.now.resolved) entry.fun side (listed_of state.now) }
    requires zeros { bits.old ≡ replicate (length bits.old) false }
    requires room { EncodedFits (length bits.old) (resolved_setting checked.now.resolved) (listed_of state.now) }
    ensures bits { IsEncodedOn (length bits.old) (resolved_setting checked.now.resolved) entry.fun side (listed_of state.now) bits.new }
    ensures len { length bits.new ≡ length bits.old }
{
    let widths = checked.resolved.widths();
    let fun = checked.resolved.fun_at(entry.fun);
    let count = name_count(fun, side);
    prove!(state.store.len() == count);
    prove!(widths.addr > 0);
    encode_into(
        &Val::Ptr(state.free),
        &Ty::Ptr(TargetId(0)),
        widths,
        bits,
        0,
    );
    let cells = bit_count(&Ty::Ptr(TargetId(0)), widths);
    let values = put_cells(
        &state.cells,
        checked.resolved.targets(),
        widths,
        bits,
        cells,
    );
    put_values(&state.store, checked, entry.fun, fun, bits, values);
}
