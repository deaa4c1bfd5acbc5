//! Which wires the names of a function get.
ghost use Rattle.std.specs.Prelude.{◌≡◌, ◌+◌, Some, slice_get, IfOk, OnOk};
ghost use Rattle.tw_syntax.specs.Programs.{FunTree, program_tree};
ghost use Rattle.tw_resolve.specs.Declarations.{funs_of};
ghost use Rattle.tw_resolve.specs.Resolved.{resolved_setting};
ghost use Rattle.tw_check.specs.EntryPoints.{IsEntry};
ghost use Rattle.tw_arith.specs.Operands.{EndsWithin};
ghost use Rattle.tw_state.specs.Steps.{running_bound};
ghost use Rattle.tw_frames.specs.Found.{setting_of, types_of};
ghost use Rattle.tw_frames.specs.Layout.{entry_frame};
ghost use Rattle.tw_frames.specs.Sizes.{name_size, names_size};
ghost use Rattle.tw_lower.specs.FrameWires.{plain_frame};
ghost use Rattle.tw_lower.specs.Lowering.{IsLayout};
ghost use Rattle.tw_lower.specs.NameWires.{local_names_at, shared_at, wires_of, with_wire, with_wires};

use crate::frame::FrameWires;
use crate::names::NameWires;
use std::alloc::{AllocError, Global};
use tw_check::{Checked, Entry};
use tw_frames::{Body, WireLayout, bits_of_name};
use tw_state::{Side, name_at, name_count};

/// Gives wires to a name of a function, from a wire on. Returns the wire after them. An error: out of memory.
fn place_name<'a>(
    body: &Body<'_, 'a>,
    names: &mut NameWires<'a>,
    name: &'a str,
    wire: u32,
) -> Result<u32, AllocError>
    requires { EndsWithin wire (name_size (setting_of body.now).widths (types_of body.now) name.now) }
    ensures next { IfOk result (λ next. next ≡ wire + name_size (setting_of body.now).widths (types_of body.now) name.now) }
    ensures placed { OnOk result (wires_of names.new ≡ with_wire (wires_of names.old) name.now wire) }
{
    names.add(name, wire)?;
    Ok(wire + bits_of_name(body, name) as u32)
}

/// Gives wires to the parameters and the result, in order from a wire on. An error: out of memory.
fn place_shared<'a>(
    body: &Body<'_, 'a>,
    names: &mut NameWires<'a>,
    first: u32,
) -> Result<(), AllocError>
    requires { EndsWithin first (names_size (setting_of body.now).widths (types_of body.now) (shared_at (setting_of body.now) body.now.fun)) }
    ensures { OnOk result (wires_of names.new ≡ with_wires (setting_of body.now).widths (types_of body.now) (wires_of names.old) first (shared_at (setting_of body.now) body.now.fun)) }
{
    let fun = body.program.fun_at(body.fun);
    let mut wire = first;
    for place in 0..name_count(fun, Side::End) {
        wire = place_name(body, names, name_at(fun, place), wire)?;
    }
    Ok(())
}

/// Gives wires to the local variables, in order from a wire on. Returns the wire after them. An error: out of memory.
fn place_locals<'a>(
    body: &Body<'_, 'a>,
    names: &mut NameWires<'a>,
    first: u32,
) -> Result<u32, AllocError>
    requires { EndsWithin first (names_size (setting_of body.now).widths (types_of body.now) (local_names_at (setting_of body.now) body.now.fun)) }
    ensures next { IfOk result (λ next. next ≡ first + names_size (setting_of body.now).widths (types_of body.now) (local_names_at (setting_of body.now) body.now.fun)) }
    ensures placed { OnOk result (wires_of names.new ≡ with_wires (setting_of body.now).widths (types_of body.now) (wires_of names.old) first (local_names_at (setting_of body.now) body.now.fun)) }
{
    let mut wire = first;
    for place in 0..body.program.local_count(body.fun) {
        let (name, _) = body.program.local(body.fun, place);
        wire = place_name(body, names, name, wire)?;
    }
    Ok(wire)
}

/// The wires of the function of an entry, whose bound has the number `own`: the parameters and the result from the first wire of the
/// parameters on, and the local variables and then the `if`s from the first wire of the frames on. An error: out of memory.
pub fn entry_wires<'c, 'a>(
    alloc: Global,
    checked: &'c Checked<'a>,
    entry: Entry,
    own: u8,
    layout: &WireLayout,
) -> Result<FrameWires<'c, 'a>, AllocError>
    requires entry { IsEntry (funs_of (program_tree checked.now.resolved.program.now).decls) entry }
    requires own { running_bound entry.bound ≡ Some own }
    requires layout { IsLayout (resolved_setting checked.now.resolved) entry layout.now }
    ensures frame { IfOk result (λ held. (fun : FunTree) → slice_get (resolved_setting checked.now.resolved).funs entry.fun ≡ Some fun → plain_frame held ≡ entry_frame (resolved_setting checked.now.resolved) fun layout.now) }
    ensures program { IfOk result (λ held. setting_of held.body ≡ resolved_setting checked.now.resolved) }
    ensures own { IfOk result (λ held. held.own ≡ own) }
    ensures layout { IfOk result (λ held. held.layout ≡ layout.now) }
{
    let body = Body {
        program: &checked.resolved,
        fun: entry.fun,
    };
    let mut names = NameWires::new(alloc);
    place_shared(&body, &mut names, layout.args)?;
    let ifs = place_locals(&body, &mut names, layout.frame)?;
    Ok(FrameWires {
        body,
        own,
        layout: *layout,
        names,
        ifs,
    })
}
