//! The padding of a branch that is not taken.
ghost use Rattle.std.specs.Prelude.{◌≡◌, true, false, Some, position, slice_get};
ghost use Rattle.std.specs.Str.{bytes_eq};
ghost use Rattle.tw_text.specs.declared.place.Pos.{Pos};
ghost use Rattle.tw_types.specs.FromCode.{ty_of};
ghost use Rattle.tw_state.specs.Results.{directed};
ghost use Rattle.tw_state.specs.States.{Name};
ghost use Rattle.tw_interp.specs.Following.{PadsAll, PadsName, PadsSlot};
ghost use Rattle.tw_interp.specs.Machines.{activation_of, names_of, setting_of, state_in};
ghost use Rattle.tw_interp.specs.Numbered.{AreNumbered};
ghost use Rattle.tw_interp.specs.NumberedTrees.{steps_tree};

use crate::activation::Activation;
use crate::changes::{Changes, note_changes};
use crate::fault::{Reason, RunFault, stuck};
use crate::machine::Machine;
use crate::numbered::Step;
use tw_text::Pos;
use tw_types::{Ty, same, zero_of};

/// Gives the variable of a number the zero of its type, if it has no value. A fault: out of memory.
fn fill(act: &Activation, machine: &mut Machine, slot: usize, ty: &Ty) -> Result<(), RunFault>
    ensures { (at : Pos) (name : Name) → Some slot ≡ position (bytes_eq name) (names_of act.now) → PadsName (Some (ty_of ty.now)) at name true (state_in act.now machine.old) (state_in act.now machine.new) result }
{
    if machine.frame.in_slot(slot).is_some() {
        return Ok(());
    }
    let zero = zero_of(act.runner.alloc, ty)?;
    machine.frame.set_slot(slot, zero)?;
    Ok(())
}

/// Removes the variable of a number, if it has a value, which is the zero of its type. A fault: the value is another one, or out of
/// memory.
fn clear(
    act: &Activation,
    machine: &mut Machine,
    at: Pos,
    slot: usize,
    ty: &Ty,
) -> Result<(), RunFault>
    ensures { (name : Name) → Some slot ≡ position (bytes_eq name) (names_of act.now) → PadsName (Some (ty_of ty.now)) at name false (state_in act.now machine.old) (state_in act.now machine.new) result }
{
    let Some(val) = machine.frame.take_slot(slot) else {
        return Ok(());
    };
    let zero = zero_of(act.runner.alloc, ty)?;
    if !same(&val, &zero) {
        return Err(stuck(Reason::Pad, at));
    }
    Ok(())
}

/// Gives the variable of a number the value that it has after a branch that is not taken.
fn pad_slot(
    act: &Activation,
    machine: &mut Machine,
    at: Pos,
    slot: usize,
    is_live: bool,
) -> Result<(), RunFault>
    ensures { PadsSlot (activation_of act.now).types at (slice_get (names_of act.now) slot) is_live (state_in act.now machine.old) (state_in act.now machine.new) result }
{
    let variables = act.runner.checked.resolved.variables(act.fun);
    if slot >= variables.len() {
        return Ok(());
    }
    let (_, ty) = variables.at(slot);
    if is_live {
        fill(act, machine, slot, &ty)
    } else {
        clear(act, machine, at, slot, &ty)
    }
}

/// Gives the variables that statements assign zeros, and removes those that they un-assign, which are zero. The statements are run
/// forward or backward. A fault: one is not zero, or out of memory.
pub fn pad(
    act: &Activation,
    machine: &mut Machine,
    at: Pos,
    forward: bool,
    steps: &[Step],
) -> Result<(), RunFault>
    ensures { AreNumbered (setting_of act.now) act.now.fun steps.now
        → PadsAll (activation_of act.now).types (directed forward (steps_tree steps.now)) at (state_in act.now machine.old) (state_in act.now machine.new) result }
{
    let mut changes = Changes::new(act.runner.alloc);
    note_changes(&mut changes, forward, steps)?;
    for place in 0..changes.len() {
        let (slot, is_live) = changes.at(place);
        pad_slot(act, machine, at, slot, is_live)?;
    }
    Ok(())
}
