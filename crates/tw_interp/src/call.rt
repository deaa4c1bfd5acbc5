//! What calls need: bounds, and the frames of callers and callees.
ghost use Rattle.std.specs.Prelude.{◌≡◌, ◌<◌, List, Some, length, slice_get, IfOk, OnOk, false, map, option_map, true};
ghost use Rattle.std.specs.List.{AllByRecursion};
ghost use Rattle.tw_syntax.specs.Programs.{program_tree};
ghost use Rattle.tw_syntax.specs.Terms.{bound_tree};
ghost use Rattle.tw_resolve.specs.Declarations.{funs_of};
ghost use Rattle.tw_state.specs.States.{Name};
ghost use Rattle.tw_state.specs.Steps.{callee_bound, put_back, seen};
ghost use Rattle.tw_interp.specs.Following.{RunsWithoutBody};
ghost use Rattle.tw_interp.specs.Frames.{store_of, with_found};
ghost use Rattle.tw_interp.specs.Machines.{names_of, setting_of, state_in};
ghost use Rattle.tw_interp.specs.Numbered.{IsTarget, IsVar, shared_names};
ghost use Rattle.tw_interp.specs.NumberedTrees.{var_tree};

use crate::activation::Activation;
use crate::fault::{Reason, RunFault, no_rule, stuck};
use crate::frame::Frame;
use crate::machine::Machine;
use crate::runner::Body;
use crate::variable::Var;
use std::alloc::{AllocError, Global};
use tw_syntax::Bound;
use tw_text::Pos;
use tw_types::{copy_val, same, zero_of};

/// The number with which a callee runs, in a caller whose bound has the number `own`. `None` if its bound is 0, and it does not run.
pub fn callee_bound(own: u8, bound: &Option<Bound>) -> Option<u8>
    ensures { result ≡ callee_bound own (option_map bound_tree bound.now) }
{
    let number = match bound {
        None => return Some(0),
        Some(Bound::Fixed(number)) => *number,
        Some(Bound::Same(_)) => own,
        Some(Bound::Less(_, number)) => own.saturating_sub(*number),
    };
    if number == 0 { None } else { Some(number) }
}

/// Gives a variable of one frame the value of a variable of another, or none if that has none. An error: out of memory.
fn share(
    alloc: Global,
    to: &mut Frame,
    var: &Var,
    from: &Frame,
    source: &Var,
) -> Result<(), AllocError>
    ensures { OnOk result ((names inner : List Name) → IsTarget names var.now → IsVar inner source.now
        → store_of names to.new ≡ with_found (store_of names to.old) var.now.name.text.now (store_of inner from.now source.now.name.text.now)) }
{
    match from.get(source) {
        Some(val) => to.set(var, copy_val(alloc, val)?),
        None => {
            to.take(var);
            Ok(())
        }
    }
}

/// The frame of a callee of so many variables: its parameters have the values of the arguments, and its result has that of the target,
/// if it has one. An error: out of memory.
pub fn enter(
    alloc: Global,
    caller: &Frame,
    count: usize,
    body: &Body,
    target: &Var,
    args: &[Var],
) -> Result<Frame, AllocError>
    ensures { IfOk result (λ frame. (names inner : List Name) → AllByRecursion (IsTarget inner) body.now.params.now → IsTarget inner body.now.returned
        → IsTarget names target.now → AllByRecursion (IsTarget names) args.now
        → store_of inner frame ≡ seen (shared_names body.now target.now args.now) (store_of names caller.now)) }
{
    let mut frame = Frame::new(alloc, count)?;
    let params = body.params;
    let mut i = params.len().min(args.len());
    while i > 0 {
        i -= 1;
        share(alloc, &mut frame, &params[i], caller, &args[i])?;
    }
    share(alloc, &mut frame, &body.returned, caller, target)?;
    Ok(frame)
}

/// Gives the arguments and the target of a call what the parameters and the result of the callee have. An error: out of memory.
pub fn leave(
    alloc: Global,
    caller: &mut Frame,
    callee: &Frame,
    body: &Body,
    target: &Var,
    args: &[Var],
) -> Result<(), AllocError>
    ensures { OnOk result ((names inner : List Name) → AllByRecursion (IsTarget inner) body.now.params.now → IsTarget inner body.now.returned
        → IsTarget names target.now → AllByRecursion (IsTarget names) args.now
        → store_of names caller.new ≡ put_back (shared_names body.now target.now args.now) (store_of inner callee.now) (store_of names caller.old)) }
{
    let params = body.params;
    let mut i = params.len().min(args.len());
    while i > 0 {
        i -= 1;
        share(alloc, caller, &args[i], callee, &params[i])?;
    }
    share(alloc, caller, target, callee, &body.returned)
}

/// A call with the bound 0: the target gets the zero of the result of the function of this number, or has it and is removed.
/// A fault: the target has another value, or out of memory.
pub fn call_without_body(
    act: &Activation,
    machine: &mut Machine,
    at: Pos,
    assigns: bool,
    target: &Var,
    number: usize,
) -> Result<(), RunFault>
    requires { number < length (funs_of (program_tree act.now.runner.now.checked.now.resolved.program.now).decls) }
    ensures { IsTarget (names_of act.now) target.now → RunsWithoutBody (setting_of act.now) at assigns (var_tree target.now) number (state_in act.now machine.old) (state_in act.now machine.new) result }
{
    let zero = zero_of(
        act.runner.alloc,
        &act.runner.checked.resolved.result(number),
    )?;
    if assigns {
        machine.frame.set(target, zero)?;
        return Ok(());
    }
    let Some(held) = machine.frame.take(target) else {
        return Err(no_rule(at));
    };
    if !same(&held, &zero) {
        return Err(stuck(Reason::Unmet, at));
    }
    Ok(())
}
