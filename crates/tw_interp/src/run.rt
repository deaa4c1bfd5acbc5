//! Statements in blocks, in order or in reverse.
ghost use Rattle.std.specs.Prelude.{◌≡◌, true, false, map, option_map};
ghost use Rattle.std.specs.List.{AllByRecursion};
ghost use Rattle.tw_syntax.specs.Names.{NameTree};
ghost use Rattle.tw_syntax.specs.Statements.{IfStmt, LetStmt, WithStmt};
ghost use Rattle.tw_syntax.specs.Terms.{CallRhs, bound_tree};
ghost use Rattle.tw_resolve.specs.Declarations.{number_of};
ghost use Rattle.tw_interp.specs.Following.{FollowsInside, FollowsWithin};
ghost use Rattle.tw_interp.specs.Machines.{activation_of, names_of, setting_of, state_in};
ghost use Rattle.tw_interp.specs.Numbered.{AreNumbered, IsElse, IsNumbered, IsSource, IsTarget, IsVar};
ghost use Rattle.tw_interp.specs.NumberedTrees.{other_tree, source_tree, step_tree, steps_tree, var_path_tree, var_tree};

use crate::activation::Activation;
use crate::call::{call_without_body, callee_bound, enter, leave};
use crate::fault::{RunFault, no_rule};
use crate::machine::Machine;
use crate::memory_step::{allocate, free, swap_memory};
use crate::numbered::{Action, Other, Source, Step};
use crate::pad::pad;
use crate::step::{assign, swap, unassign};
use crate::variable::{Var, VarPath};
use std::mem::replace;
use tw_syntax::Bound;
use tw_text::Pos;

/// Runs statements in order.
#[cycle(run)]
fn run_forward(
    act: &Activation,
    machine: &mut Machine,
    left: u32,
    steps: &[Step],
) -> Result<(), RunFault>
    ensures { AreNumbered (setting_of act.now) act.now.fun steps.now
        → FollowsWithin (setting_of act.now) (activation_of act.now) left true (steps_tree steps.now) (state_in act.now machine.old) (state_in act.now machine.new) result }
{
    for step in steps {
        run_step(act, machine, left, true, step)?;
    }
    Ok(())
}

/// Runs the reverses of statements in reverse order.
#[cycle(run)]
fn run_backward(
    act: &Activation,
    machine: &mut Machine,
    left: u32,
    steps: &[Step],
) -> Result<(), RunFault>
    ensures { AreNumbered (setting_of act.now) act.now.fun steps.now
        → FollowsWithin (setting_of act.now) (activation_of act.now) left false (steps_tree steps.now) (state_in act.now machine.old) (state_in act.now machine.new) result }
{
    let mut i = steps.len();
    while i > 0 {
        i -= 1;
        run_step(act, machine, left, false, &steps[i])?;
    }
    Ok(())
}

/// Runs the statements of a block, or their reverse. `left` is the depth that the block may have.
#[cycle(run)]
fn run_block(
    act: &Activation,
    machine: &mut Machine,
    left: u32,
    at: Pos,
    forward: bool,
    steps: &[Step],
) -> Result<(), RunFault>
    ensures { AreNumbered (setting_of act.now) act.now.fun steps.now
        → FollowsInside (setting_of act.now) (activation_of act.now) left forward (steps_tree steps.now) (state_in act.now machine.old) (state_in act.now machine.new) result }
{
    if left == 0 {
        return Err(no_rule(at));
    }
    if forward {
        run_forward(act, machine, left - 1, steps)
    } else {
        run_backward(act, machine, left - 1, steps)
    }
}

/// Runs an `if`, or its reverse.
#[cycle(run)]
fn run_if(
    act: &Activation,
    machine: &mut Machine,
    left: u32,
    at: Pos,
    forward: bool,
    cond: &VarPath,
    yes: &[Step],
    no: &Option<Other>,
) -> Result<(), RunFault>
    ensures { IsVar (names_of act.now) cond.now.root → AreNumbered (setting_of act.now) act.now.fun yes.now → IsElse (setting_of act.now) act.now.fun no.now
        → FollowsWithin (setting_of act.now) (activation_of act.now) left forward (IfStmt at (var_path_tree cond.now) (steps_tree yes.now) (other_tree no.now)) (state_in act.now machine.old) (state_in act.now machine.new) result }
{
    let Some(is) = machine.frame.truth_at(cond) else {
        return Err(no_rule(at));
    };
    if is {
        return run_block(act, machine, left, at, forward, yes);
    }
    match no {
        Some(other) => run_block(act, machine, left, at, forward, other.steps),
        None => pad(act, machine, at, forward, yes),
    }
}

/// Runs a `with`, or its reverse: the setup, the work or its reverse, and the reverse of the setup.
#[cycle(run)]
fn run_with(
    act: &Activation,
    machine: &mut Machine,
    left: u32,
    at: Pos,
    forward: bool,
    setup: &[Step],
    work: &[Step],
) -> Result<(), RunFault>
    ensures { AreNumbered (setting_of act.now) act.now.fun setup.now → AreNumbered (setting_of act.now) act.now.fun work.now
        → FollowsWithin (setting_of act.now) (activation_of act.now) left forward (WithStmt at (steps_tree setup.now) (steps_tree work.now)) (state_in act.now machine.old) (state_in act.now machine.new) result }
{
    run_block(act, machine, left, at, true, setup)?;
    run_block(act, machine, left, at, forward, work)?;
    run_block(act, machine, left, at, false, setup)
}

/// Runs a call of the function of this number, or its reverse.
#[cycle(run)]
fn run_call(
    act: &Activation,
    machine: &mut Machine,
    left: u32,
    at: Pos,
    assigns: bool,
    target: &Var,
    number: Option<usize>,
    bound: &Option<Bound>,
    args: &[Var],
) -> Result<(), RunFault>
    ensures { (callee : NameTree) → IsTarget (names_of act.now) target.now → number ≡ number_of (setting_of act.now).funs callee.text → AllByRecursion (IsTarget (names_of act.now)) args.now
        → FollowsWithin (setting_of act.now) (activation_of act.now) left true (LetStmt at assigns (var_tree target.now) (CallRhs callee (option_map bound_tree bound.now) (map var_tree args.now))) (state_in act.now machine.old) (state_in act.now machine.new) result }
{
    let Some(number) = number else {
        return Err(no_rule(at));
    };
    if number >= act.runner.checked.resolved.fun_count() {
        return Err(no_rule(at));
    }
    let Some(number_of_bound) = callee_bound(act.bound, bound) else {
        return call_without_body(act, machine, at, assigns, target, number);
    };
    let inner = Activation {
        runner: act.runner,
        fun: number,
        bound: number_of_bound,
    };
    let body = act.runner.body(number);
    let count = act.runner.checked.resolved.variables(number).len();
    let frame = enter(act.runner.alloc, &machine.frame, count, &body, target, args)?;
    let caller = replace(&mut machine.frame, frame);
    run_block(&inner, machine, left, at, assigns, body.steps)?;
    let callee = replace(&mut machine.frame, caller);
    leave(
        act.runner.alloc,
        &mut machine.frame,
        &callee,
        &body,
        target,
        args,
    )?;
    Ok(())
}

/// Runs an assignment, or an un-assignment.
#[cycle(run)]
fn run_let(
    act: &Activation,
    machine: &mut Machine,
    left: u32,
    at: Pos,
    assigns: bool,
    target: &Var,
    source: &Source,
) -> Result<(), RunFault>
    ensures { IsTarget (names_of act.now) target.now → IsSource (setting_of act.now) (names_of act.now) source.now
        → FollowsWithin (setting_of act.now) (activation_of act.now) left true (LetStmt at assigns (var_tree target.now) (source_tree source.now)) (state_in act.now machine.old) (state_in act.now machine.new) result }
{
    match source {
        Source::Formula(formula) => {
            if assigns {
                assign(act, machine, at, target, formula)
            } else {
                unassign(act, machine, at, target, formula)
            }
        }
        Source::Alloc { target: to, .. } => {
            if assigns {
                allocate(act, machine, at, target, *to)
            } else {
                free(act, machine, at, target, *to)
            }
        }
        Source::Call {
            number,
            bound,
            args,
            ..
        } => run_call(
            act, machine, left, at, assigns, target, *number, bound, args,
        ),
    }
}

/// Runs a statement, or its reverse. `left` is the depth that it may have.
#[cycle(run)]
fn run_step(
    act: &Activation,
    machine: &mut Machine,
    left: u32,
    forward: bool,
    step: &Step,
) -> Result<(), RunFault>
    ensures { IsNumbered (setting_of act.now) act.now.fun step.now
        → FollowsWithin (setting_of act.now) (activation_of act.now) left forward (step_tree step.now) (state_in act.now machine.old) (state_in act.now machine.new) result }
{
    match &step.action {
        Action::Let {
            forward: assigns,
            target,
            source,
        } => run_let(
            act,
            machine,
            left,
            step.at,
            forward == *assigns,
            target,
            source,
        ),
        Action::Swap(x, y) => swap(act, machine, step.at, x, y),
        Action::MemSwap {
            pointer,
            place,
            target,
        } => swap_memory(act, machine, step.at, pointer, place, *target),
        Action::If { cond, yes, no } => {
            run_if(act, machine, left, step.at, forward, cond, yes, no)
        }
        Action::With { setup, work } => {
            run_with(act, machine, left, step.at, forward, setup, work)
        }
        Action::Block(body) => run_block(act, machine, left, step.at, forward, body),
        Action::Skip => Ok(()),
    }
}

/// Runs the body of a function, or its reverse. `left` is the depth that it may have.
pub fn run_body(
    act: &Activation,
    machine: &mut Machine,
    left: u32,
    at: Pos,
    forward: bool,
    body: &[Step],
) -> Result<(), RunFault>
    ensures { AreNumbered (setting_of act.now) act.now.fun body.now
        → FollowsInside (setting_of act.now) (activation_of act.now) left forward (steps_tree body.now) (state_in act.now machine.old) (state_in act.now machine.new) result }
{
    run_block(act, machine, left, at, forward, body)
}
