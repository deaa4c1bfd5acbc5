//! Runs of entries.
ghost use Rattle.std.specs.Prelude.{◌≡◌, ◌≤◌, ◌<◌, List, IfErr, IfOk, Some, length, map, not, option_map, slice_get};
ghost use Rattle.std.specs.List.{AllByRecursion};
ghost use Rattle.tw_text.specs.declared.limits.TheConstants.{DEPTH_LIMIT};
ghost use Rattle.tw_syntax.specs.Programs.{FunTree, program_tree};
ghost use Rattle.tw_types.specs.FromCode.{value_of};
ghost use Rattle.tw_types.specs.Values.{Value};
ghost use Rattle.tw_resolve.specs.Declarations.{funs_of};
ghost use Rattle.tw_resolve.specs.Resolved.{resolved_setting};
ghost use Rattle.tw_check.specs.EntryPoints.{IsEntry};
ghost use Rattle.tw_state.specs.FromCode.{listed_of};
ghost use Rattle.tw_state.specs.Listed as listed;
ghost use Rattle.tw_state.specs.Depth.{EntryIsWithin, EntryWithin};
ghost use Rattle.tw_state.specs.States.{Name};
ghost use Rattle.tw_state.specs.Steps.{running_bound};
ghost use Rattle.tw_state.proofs.Calls.{AreDifferent};
ghost use Rattle.tw_interp.specs.Frames.{store_of};
ghost use Rattle.tw_interp.specs.Machines.{state_of};
ghost use Rattle.tw_interp.specs.Numbered.{IsTarget, listed_names, listed_vars, numbered_names};
ghost use Rattle.tw_interp.specs.Runs.{FollowsEntry, IsAnswerOf, IsFaultOf, IsGivenTo, first_side, last_side};

use crate::activation::Activation;
use crate::call::call_without_body;
use crate::fault::{RunFault, no_rule};
use crate::frame::Frame;
use crate::machine::Machine;
use crate::run::run_body;
use crate::runner::{Body, Runner};
use crate::variable::Var;
use bumpalo::Bump;
use std::alloc::{AllocError, Global};
use tw_check::{Checked, Entry};
use tw_state::{Side, State, name_count};
use tw_text::{Arena, DEPTH_LIMIT, Pos};
use tw_types::{Val, copy_val};

/// The first place of a source.
const FIRST_PLACE: Pos = Pos { line: 1, col: 1 };

/// The variable at this place of a function: a parameter, or after them the result.
fn var_at<'a>(body: &Body<'_, 'a>, place: usize) -> Var<'a>
    ensures { place < length (listed_vars body.now) → slice_get (listed_vars body.now) place ≡ Some result }
{
    let params = body.params;
    if place < params.len() {
        params[place]
    } else {
        body.returned
    }
}

/// The frame in which the parameters of an entry of so many variables, and then its result, have these values, in order. There are no
/// more values. An error: out of memory.
fn load(alloc: Global, count: usize, body: &Body, values: &[Val]) -> Result<Frame, AllocError>
    ensures { IfOk result (λ frame. (names : List Name) → AllByRecursion (IsTarget names) (listed_vars body.now) → length values.now ≤ length (listed_vars body.now)
        → store_of names frame ≡ listed.store_of (listed_names body.now) (map value_of values.now)) }
{
    let mut frame = Frame::new(alloc, count)?;
    let mut i = values.len();
    while i > 0 {
        i -= 1;
        frame.set(&var_at(body, i), copy_val(alloc, &values[i])?)?;
    }
    Ok(frame)
}

/// The values of the first `count` of the parameters and the result of an entry, in order. `None` only if one of them has none. There
/// are at least as many. An error: out of memory.
fn unload(
    alloc: Global,
    body: &Body,
    frame: &Frame,
    count: usize,
) -> Result<Option<Vec<Val>>, AllocError>
    ensures { IfOk result (λ found. (names : List Name) (values : List Value) → AllByRecursion (IsTarget names) (listed_vars body.now) → AreDifferent (listed_names body.now)
        → count ≤ length (listed_vars body.now) → length values ≡ count → store_of names frame.now ≡ listed.store_of (listed_names body.now) values
        → option_map (λ vals. map value_of vals.items) found ≡ Some values) }
{
    let mut values = Vec::new(alloc);
    for i in 0..count {
        let Some(val) = frame.get(&var_at(body, i)) else {
            return Ok(None);
        };
        values.push(copy_val(alloc, val)?)?;
    }
    Ok(Some(values))
}

/// The side at which a run begins: the start, or, if it runs back, the end.
pub fn first_side(back: bool) -> Side
    ensures { result ≡ first_side back }
{
    if back { Side::End } else { Side::Start }
}

/// The side at which a run ends.
pub fn last_side(back: bool) -> Side
    ensures { result ≡ last_side back }
{
    if back { Side::Start } else { Side::End }
}

/// The number with which a function runs. `None` if it has the bound 0, and does not run.
fn running_bound(bound: Option<u8>) -> Option<u8>
    ensures { result ≡ running_bound bound }
{
    match bound {
        None => Some(0),
        Some(0) => None,
        Some(number) => Some(number),
    }
}

/// Runs the body of an entry, or its reverse.
fn run_machine(runner: &Runner, machine: &mut Machine, back: bool) -> Result<(), RunFault>
    requires entry { runner.now.entry.fun < length (funs_of (program_tree runner.now.checked.now.resolved.program.now).decls) }
    ensures { (fun : FunTree) → slice_get (funs_of (program_tree runner.now.checked.now.resolved.program.now).decls) runner.now.entry.fun ≡ Some fun
        → EntryIsWithin (resolved_setting runner.now.checked.now.resolved) DEPTH_LIMIT fun runner.now.entry.bound
        → FollowsEntry (resolved_setting runner.now.checked.now.resolved) fun runner.now.entry.bound back
        (state_of (numbered_names (resolved_setting runner.now.checked.now.resolved) runner.now.entry.fun) machine.old)
        (state_of (numbered_names (resolved_setting runner.now.checked.now.resolved) runner.now.entry.fun) machine.new) result }
{
    let fun = runner.entry.fun;
    let body = runner.body(fun);
    match running_bound(runner.entry.bound) {
        Some(bound) => {
            let act = Activation { runner, fun, bound };
            run_body(
                &act,
                machine,
                DEPTH_LIMIT as u32,
                FIRST_PLACE,
                !back,
                body.steps,
            )
        }
        None => {
            let act = Activation {
                runner,
                fun,
                bound: 0,
            };
            call_without_body(&act, machine, FIRST_PLACE, !back, &body.returned, fun)
        }
    }
}

impl<'c, 'a> Runner<'c, 'a> {
    /// Runs the entry on a state, forward, or backward from its end. Forward, the answer is the result of the entry on the state.
    /// Backward, it is the state whose result the given one is. The state is typed for the side at which the run begins, and
    /// well-formed, and the depth of the entry is at most [`DEPTH_LIMIT`]. A fault: the run is stuck, exactly if there is no answer,
    /// or out of memory. On a fault the state is dropped. `docs/DEFINITIONS-MEANING.md` has the semantics.
    pub fn run(&self, state: State, back: bool) -> Result<State, RunFault>
        requires entry { IsEntry (funs_of (program_tree self.now.checked.now.resolved.program.now).decls) self.now.entry }
        requires given { IsGivenTo (resolved_setting self.now.checked.now.resolved) self.now.entry.fun back (listed_of state) }
        requires depth { EntryWithin (resolved_setting self.now.checked.now.resolved) DEPTH_LIMIT self.now.entry.fun self.now.entry.bound }
        ensures answer { IfOk result (λ answer. ∥ IsAnswerOf (resolved_setting self.now.checked.now.resolved) self.now.entry.fun self.now.entry.bound back (listed_of state) (listed_of answer) ∥₁) }
        ensures fault { IfErr result (λ e. ∥ IsFaultOf (resolved_setting self.now.checked.now.resolved) self.now.entry.fun self.now.entry.bound back (listed_of state) e ∥₁) }
    {
        let program = &self.checked.resolved;
        let fun = program.fun_at(self.entry.fun);
        let body = self.body(self.entry.fun);
        let State { free, cells, store } = state;
        let variables = program.variables(self.entry.fun).len();
        let frame = load(self.alloc, variables, &body, &store)?;
        let mut machine = Machine { free, cells, frame };
        run_machine(self, &mut machine, back)?;
        let count = name_count(fun, last_side(back));
        let Some(values) = unload(self.alloc, &body, &machine.frame, count)? else {
            return Err(no_rule(FIRST_PLACE));
        };
        let Machine { free, cells, .. } = machine;
        Ok(State {
            free,
            cells,
            store: values,
        })
    }
}

/// Runs an entry on one state, as [`Runner::run`] does.
pub fn run_entry<'a>(
    alloc: Global,
    checked: &Checked<'a>,
    entry: Entry,
    state: State,
    back: bool,
) -> Result<State, RunFault>
    requires entry { IsEntry (funs_of (program_tree checked.now.resolved.program.now).decls) entry }
    requires given { IsGivenTo (resolved_setting checked.now.resolved) entry.fun back (listed_of state) }
    requires depth { EntryWithin (resolved_setting checked.now.resolved) DEPTH_LIMIT entry.fun entry.bound }
    ensures answer { IfOk result (λ answer. ∥ IsAnswerOf (resolved_setting checked.now.resolved) entry.fun entry.bound back (listed_of state) (listed_of answer) ∥₁) }
    ensures fault { IfErr result (λ e. ∥ IsFaultOf (resolved_setting checked.now.resolved) entry.fun entry.bound back (listed_of state) e ∥₁) }
{
    let arena: Arena = Bump::new(alloc);
    let runner = Runner::new(alloc, &arena, checked, entry)?;
    runner.run(state, back)
}
