//! The variables that statements assign and un-assign.
ghost use Rattle.std.specs.Prelude.{◌≡◌, ◌<◌, true, false, ℕ, List, length, slice_get, OnOk, Some};
ghost use Rattle.tw_resolve.specs.Setting.{Setting};
ghost use Rattle.tw_check.specs.Liveness.{live_after};
ghost use Rattle.tw_check.specs.Names.{Names, with_name};
ghost use Rattle.tw_state.specs.States.{Name};
ghost use Rattle.tw_interp.specs.Frames.{change_at, changed, changed_slots};
ghost use Rattle.tw_interp.specs.Numbered.{AreNumbered, IsNumbered, IsTarget, numbered_names};
ghost use Rattle.tw_interp.specs.NumberedTrees.{step_tree, steps_tree};

use crate::numbered::{Action, Step};
use crate::variable::Var;
use indexmap::IndexMap;
use std::alloc::{AllocError, Global};

/// The numbers of variables that statements change: each with whether the variable has a value after them.
#[derive(Drop)]
pub struct Changes {
    table: IndexMap<usize, bool>,
}

impl Changes {
    /// No changes. Does not allocate.
    pub fn new(alloc: Global) -> Changes
        ensures { (names : List Name) (live : Names) → changed names result live ≡ live }
    {
        Changes {
            table: IndexMap::new(alloc),
        }
    }

    /// The number of variables that change.
    pub fn len(&self) -> usize
        ensures { result ≡ length (changed_slots self.now) }
    {
        self.table.len()
    }

    /// The number of the variable that changes after so many others, and whether it has a value in the end. There are more.
    pub fn at(&self, place: usize) -> (usize, bool)
        requires { place < length (changed_slots self.now) }
        ensures slot { slice_get (changed_slots self.now) place ≡ Some result.0 }
        ensures change { change_at self.now result.0 ≡ Some result.1 }
    {
        let (slot, is_live) = self.table.get_index(place).unwrap();
        (*slot, *is_live)
    }

    /// Notes that a variable gets a value, or loses it. An error: out of memory.
    fn set(&mut self, var: &Var, is_live: bool) -> Result<(), AllocError>
        ensures { OnOk result ((names : List Name) (live : Names) → IsTarget names var.now → changed names self.new live ≡ with_name (changed names self.old live) var.now.name.text.now is_live) }
    {
        if let Some(slot) = var.slot {
            self.table.insert(slot, is_live)?;
        }
        Ok(())
    }
}

/// Notes what statements change if they run in order. An error: out of memory.
#[cycle(changes)]
fn note_forward(changes: &mut Changes, steps: &[Step]) -> Result<(), AllocError>
    ensures { OnOk result ((setting : Setting) (fun : ℕ) (live : Names) → AreNumbered setting fun steps.now
        → changed (numbered_names setting fun) changes.new live ≡ live_after true (steps_tree steps.now) (changed (numbered_names setting fun) changes.old live)) }
{
    for step in steps {
        note_step(changes, true, step)?;
    }
    Ok(())
}

/// Notes what statements change if their reverses run in reverse order. An error: out of memory.
#[cycle(changes)]
fn note_backward(changes: &mut Changes, steps: &[Step]) -> Result<(), AllocError>
    ensures { OnOk result ((setting : Setting) (fun : ℕ) (live : Names) → AreNumbered setting fun steps.now
        → changed (numbered_names setting fun) changes.new live ≡ live_after false (steps_tree steps.now) (changed (numbered_names setting fun) changes.old live)) }
{
    let mut i = steps.len();
    while i > 0 {
        i -= 1;
        note_step(changes, false, &steps[i])?;
    }
    Ok(())
}

/// Notes what statements change, or their reverse. An error: out of memory.
#[cycle(changes)]
pub fn note_changes(changes: &mut Changes, forward: bool, steps: &[Step]) -> Result<(), AllocError>
    ensures { OnOk result ((setting : Setting) (fun : ℕ) (live : Names) → AreNumbered setting fun steps.now
        → changed (numbered_names setting fun) changes.new live ≡ live_after forward (steps_tree steps.now) (changed (numbered_names setting fun) changes.old live)) }
{
    if forward {
        note_forward(changes, steps)
    } else {
        note_backward(changes, steps)
    }
}

/// Notes what a statement changes, or its reverse. An error: out of memory.
#[cycle(changes)]
fn note_step(changes: &mut Changes, forward: bool, step: &Step) -> Result<(), AllocError>
    ensures { OnOk result ((setting : Setting) (fun : ℕ) (live : Names) → IsNumbered setting fun step.now
        → changed (numbered_names setting fun) changes.new live ≡ live_after forward (step_tree step.now) (changed (numbered_names setting fun) changes.old live)) }
{
    match &step.action {
        Action::Let {
            forward: assigns,
            target,
            ..
        } => changes.set(target, forward == *assigns),
        Action::Swap(_, _) => Ok(()),
        Action::MemSwap { .. } => Ok(()),
        Action::If { yes, .. } => note_changes(changes, forward, yes),
        Action::With { setup, work } => {
            note_changes(changes, true, setup)?;
            note_changes(changes, forward, work)?;
            note_changes(changes, false, setup)
        }
        Action::Block(body) => note_changes(changes, forward, body),
        Action::Skip => Ok(()),
    }
}
