//! The variables of a function while it runs.
ghost use Rattle.std.specs.Prelude.{◌≡◌, ◌≢◌, ◌<◌, ℕ, Bool, List, length, Some, None, option_and_then, option_map, IfNone, IfOk, IfSome, OnOk};
ghost use Rattle.tw_types.specs.FromCode.{value_of};
ghost use Rattle.tw_types.specs.Values.{Address, Truth};
ghost use Rattle.tw_state.specs.Parts.{part_of, value_at, with_part, with_value_at};
ghost use Rattle.tw_state.specs.States.{Name, empty, with_value, without};
ghost use Rattle.tw_interp.specs.Frames.{slots_of, store_of, with_slot};
ghost use Rattle.tw_interp.specs.Numbered.{IsTarget, IsVar};
ghost use Rattle.tw_interp.specs.NumberedTrees.{var_path_tree};

use crate::part::{part_of, replace_part};
use crate::variable::{Var, VarPath};
use std::alloc::{AllocError, Global};
use tw_types::Val;

/// The values of the variables of a function that runs, by their numbers. A variable whose number is past the end has no value.
#[derive(Drop)]
pub struct Frame {
    values: Vec<Option<Val>>,
}

impl Frame {
    /// No variable has a value. There is room for the values of this many variables. An error: out of memory.
    pub fn new(alloc: Global, count: usize) -> Result<Frame, AllocError>
        ensures { IfOk result (λ frame. (names : List Name) → store_of names frame ≡ empty) }
    {
        Ok(Frame {
            values: Vec::with_capacity(alloc, count)?,
        })
    }

    /// The value of the variable of this number, if it has one.
    pub fn in_slot(&self, slot: usize) -> Option<&Val>
        ensures { option_map (λ val. value_of val.now) result ≡ slots_of self.now slot }
    {
        if slot < self.values.len() {
            self.values[slot].as_ref()
        } else {
            None
        }
    }

    /// Makes room for a value of the variable of this number. An error: out of memory.
    fn reach(&mut self, slot: usize) -> Result<(), AllocError>
        ensures kept { slots_of self.new ≡ slots_of self.old }
        ensures reached { OnOk result (slot < length self.new.values.items) }
    {
        while self.values.len() <= slot {
            self.values.push(None)?;
        }
        Ok(())
    }

    /// Gives the variable of this number a value. An error: out of memory.
    pub fn set_slot(&mut self, slot: usize, val: Val) -> Result<(), AllocError>
        ensures { OnOk result (slots_of self.new ≡ with_slot (slots_of self.old) slot (Some (value_of val))) }
    {
        self.reach(slot)?;
        self.values[slot] = Some(val);
        Ok(())
    }

    /// Takes the value of the variable of this number away, and gives it.
    pub fn take_slot(&mut self, slot: usize) -> Option<Val>
        ensures value { option_map value_of result ≡ slots_of self.old slot }
        ensures slots { slots_of self.new ≡ with_slot (slots_of self.old) slot None }
    {
        if slot < self.values.len() {
            self.values[slot].take()
        } else {
            None
        }
    }

    /// The value of a variable, if it has one.
    pub fn get(&self, var: &Var) -> Option<&Val>
        ensures { (names : List Name) → IsVar names var.now → option_map (λ val. value_of val.now) result ≡ store_of names self.now var.now.name.text.now }
    {
        self.in_slot(var.slot?)
    }

    /// Gives a variable a value. A name that has no number has no variable, and gets none. An error: out of memory.
    pub fn set(&mut self, var: &Var, val: Val) -> Result<(), AllocError>
        ensures { OnOk result ((names : List Name) → IsTarget names var.now → store_of names self.new ≡ with_value (store_of names self.old) var.now.name.text.now (value_of val)) }
    {
        match var.slot {
            Some(slot) => self.set_slot(slot, val),
            None => Ok(()),
        }
    }

    /// Takes the value of a variable away, and gives it.
    pub fn take(&mut self, var: &Var) -> Option<Val>
        ensures value { (names : List Name) → IsVar names var.now → option_map value_of result ≡ store_of names self.old var.now.name.text.now }
        ensures store { (names : List Name) → IsVar names var.now → store_of names self.new ≡ without (store_of names self.old) var.now.name.text.now }
    {
        match var.slot {
            Some(slot) => self.take_slot(slot),
            None => None,
        }
    }

    /// The value at a path, if its root has a value and its steps lead to a part.
    pub fn at(&self, path: &VarPath) -> Option<&Val>
        ensures { (names : List Name) → IsVar names path.now.root → option_map (λ val. value_of val.now) result ≡ value_at (store_of names self.now) (var_path_tree path.now) }
    {
        part_of(self.get(&path.root)?, path.steps)
    }

    /// Puts a value at a path from the variable of this number, and gives the value that was there. `None` if no value was there, and
    /// then nothing changes.
    fn replace_in_slot(&mut self, slot: usize, steps: &[u8], val: Val) -> Option<Val>
        ensures slots { slots_of self.new ≡ with_slot (slots_of self.old) slot (option_map (λ whole. with_part steps.now whole (value_of val)) (slots_of self.old slot)) }
        ensures old { option_map value_of result ≡ option_and_then (part_of steps.now) (slots_of self.old slot) }
    {
        if slot < self.values.len() {
            match &mut self.values[slot] {
                Some(whole) => replace_part(whole, steps, val),
                None => None,
            }
        } else {
            None
        }
    }

    /// Puts a value at a path, and gives the value that was there. `None` if no value was there, and then nothing changes.
    pub fn replace_at(&mut self, path: &VarPath, val: Val) -> Option<Val>
        ensures value { (names : List Name) → IsVar names path.now.root → store_of names self.new ≡ with_value_at (store_of names self.old) (var_path_tree path.now) (value_of val) }
        ensures old { (names : List Name) → IsVar names path.now.root → option_map value_of result ≡ value_at (store_of names self.old) (var_path_tree path.now) }
    {
        match path.root.slot {
            Some(slot) => self.replace_in_slot(slot, path.steps, val),
            None => None,
        }
    }

    /// The truth value at a path. `None` if there is none.
    pub fn truth_at(&self, path: &VarPath) -> Option<bool>
        ensures truth { IfSome result (λ is. (names : List Name) → IsVar names path.now.root → value_at (store_of names self.now) (var_path_tree path.now) ≡ Some (Truth is)) }
        ensures none { IfNone result ((names : List Name) → IsVar names path.now.root → (is : Bool) → value_at (store_of names self.now) (var_path_tree path.now) ≢ Some (Truth is)) }
    {
        match self.at(path)? {
            Val::B(is) => Some(*is),
            _ => None,
        }
    }
    /// The address at a path. `None` if there is none.
    pub fn address_at(&self, path: &VarPath) -> Option<u32>
        ensures address { IfSome result (λ block. (names : List Name) → IsVar names path.now.root → value_at (store_of names self.now) (var_path_tree path.now) ≡ Some (Address block)) }
        ensures none { IfNone result ((names : List Name) → IsVar names path.now.root → (block : ℕ) → value_at (store_of names self.now) (var_path_tree path.now) ≢ Some (Address block)) }
    {
        match self.at(path)? {
            Val::Ptr(block) => Some(*block),
            _ => None,
        }
    }
}
