//! Statements that use memory.
ghost use Rattle.std.specs.Prelude.{◌≡◌, ◌≢◌, true, false, IfOk, Some, option_map};
ghost use Rattle.tw_syntax.specs.Statements.{LetStmt, MemSwapStmt};
ghost use Rattle.tw_syntax.specs.Terms.{AllocRhs};
ghost use Rattle.tw_syntax.specs.Types.{WrittenTree};
ghost use Rattle.tw_types.specs.FromCode.{value_of};
ghost use Rattle.tw_types.specs.Values.{Address};
ghost use Rattle.tw_resolve.specs.Declarations.{target_number};
ghost use Rattle.tw_resolve.specs.Expressions.{type_at_path};
ghost use Rattle.tw_state.specs.Evaluation.{zero_of_target};
ghost use Rattle.tw_state.specs.Parts.{value_at};
ghost use Rattle.tw_interp.specs.Answers.{Finds};
ghost use Rattle.tw_interp.specs.Following.{Follows, Frees};
ghost use Rattle.tw_interp.specs.Machines.{activation_of, names_of, setting_of, state_in};
ghost use Rattle.tw_interp.specs.Numbered.{IsTarget, IsVar, target_of};
ghost use Rattle.tw_interp.specs.NumberedTrees.{var_path_tree, var_tree};

use crate::activation::Activation;
use crate::fault::{Reason, RunFault, no_rule, stuck};
use crate::machine::{Machine, free_cell, replace_cell};
use crate::variable::{Var, VarPath};
use std::alloc::AllocError;
use tw_state::Cell;
use tw_text::Pos;
use tw_types::{TargetId, Val, same, zero_of};

/// `*p <-> q;` at a pointer to a block.
fn swap_block(
    act: &Activation,
    machine: &mut Machine,
    at: Pos,
    block: u32,
    pointer: &VarPath,
    place: &VarPath,
    target: Option<TargetId>,
) -> Result<(), RunFault>
    requires { block ≢ 0 }
    ensures { IsVar (names_of act.now) place.now.root → option_map (λ id. id.0) target ≡ target_of (type_at_path (activation_of act.now).types (var_path_tree pointer.now))
        → value_at (state_in act.now machine.old).store (var_path_tree pointer.now) ≡ Some (Address block)
        → Follows (setting_of act.now) (activation_of act.now) (MemSwapStmt at (var_path_tree pointer.now) (var_path_tree place.now)) (state_in act.now machine.old) (state_in act.now machine.new) result }
{
    let Some(target) = target else {
        return Err(no_rule(at));
    };
    let Some(content) = free_cell(&mut machine.cells, block, target, 0) else {
        return Err(stuck(Reason::Wild, at));
    };
    let Some(val) = machine.frame.replace_at(place, content) else {
        return Err(no_rule(at));
    };
    replace_cell(&mut machine.cells, block, Cell::Live(target, val));
    Ok(())
}

/// `*p <-> q;`: nothing if p is null; else the value of p's block and the value at q change places. A fault: the block is not live
/// with p's target.
pub fn swap_memory(
    act: &Activation,
    machine: &mut Machine,
    at: Pos,
    pointer: &VarPath,
    place: &VarPath,
    target: Option<TargetId>,
) -> Result<(), RunFault>
    ensures { IsVar (names_of act.now) pointer.now.root → IsVar (names_of act.now) place.now.root
        → option_map (λ id. id.0) target ≡ target_of (type_at_path (activation_of act.now).types (var_path_tree pointer.now))
        → Follows (setting_of act.now) (activation_of act.now) (MemSwapStmt at (var_path_tree pointer.now) (var_path_tree place.now)) (state_in act.now machine.old) (state_in act.now machine.new) result }
{
    let Some(block) = machine.frame.address_at(pointer) else {
        return Err(no_rule(at));
    };
    if block == 0 {
        return Ok(());
    }
    swap_block(act, machine, at, block, pointer, place, target)
}

/// The zero of the type that a target denotes. `None` only if there is no such target. An error: out of memory.
fn zero_of_target(act: &Activation, target: TargetId) -> Result<Option<Val>, AllocError>
    ensures { IfOk result (λ found. Finds (zero_of_target (setting_of act.now) target.0) (option_map value_of found)) }
{
    match act.runner.checked.resolved.pointee(target) {
        Some(ty) => Ok(Some(zero_of(act.runner.alloc, &ty)?)),
        None => Ok(None),
    }
}

/// `let x <- alloc<T>;` if a block is free.
fn allocate_block(
    act: &Activation,
    machine: &mut Machine,
    at: Pos,
    target: &Var,
    to: Option<TargetId>,
) -> Result<(), RunFault>
    requires { machine.old.free ≢ 0 }
    ensures { (written : WrittenTree) → IsTarget (names_of act.now) target.now → option_map (λ id. id.0) to ≡ target_number (setting_of act.now).scope.targets written
        → Follows (setting_of act.now) (activation_of act.now) (LetStmt at true (var_tree target.now) (AllocRhs written)) (state_in act.now machine.old) (state_in act.now machine.new) result }
{
    let Some(number) = to else {
        return Err(no_rule(at));
    };
    let Some(zero) = zero_of_target(act, number)? else {
        return Err(no_rule(at));
    };
    let block = machine.free;
    let Some(Cell::Free(next)) = replace_cell(&mut machine.cells, block, Cell::Live(number, zero))
    else {
        return Err(no_rule(at));
    };
    machine.free = next;
    machine.frame.set(target, Val::Ptr(block))?;
    Ok(())
}

/// `let x <- alloc<T>;`: the first free block becomes live with the zero of T, and x gets its address; x gets null if no block is free.
/// The target T has this number. A fault: out of memory.
pub fn allocate(
    act: &Activation,
    machine: &mut Machine,
    at: Pos,
    target: &Var,
    to: Option<TargetId>,
) -> Result<(), RunFault>
    ensures { (written : WrittenTree) → IsTarget (names_of act.now) target.now → option_map (λ id. id.0) to ≡ target_number (setting_of act.now).scope.targets written
        → Follows (setting_of act.now) (activation_of act.now) (LetStmt at true (var_tree target.now) (AllocRhs written)) (state_in act.now machine.old) (state_in act.now machine.new) result }
{
    if machine.free != 0 {
        return allocate_block(act, machine, at, target, to);
    }
    machine.frame.set(target, Val::Ptr(0))?;
    Ok(())
}

/// `let x -> alloc<T>;` after x was removed, if its block is not null.
fn free_block(
    act: &Activation,
    machine: &mut Machine,
    at: Pos,
    block: u32,
    to: Option<TargetId>,
) -> Result<(), RunFault>
    requires { block ≢ 0 }
    ensures { (written : WrittenTree) → option_map (λ id. id.0) to ≡ target_number (setting_of act.now).scope.targets written
        → Frees (setting_of act.now) written at block (state_in act.now machine.old) (state_in act.now machine.new) result }
{
    let Some(number) = to else {
        return Err(no_rule(at));
    };
    let next = machine.free;
    let Some(content) = free_cell(&mut machine.cells, block, number, next) else {
        return Err(stuck(Reason::Wild, at));
    };
    let Some(zero) = zero_of_target(act, number)? else {
        return Err(no_rule(at));
    };
    if !same(&content, &zero) {
        return Err(stuck(Reason::Dirty, at));
    }
    machine.free = block;
    Ok(())
}

/// `let x -> alloc<T>;`: the block of x becomes the first free one, and x is removed. The target T has this number. A fault: x is null
/// although a block is free; its block is not live with the target T; the value of the block is not zero; or out of memory.
pub fn free(
    act: &Activation,
    machine: &mut Machine,
    at: Pos,
    target: &Var,
    to: Option<TargetId>,
) -> Result<(), RunFault>
    ensures { (written : WrittenTree) → IsTarget (names_of act.now) target.now → option_map (λ id. id.0) to ≡ target_number (setting_of act.now).scope.targets written
        → Follows (setting_of act.now) (activation_of act.now) (LetStmt at false (var_tree target.now) (AllocRhs written)) (state_in act.now machine.old) (state_in act.now machine.new) result }
{
    let Some(held) = machine.frame.take(target) else {
        return Err(no_rule(at));
    };
    let Val::Ptr(block) = held else {
        return Err(no_rule(at));
    };
    if block != 0 {
        return free_block(act, machine, at, block, to);
    }
    if machine.free != 0 {
        return Err(stuck(Reason::Unmet, at));
    }
    Ok(())
}
