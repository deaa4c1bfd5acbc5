//! Single statements.
ghost use Rattle.std.specs.Prelude.{true, false};
ghost use Rattle.tw_syntax.specs.Statements.{LetStmt, SwapStmt};
ghost use Rattle.tw_syntax.specs.Terms.{ExprRhs};
ghost use Rattle.tw_interp.specs.Following.{Follows};
ghost use Rattle.tw_interp.specs.Machines.{activation_of, names_of, setting_of, state_in};
ghost use Rattle.tw_interp.specs.Numbered.{IsFormula, IsTarget, IsVar};
ghost use Rattle.tw_interp.specs.NumberedTrees.{formula_tree, var_path_tree, var_tree};

use crate::activation::Activation;
use crate::evaluate::evaluate;
use crate::fault::{Reason, RunFault, no_rule, stuck};
use crate::formula::Formula;
use crate::machine::Machine;
use crate::variable::{Var, VarPath};
use tw_text::Pos;
use tw_types::{Val, same};

/// `let x <- e;`: x gets the value of e. A fault: out of memory.
pub fn assign(
    act: &Activation,
    machine: &mut Machine,
    at: Pos,
    target: &Var,
    formula: &Formula,
) -> Result<(), RunFault>
    ensures { IsTarget (names_of act.now) target.now → IsFormula (names_of act.now) formula.now
        → Follows (setting_of act.now) (activation_of act.now) (LetStmt at true (var_tree target.now) (ExprRhs (formula_tree formula.now))) (state_in act.now machine.old) (state_in act.now machine.new) result }
{
    let Some(val) = evaluate(
        act.runner.alloc,
        &act.runner.checked.resolved,
        &machine.frame,
        formula,
    )?
    else {
        return Err(no_rule(at));
    };
    machine.frame.set(target, val)?;
    Ok(())
}

/// `let x -> e;`: x, which has the value of e, is removed. A fault: it has another value, or out of memory.
pub fn unassign(
    act: &Activation,
    machine: &mut Machine,
    at: Pos,
    target: &Var,
    formula: &Formula,
) -> Result<(), RunFault>
    ensures { IsTarget (names_of act.now) target.now → IsFormula (names_of act.now) formula.now
        → Follows (setting_of act.now) (activation_of act.now) (LetStmt at false (var_tree target.now) (ExprRhs (formula_tree formula.now))) (state_in act.now machine.old) (state_in act.now machine.new) result }
{
    let Some(held) = machine.frame.take(target) else {
        return Err(no_rule(at));
    };
    let Some(val) = evaluate(
        act.runner.alloc,
        &act.runner.checked.resolved,
        &machine.frame,
        formula,
    )?
    else {
        return Err(no_rule(at));
    };
    if !same(&held, &val) {
        return Err(stuck(Reason::Unmet, at));
    }
    Ok(())
}

/// `p <-> q;`: the values at two paths change places. A fault: none.
pub fn swap(
    act: &Activation,
    machine: &mut Machine,
    at: Pos,
    left: &VarPath,
    right: &VarPath,
) -> Result<(), RunFault>
    ensures { IsVar (names_of act.now) left.now.root → IsVar (names_of act.now) right.now.root
        → Follows (setting_of act.now) (activation_of act.now) (SwapStmt at (var_path_tree left.now) (var_path_tree right.now)) (state_in act.now machine.old) (state_in act.now machine.new) result }
{
    let Some(x) = machine.frame.replace_at(left, Val::Unit) else {
        return Err(no_rule(at));
    };
    let Some(y) = machine.frame.replace_at(right, x) else {
        return Err(no_rule(at));
    };
    machine.frame.replace_at(left, y);
    Ok(())
}
