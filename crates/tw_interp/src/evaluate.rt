//! The values of atoms and expressions.
ghost use Rattle.std.specs.Prelude.{◌≡◌, IfOk, List, option_map};
ghost use Rattle.tw_syntax.specs.Types.{written_tree};
ghost use Rattle.tw_types.specs.FromCode.{value_of};
ghost use Rattle.tw_types.specs.Values.{PairValue};
ghost use Rattle.tw_resolve.specs.Resolved.{resolved_setting};
ghost use Rattle.tw_state.specs.Evaluation.{atom_value, both, expr_value, zero_of};
ghost use Rattle.tw_interp.specs.Answers.{Finds, FindsBoth};
ghost use Rattle.tw_state.specs.States.{Name};
ghost use Rattle.tw_interp.specs.Frames.{store_of};
ghost use Rattle.tw_interp.specs.Numbered.{IsFormula, IsOperand};
ghost use Rattle.tw_interp.specs.NumberedTrees.{formula_tree, operand_tree};

use crate::formula::{Formula, FormulaKind, Operand, OperandKind};
use crate::frame::Frame;
use crate::operator::{applied, negated};
use std::alloc::{AllocError, Global};
use tw_resolve::Resolved;
use tw_syntax::{Written, WrittenKind};
use tw_types::{Val, copy_val, zero_of};

/// The pair of two values. An error: out of memory.
fn pair(alloc: Global, first: Val, second: Val) -> Result<Val, AllocError>
    ensures { IfOk result (λ val. value_of val ≡ PairValue (value_of first) (value_of second)) }
{
    let first = Box::new(alloc, first)?;
    let second = Box::new(alloc, second)?;
    Ok(Val::Pair(first, second))
}

/// The zero of a written type that denotes a type. `None` only if it denotes none. An error: out of memory.
pub fn zero_of_written(
    alloc: Global,
    program: &Resolved,
    written: &Written,
) -> Result<Option<Val>, AllocError>
    ensures { IfOk result (λ found. Finds (zero_of (resolved_setting program.now) (written_tree written.now)) (option_map value_of found)) }
{
    match &written.kind {
        WrittenKind::Unit => Ok(Some(Val::Unit)),
        WrittenKind::Uint => Ok(Some(Val::U(0))),
        WrittenKind::Bool => Ok(Some(Val::B(false))),
        WrittenKind::Ptr(_) => Ok(Some(Val::Ptr(0))),
        WrittenKind::Pair(first, second) => {
            let Some(first) = zero_of_written(alloc, program, first)? else {
                return Ok(None);
            };
            let Some(second) = zero_of_written(alloc, program, second)? else {
                return Ok(None);
            };
            Ok(Some(pair(alloc, first, second)?))
        }
        WrittenKind::Named(name) => match program.named_type(name) {
            Some(ty) => Ok(Some(zero_of(alloc, &ty)?)),
            None => Ok(None),
        },
    }
}

/// The value of an atom. `None` only if it has none. An error: out of memory.
fn operand(
    alloc: Global,
    program: &Resolved,
    frame: &Frame,
    operand: &Operand,
) -> Result<Option<Val>, AllocError>
    ensures { IfOk result (λ found. (names : List Name) → IsOperand names operand.now → Finds (atom_value (resolved_setting program.now) (store_of names frame.now) (operand_tree operand.now)) (option_map value_of found)) }
{
    match &operand.kind {
        OperandKind::Place(path) => match frame.at(path) {
            Some(val) => Ok(Some(copy_val(alloc, val)?)),
            None => Ok(None),
        },
        OperandKind::Number(number) => Ok(Some(Val::U(*number))),
        OperandKind::True => Ok(Some(Val::B(true))),
        OperandKind::False => Ok(Some(Val::B(false))),
        OperandKind::Unit => Ok(Some(Val::Unit)),
        OperandKind::Null(_) => Ok(Some(Val::Ptr(0))),
        OperandKind::Zero(written) => zero_of_written(alloc, program, written),
    }
}

/// The values of two atoms. `None` only if one of them has none. An error: out of memory.
fn operands(
    alloc: Global,
    program: &Resolved,
    frame: &Frame,
    left: &Operand,
    right: &Operand,
) -> Result<Option<(Val, Val)>, AllocError>
    ensures { IfOk result (λ found. (names : List Name) → IsOperand names left.now → IsOperand names right.now
        → FindsBoth (atom_value (resolved_setting program.now) (store_of names frame.now) (operand_tree left.now)) (atom_value (resolved_setting program.now) (store_of names frame.now) (operand_tree right.now)) (option_map (λ vals. (value_of vals.0, value_of vals.1)) found)) }
{
    let Some(first) = operand(alloc, program, frame, left)? else {
        return Ok(None);
    };
    let Some(second) = operand(alloc, program, frame, right)? else {
        return Ok(None);
    };
    Ok(Some((first, second)))
}

/// The value of an expression. `None` only if it has none. An error: out of memory.
pub fn evaluate(
    alloc: Global,
    program: &Resolved,
    frame: &Frame,
    formula: &Formula,
) -> Result<Option<Val>, AllocError>
    ensures { IfOk result (λ found. (names : List Name) → IsFormula names formula.now → Finds (expr_value (resolved_setting program.now) (store_of names frame.now) (formula_tree formula.now)) (option_map value_of found)) }
{
    match &formula.kind {
        FormulaKind::One(x) => operand(alloc, program, frame, x),
        FormulaKind::Two(x, y) => match operands(alloc, program, frame, x, y)? {
            Some((first, second)) => Ok(Some(pair(alloc, first, second)?)),
            None => Ok(None),
        },
        FormulaKind::Not(x) => match operand(alloc, program, frame, x)? {
            Some(val) => Ok(negated(&val)),
            None => Ok(None),
        },
        FormulaKind::Op(operator, x, y) => match operands(alloc, program, frame, x, y)? {
            Some((left, right)) => Ok(applied(program.widths(), *operator, &left, &right)),
            None => Ok(None),
        },
    }
}
