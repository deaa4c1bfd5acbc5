//! The rules of statements, and the variables that they declare.
ghost use Rattle.std.specs.Prelude.{◌≡◌, if◌then◌else◌, IfOk, OnOk, option_map, slice_get};
ghost use Rattle.tw_syntax.specs.Names.{name_tree, path_tree};
ghost use Rattle.tw_syntax.specs.Programs.{fun_tree};
ghost use Rattle.tw_syntax.specs.Statements.{LetStmt, else_tree, stmt_tree, stmts_tree};
ghost use Rattle.tw_syntax.specs.Terms.{rhs_tree};
ghost use Rattle.tw_types.specs.FromCode.{ty_of};
ghost use Rattle.tw_syntax.specs.Types.{written_tree};
ghost use Rattle.tw_resolve.specs.Checked.{Checks};
ghost use Rattle.tw_resolve.specs.Demands.{Tries};
ghost use Rattle.tw_resolve.specs.Setting.{pointee};
ghost use Rattle.tw_resolve.specs.Expressions.{if_there, rhs_rules, rhs_type};
ghost use Rattle.tw_resolve.specs.Statements.{is_pointer, let_rules, mem_swap_rules, swap_rules, target_rules, with_variable};
ghost use Rattle.tw_resolve.specs.Tables.{setting_in};
ghost use Rattle.tw_resolve.specs.Variables.{variables_in};

use crate::calls::{Caller, check_call, result_of, ty_of_written};
use crate::demand::need;
use crate::expressions::check_expr;
use crate::paths::{check_path, fits, is_known, path_type};
use crate::tables::Tables;
use crate::type_rules::check_written;
use crate::variables::Variables;
use crate::written::pointer_to;
use std::alloc::{AllocError, Global};
use tw_syntax::{Name, No, Path, Rhs, Stmt, StmtKind, Written};
use tw_text::{Arena, Fault, Rule};
use tw_types::{TargetId, Ty};

/// The type of a right side, which keeps its rules. `None` if it has none.
#[tactic(auto, using(crate::proofs::Trying::trying))]
fn check_rhs<'a>(
    alloc: Global,
    arena: &'a Arena,
    tables: &Tables<'a>,
    variables: &Variables<'a>,
    caller: Caller<'a>,
    rhs: &Rhs<'a>,
) -> Result<Option<Ty<'a>>, Fault>
    ensures tried { Tries (rhs_rules (setting_in tables.now) caller.entry.number (fun_tree caller.entry.fun.now) (variables_in variables.now.table.entries) (rhs_tree rhs.now)) result }
    ensures found { IfOk result (λ found. option_map ty_of found ≡ rhs_type (setting_in tables.now) (variables_in variables.now.table.entries) (rhs_tree rhs.now)) }
{
    match rhs {
        Rhs::Expr(expr) => check_expr(alloc, arena, tables, variables, expr),
        Rhs::Call {
            callee,
            bound,
            args,
        } => {
            check_call(alloc, arena, tables, variables, caller, callee, bound, args)?;
            Ok(result_of(alloc, arena, tables, callee.text)?)
        }
        Rhs::Alloc(to) => {
            check_written(alloc, arena, tables, to)?;
            Ok(pointer_to(alloc, tables, to)?)
        }
    }
}

/// The target of an un-assignment is a variable.
fn check_target(variables: &Variables<'_>, forward: bool, target: &Name) -> Result<(), Fault>
    ensures { Tries (target_rules (variables_in variables.now.table.entries) forward (name_tree target.now)) result }
{
    if forward {
        return Ok(());
    }
    need(
        is_known(variables.get(target.text)),
        Rule::UnknownName,
        target.at,
    )
}

/// Two paths have one type.
#[tactic(auto, using(crate::proofs::Trying::trying))]
fn check_swap<'a>(variables: &Variables<'a>, left: &Path, right: &Path) -> Result<(), Fault>
    ensures { Tries (swap_rules (variables_in variables.now.table.entries) (path_tree left.now) (path_tree right.now)) result }
{
    let found = path_type(variables, left);
    check_path(variables, None, found, left)?;
    check_path(variables, found, path_type(variables, right), right)
}

/// Whether a type, if it is known, is that of pointers.
fn is_pointer(found: Option<Ty<'_>>) -> bool
    ensures { result ≡ if_there (option_map ty_of found.entry) is_pointer }
{
    match found {
        Some(Ty::Ptr(_)) => true,
        Some(Ty::Unit) => false,
        Some(Ty::Uint) => false,
        Some(Ty::Bool) => false,
        Some(Ty::Pair(_, _)) => false,
        None => true,
    }
}

/// The target of this number, as it is written.
fn target_at<'a>(tables: &Tables<'a>, number: TargetId) -> Option<&'a Written<'a>>
    ensures { option_map (λ to. written_tree to.now) result ≡ slice_get (setting_in tables.now).scope.targets number.0 }
{
    match tables.targets.table.get_index(number.0 as usize) {
        Some((_, to)) => Some(*to),
        None => None,
    }
}

/// The type that the target of a pointer denotes. An error: out of memory.
fn pointee<'a>(
    alloc: Global,
    arena: &'a Arena,
    tables: &Tables<'a>,
    found: Option<Ty<'a>>,
) -> Result<Option<Ty<'a>>, AllocError>
    ensures { IfOk result (λ value. option_map ty_of value ≡ pointee (setting_in tables.now) (option_map ty_of found.entry)) }
{
    match found {
        Some(Ty::Ptr(number)) => match target_at(tables, number) {
            Some(to) => ty_of_written(alloc, arena, tables, to),
            None => Ok(None),
        },
        Some(Ty::Unit) => Ok(None),
        Some(Ty::Uint) => Ok(None),
        Some(Ty::Bool) => Ok(None),
        Some(Ty::Pair(_, _)) => Ok(None),
        None => Ok(None),
    }
}

/// A path leads to a pointer, and another one has the type that it points to.
#[tactic(auto, using(crate::proofs::Trying::trying))]
fn check_mem_swap<'a>(
    alloc: Global,
    arena: &'a Arena,
    tables: &Tables<'a>,
    variables: &Variables<'a>,
    pointer: &Path,
    value: &Path,
) -> Result<(), Fault>
    ensures { Tries (mem_swap_rules (setting_in tables.now) (variables_in variables.now.table.entries) (path_tree pointer.now) (path_tree value.now)) result }
{
    let found = path_type(variables, pointer);
    check_path(variables, None, found, pointer)?;
    need(is_pointer(found), Rule::TypeMismatch, pointer.root.at)?;
    let needed = pointee(alloc, arena, tables, found)?;
    check_path(variables, needed, path_type(variables, value), value)
}

/// The type of the right side of a `let`, which keeps its rules.
fn check_let_rules<'a>(
    alloc: Global,
    arena: &'a Arena,
    tables: &Tables<'a>,
    caller: Caller<'a>,
    variables: &Variables<'a>,
    forward: bool,
    target: &Name<'a>,
    rhs: &Rhs<'a>,
) -> Result<Option<Ty<'a>>, Fault>
    ensures tried { Tries (let_rules (setting_in tables.now) caller.entry.number (fun_tree caller.entry.fun.now) (variables_in variables.now.table.entries) forward (name_tree target.now) (rhs_tree rhs.now)) result }
    ensures found { IfOk result (λ found. option_map ty_of found ≡ rhs_type (setting_in tables.now) (variables_in variables.now.table.entries) (rhs_tree rhs.now)) }
{
    check_target(variables, forward, target)?;
    let found = check_rhs(alloc, arena, tables, variables, caller, rhs)?;
    need(
        fits(variables.get(target.text), found),
        Rule::TypeChanged,
        target.at,
    )?;
    Ok(found)
}

/// Declares the target of an assignment. An error: out of memory.
fn declare<'a>(
    variables: &mut Variables<'a>,
    forward: bool,
    name: &'a str,
    found: Option<Ty<'a>>,
) -> Result<(), AllocError>
    ensures { OnOk result (variables_in variables.new.table.entries ≡ (if forward then with_variable (variables_in variables.old.table.entries) name.now (option_map ty_of found.entry) else variables_in variables.old.table.entries)) }
{
    if forward {
        variables.add(name, found)
    } else {
        Ok(())
    }
}

/// A `let` keeps its rules, and an assignment declares its target.
fn check_let<'a>(
    alloc: Global,
    arena: &'a Arena,
    tables: &Tables<'a>,
    caller: Caller<'a>,
    variables: &mut Variables<'a>,
    forward: bool,
    target: &Name<'a>,
    rhs: &Rhs<'a>,
) -> Result<(), Fault>
    ensures { Checks (setting_in tables.now) caller.entry.number (fun_tree caller.entry.fun.now) (LetStmt target.now.at forward (name_tree target.now) (rhs_tree rhs.now)) (variables_in variables.old.table.entries) (variables_in variables.new.table.entries) result }
{
    let found = check_let_rules(
        alloc, arena, tables, caller, variables, forward, target, rhs,
    )?;
    declare(variables, forward, target.text, found)?;
    Ok(())
}

/// Statements keep their rules, in order, and declare their variables.
#[cycle(check_stmt)]
pub fn check_stmts<'a>(
    alloc: Global,
    arena: &'a Arena,
    tables: &Tables<'a>,
    caller: Caller<'a>,
    variables: &mut Variables<'a>,
    stmts: &[Stmt<'a>],
) -> Result<(), Fault>
    ensures { Checks (setting_in tables.now) caller.entry.number (fun_tree caller.entry.fun.now) (stmts_tree stmts.now) (variables_in variables.old.table.entries) (variables_in variables.new.table.entries) result }
{
    for i in 0..stmts.len() {
        check_stmt(alloc, arena, tables, caller, variables, &stmts[i])?;
    }
    Ok(())
}

/// An `else`, if it is there, keeps its rules, and declares its variables.
#[cycle(check_stmt)]
fn check_else<'a>(
    alloc: Global,
    arena: &'a Arena,
    tables: &Tables<'a>,
    caller: Caller<'a>,
    variables: &mut Variables<'a>,
    other: &Option<No<'a>>,
) -> Result<(), Fault>
    ensures { Checks (setting_in tables.now) caller.entry.number (fun_tree caller.entry.fun.now) (else_tree other.now) (variables_in variables.old.table.entries) (variables_in variables.new.table.entries) result }
{
    match other {
        Some(no) => check_stmts(alloc, arena, tables, caller, variables, no.stmts),
        None => Ok(()),
    }
}

/// A statement keeps its rules, and declares its variables.
#[cycle(check_stmt)]
fn check_stmt<'a>(
    alloc: Global,
    arena: &'a Arena,
    tables: &Tables<'a>,
    caller: Caller<'a>,
    variables: &mut Variables<'a>,
    stmt: &Stmt<'a>,
) -> Result<(), Fault>
    ensures { Checks (setting_in tables.now) caller.entry.number (fun_tree caller.entry.fun.now) (stmt_tree stmt.now) (variables_in variables.old.table.entries) (variables_in variables.new.table.entries) result }
{
    match &stmt.kind {
        StmtKind::Let {
            forward,
            target,
            rhs,
        } => check_let(
            alloc, arena, tables, caller, variables, *forward, target, rhs,
        ),
        StmtKind::Swap(left, right) => check_swap(variables, left, right),
        StmtKind::MemSwap(pointer, value) => {
            check_mem_swap(alloc, arena, tables, variables, pointer, value)
        }
        StmtKind::If { cond, yes, no } => {
            check_path(variables, Some(Ty::Bool), path_type(variables, cond), cond)?;
            check_stmts(alloc, arena, tables, caller, variables, yes)?;
            check_else(alloc, arena, tables, caller, variables, no)
        }
        StmtKind::With { setup, work } => {
            check_stmts(alloc, arena, tables, caller, variables, setup)?;
            check_stmts(alloc, arena, tables, caller, variables, work)
        }
        StmtKind::Block(body) => check_stmts(alloc, arena, tables, caller, variables, body),
        StmtKind::Skip => Ok(()),
    }
}
