//! The rules of statements.
ghost use Rattle.std.specs.Prelude.{◌≡◌, ◌∷◌, [], map};
ghost use Rattle.tw_text.specs.declared.place.Pos.{Pos};
ghost use Rattle.tw_syntax.specs.Names.{name_tree, path_tree};
ghost use Rattle.tw_syntax.specs.Terms.{rhs_tree};
ghost use Rattle.tw_syntax.specs.Statements.{stmt_tree, stmts_tree, else_tree, LetStmt, SwapStmt, MemSwapStmt, IfStmt, WithStmt};
ghost use Rattle.tw_resolve.specs.Demands.{Tries};
ghost use Rattle.tw_check.specs.Rules.{target_rules, operand_rules, stmt_rules};
ghost use Rattle.tw_check.specs.Walks.{set_of, now_of, Walks};

use crate::mention::push_mentioned;
use crate::path::overlap;
use crate::variable::{push_variables, writes};
use crate::walk::Walk;
use tw_resolve::need;
use tw_syntax::{Name, No, Path, Rhs, Stmt, StmtKind};
use tw_text::{Fault, Pos, Rule};

/// Tries the rules of the target of an assignment, or of an un-assignment.
fn check_target(walk: &Walk, forward: bool, target: &Name) -> Result<(), Fault>
    ensures { Tries (target_rules (set_of walk.now.held) (set_of walk.now.live) forward (name_tree target.now)) result }
{
    if forward {
        need(!walk.live.has(target.text), Rule::Redeclared, target.at)?;
    } else {
        walk.need_live(target)?;
    }
    walk.need_free(target)
}

/// Tries the rules of the variables of a right side.
fn check_operands(
    walk: &Walk,
    target: &Name,
    are_written: bool,
    names: &[Name],
) -> Result<(), Fault>
    ensures { Tries (operand_rules (set_of walk.now.held) (set_of walk.now.live) (name_tree target.now) are_written (map name_tree names.now)) result }
{
    for name in names {
        need(target.text != name.text, Rule::SelfUse, name.at)?;
        need(walk.live.has(name.text), Rule::NotDeclared, name.at)?;
        let is_free = !(are_written && walk.held.has(name.text));
        need(is_free, Rule::ConditionWritten, name.at)?;
    }
    Ok(())
}

/// Tries the rules of an assignment or an un-assignment, and goes past it.
fn check_let<'a>(
    walk: &mut Walk<'a>,
    forward: bool,
    target: &Name<'a>,
    rhs: &Rhs<'a>,
) -> Result<(), Fault>
    ensures { (at : Pos) → Walks (LetStmt at forward (name_tree target.now) (rhs_tree rhs.now)) (now_of walk.old) (now_of walk.new) result }
{
    check_target(walk, forward, target)?;
    let mut names = Vec::new(walk.alloc);
    push_variables(&mut names, rhs)?;
    check_operands(walk, target, writes(rhs), &names)?;
    walk.live.set(target.text, forward)?;
    Ok(())
}

/// Tries the rules of a swap.
fn check_swap(walk: &Walk, left: &Path, right: &Path) -> Result<(), Fault>
    ensures { (at : Pos) → Tries (stmt_rules (set_of walk.now.held) (set_of walk.now.live) (SwapStmt at (path_tree left.now) (path_tree right.now))) result }
{
    walk.need_live(&left.root)?;
    walk.need_free(&left.root)?;
    walk.need_live(&right.root)?;
    walk.need_free(&right.root)?;
    need(!overlap(left, right), Rule::Overlap, right.root.at)
}

/// Tries the rules of a memory swap.
fn check_mem_swap(walk: &Walk, pointer: &Path, value: &Path) -> Result<(), Fault>
    ensures { (at : Pos) → Tries (stmt_rules (set_of walk.now.held) (set_of walk.now.live) (MemSwapStmt at (path_tree pointer.now) (path_tree value.now))) result }
{
    walk.need_live(&pointer.root)?;
    walk.need_live(&value.root)?;
    walk.need_free(&value.root)?;
    need(!overlap(pointer, value), Rule::Overlap, value.root.at)
}

/// Tries the rules of statements in order, and goes past them.
#[cycle(check)]
pub fn check_stmts<'a>(walk: &mut Walk<'a>, stmts: &[Stmt<'a>]) -> Result<(), Fault>
    ensures { Walks (stmts_tree stmts.now) (now_of walk.old) (now_of walk.new) result }
{
    for stmt in stmts {
        check_stmt(walk, stmt)?;
    }
    Ok(())
}

/// Tries the rules of a statement, and goes past it.
#[cycle(check)]
fn check_stmt<'a>(walk: &mut Walk<'a>, stmt: &Stmt<'a>) -> Result<(), Fault>
    ensures { Walks (stmt_tree stmt.now) (now_of walk.old) (now_of walk.new) result }
{
    match &stmt.kind {
        StmtKind::Let {
            forward,
            target,
            rhs,
        } => check_let(walk, *forward, target, rhs),
        StmtKind::Swap(left, right) => check_swap(walk, left, right),
        StmtKind::MemSwap(pointer, value) => check_mem_swap(walk, pointer, value),
        StmtKind::If { cond, yes, no } => check_if(walk, cond, yes, no),
        StmtKind::With { setup, work } => check_with(walk, stmt.at, setup, work),
        StmtKind::Block(body) => check_stmts(walk, body),
        StmtKind::Skip => Ok(()),
    }
}

/// Tries the rules of an `if`, and goes past it. Both branches begin with the names that are live before it. The names that
/// they mention decide whether they end alike.
#[cycle(check)]
fn check_if<'a>(
    walk: &mut Walk<'a>,
    cond: &Path<'a>,
    yes: &[Stmt<'a>],
    no: &Option<No<'a>>,
) -> Result<(), Fault>
    ensures { (at : Pos) → Walks (IfStmt at (path_tree cond.now) (stmts_tree yes.now) (else_tree no.now)) (now_of walk.old) (now_of walk.new) result }
{
    walk.need_live(&cond.root)?;
    let was_held = walk.held.has(cond.root.text);
    walk.held.set(cond.root.text, true)?;
    match no {
        None => {
            check_stmts(walk, yes)?;
            walk.held.set(cond.root.text, was_held)?;
            Ok(())
        }
        Some(other) => {
            let mut names = Vec::new(walk.alloc);
            push_mentioned(&mut names, yes)?;
            push_mentioned(&mut names, other.stmts)?;
            let before = walk.live.note(walk.alloc, &names)?;
            check_stmts(walk, yes)?;
            let after = walk.live.note(walk.alloc, &names)?;
            walk.live.put_back(&before)?;
            check_stmts(walk, other.stmts)?;
            need(
                walk.live.is_as_noted(&after),
                Rule::BranchesDiffer,
                other.at,
            )?;
            walk.held.set(cond.root.text, was_held)?;
            Ok(())
        }
    }
}

/// Tries the rules of a `with` at a place, and goes past it. The setup is walked once: after the work, the names that it
/// mentions have to be as they were after the setup, and then the reversed setup leaves them as they were before it.
#[cycle(check)]
fn check_with<'a>(
    walk: &mut Walk<'a>,
    at: Pos,
    setup: &[Stmt<'a>],
    work: &[Stmt<'a>],
) -> Result<(), Fault>
    ensures { Walks (WithStmt at (stmts_tree setup.now) (stmts_tree work.now)) (now_of walk.old) (now_of walk.new) result }
{
    let mut names = Vec::new(walk.alloc);
    push_mentioned(&mut names, setup)?;
    let before = walk.live.note(walk.alloc, &names)?;
    check_stmts(walk, setup)?;
    let ready = walk.live.note(walk.alloc, &names)?;
    check_stmts(walk, work)?;
    need(walk.live.is_as_noted(&ready), Rule::WithNotUndone, at)?;
    walk.live.put_back(&before)?;
    Ok(())
}
