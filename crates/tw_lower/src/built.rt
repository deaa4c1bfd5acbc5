//! Which programs are compiled.
ghost use Rattle.std.specs.Prelude.{Decides};
ghost use Rattle.tw_syntax.specs.Programs.{fun_tree, program_tree};
ghost use Rattle.tw_syntax.specs.Statements.{else_tree, stmt_tree, stmts_tree};
ghost use Rattle.tw_syntax.specs.Terms.{expr_tree, rhs_tree};
ghost use Rattle.tw_resolve.specs.Declarations.{funs_of};
ghost use Rattle.tw_lower.specs.Lowering.{IsBuilt, IsBuiltExpr, IsBuiltFun, IsBuiltProgram, IsBuiltRhs};

use tw_check::Checked;
use tw_syntax::{Expr, ExprKind, Fun, No, OpKind, Rhs, Stmt, StmtKind};

/// Whether an expression is compiled: atoms, pairs and `&&` are.
fn is_built_expr(expr: &Expr<'_>) -> bool
    ensures { Decides result (IsBuiltExpr (expr_tree expr.now)) }
{
    match &expr.kind {
        ExprKind::One(_) => true,
        ExprKind::Two(_, _) => true,
        ExprKind::Not(_) => false,
        ExprKind::Op(operator, _, _) => match operator {
            OpKind::And => true,
            _ => false,
        },
    }
}

/// Whether a right side is compiled: expressions that are compiled are.
fn is_built_rhs(rhs: &Rhs<'_>) -> bool
    ensures { Decides result (IsBuiltRhs (rhs_tree rhs.now)) }
{
    match rhs {
        Rhs::Expr(expr) => is_built_expr(expr),
        Rhs::Call { .. } => false,
        Rhs::Alloc(_) => false,
    }
}

/// Whether all of these statements are compiled.
#[cycle(built)]
fn are_built(stmts: &[Stmt<'_>]) -> bool
    ensures { Decides result (IsBuilt (stmts_tree stmts.now)) }
{
    for stmt in stmts {
        if !is_built_stmt(stmt) {
            return false;
        }
    }
    true
}

/// Whether the statements of an `else` are compiled.
#[cycle(built)]
fn is_built_else(no: &Option<No<'_>>) -> bool
    ensures { Decides result (IsBuilt (else_tree no.now)) }
{
    match no {
        Some(other) => are_built(other.stmts),
        None => true,
    }
}

/// Whether a statement is compiled.
#[cycle(built)]
fn is_built_stmt(stmt: &Stmt<'_>) -> bool
    ensures { Decides result (IsBuilt (stmt_tree stmt.now)) }
{
    match &stmt.kind {
        StmtKind::Let { rhs, .. } => is_built_rhs(rhs),
        StmtKind::If { yes, no, .. } => are_built(yes) && is_built_else(no),
        StmtKind::With { setup, work } => are_built(setup) && are_built(work),
        StmtKind::Block(body) => are_built(body),
        StmtKind::Swap(_, _) => false,
        StmtKind::MemSwap(_, _) => false,
        StmtKind::Skip => true,
    }
}

/// Whether a function declares no bound and has only statements that are compiled.
fn is_built_fun(fun: &Fun<'_>) -> bool
    ensures { Decides result (IsBuiltFun (fun_tree fun.now)) }
{
    fun.bound.is_none() && are_built(fun.body)
}

/// Whether each function of a program declares no bound and has only statements that are compiled.
pub fn is_built(checked: &Checked<'_>) -> bool
    ensures { Decides result (IsBuiltProgram (funs_of (program_tree checked.now.resolved.program.now).decls)) }
{
    let program = &checked.resolved;
    for number in 0..program.fun_count() {
        if !is_built_fun(program.fun_at(number)) {
            return false;
        }
    }
    true
}
