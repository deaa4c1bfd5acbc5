//! The targets of the pointers of a program, collected in text order.
ghost use Rattle.std.specs.Prelude.{◌≡◌, [], ◌∷◌, OnOk, IfOk, map, flat_map, fold};
ghost use Rattle.tw_syntax.specs.Programs.{decl_tree, fun_tree, param_tree};
ghost use Rattle.tw_syntax.specs.Statements.{else_tree, stmt_tree, stmts_tree};
ghost use Rattle.tw_syntax.specs.Terms.{atom_tree, expr_tree, rhs_tree};
ghost use Rattle.tw_syntax.specs.Types.{written_tree};
ghost use Rattle.tw_resolve.specs.Collects.{Collects};
ghost use Rattle.tw_resolve.specs.Entries.{table_targets};
ghost use Rattle.tw_resolve.specs.Declarations.{targets_in, atom_targets, expr_targets, rhs_targets, stmt_targets, decl_targets, with_target};

use crate::target_table::TargetTable;
use std::alloc::{AllocError, Global};
use tw_syntax::{
    Atom, AtomKind, Decl, Expr, ExprKind, No, Param, Rhs, Stmt, StmtKind, Written, WrittenKind,
};
use tw_text::Arena;

/// Adds the targets in a written type.
#[tactic(auto, using(crate::proofs::Collecting::collects_none, crate::proofs::Collecting::collects_one, crate::proofs::Collecting::collects_then))]
fn add_inner<'a>(
    alloc: Global,
    arena: &'a Arena,
    targets: &mut TargetTable<'a>,
    written: &'a Written<'a>,
) -> Result<(), AllocError>
    ensures { OnOk result (Collects targets.old.table.entries targets.new.table.entries (targets_in (written_tree written.now))) }
{
    match &written.kind {
        WrittenKind::Unit => Ok(()),
        WrittenKind::Uint => Ok(()),
        WrittenKind::Bool => Ok(()),
        WrittenKind::Pair(first, second) => {
            add_inner(alloc, arena, targets, first)?;
            add_inner(alloc, arena, targets, second)
        }
        WrittenKind::Ptr(to) => {
            targets.add(alloc, arena, to)?;
            add_inner(alloc, arena, targets, to)
        }
        WrittenKind::Named(_) => Ok(()),
    }
}

/// Adds a target, and the targets in it.
#[tactic(auto, using(crate::proofs::Collecting::collects_none, crate::proofs::Collecting::collects_one, crate::proofs::Collecting::collects_then))]
fn add_target<'a>(
    alloc: Global,
    arena: &'a Arena,
    targets: &mut TargetTable<'a>,
    to: &'a Written<'a>,
) -> Result<(), AllocError>
    ensures { OnOk result (Collects targets.old.table.entries targets.new.table.entries (written_tree to.now ∷ targets_in (written_tree to.now))) }
{
    targets.add(alloc, arena, to)?;
    add_inner(alloc, arena, targets, to)
}

/// Adds the targets in an atom.
#[tactic(auto, using(crate::proofs::Collecting::collects_none, crate::proofs::Collecting::collects_one, crate::proofs::Collecting::collects_then))]
fn add_atom<'a>(
    alloc: Global,
    arena: &'a Arena,
    targets: &mut TargetTable<'a>,
    atom: &'a Atom<'a>,
) -> Result<(), AllocError>
    ensures { OnOk result (Collects targets.old.table.entries targets.new.table.entries (atom_targets (atom_tree atom.now))) }
{
    match &atom.kind {
        AtomKind::Null(to) => add_target(alloc, arena, targets, to),
        AtomKind::Zero(ty) => add_inner(alloc, arena, targets, ty),
        AtomKind::Place(_) => Ok(()),
        AtomKind::Number(_) => Ok(()),
        AtomKind::True => Ok(()),
        AtomKind::False => Ok(()),
        AtomKind::Unit => Ok(()),
    }
}

/// Adds the targets in an expression.
#[tactic(auto, using(crate::proofs::Collecting::collects_none, crate::proofs::Collecting::collects_one, crate::proofs::Collecting::collects_then))]
fn add_expr<'a>(
    alloc: Global,
    arena: &'a Arena,
    targets: &mut TargetTable<'a>,
    expr: &'a Expr<'a>,
) -> Result<(), AllocError>
    ensures { OnOk result (Collects targets.old.table.entries targets.new.table.entries (expr_targets (expr_tree expr.now))) }
{
    match &expr.kind {
        ExprKind::One(x) => add_atom(alloc, arena, targets, x),
        ExprKind::Two(x, y) => {
            add_atom(alloc, arena, targets, x)?;
            add_atom(alloc, arena, targets, y)
        }
        ExprKind::Not(x) => add_atom(alloc, arena, targets, x),
        ExprKind::Op(_, x, y) => {
            add_atom(alloc, arena, targets, x)?;
            add_atom(alloc, arena, targets, y)
        }
    }
}

/// Adds the targets in a right side.
#[tactic(auto, using(crate::proofs::Collecting::collects_none, crate::proofs::Collecting::collects_one, crate::proofs::Collecting::collects_then))]
fn add_rhs<'a>(
    alloc: Global,
    arena: &'a Arena,
    targets: &mut TargetTable<'a>,
    rhs: &'a Rhs<'a>,
) -> Result<(), AllocError>
    ensures { OnOk result (Collects targets.old.table.entries targets.new.table.entries (rhs_targets (rhs_tree rhs.now))) }
{
    match rhs {
        Rhs::Expr(expr) => add_expr(alloc, arena, targets, expr),
        Rhs::Call { .. } => Ok(()),
        Rhs::Alloc(to) => add_target(alloc, arena, targets, to),
    }
}

/// Adds the targets in statements.
#[cycle(stmts)]
fn add_stmts<'a>(
    alloc: Global,
    arena: &'a Arena,
    targets: &mut TargetTable<'a>,
    stmts: &'a [Stmt<'a>],
) -> Result<(), AllocError>
    ensures { OnOk result (Collects targets.old.table.entries targets.new.table.entries (stmt_targets (stmts_tree stmts.now))) }
{
    for stmt in stmts {
        add_stmt(alloc, arena, targets, stmt)?;
    }
    Ok(())
}

/// Adds the targets in an `else`, if there is one.
#[cycle(stmts)]
fn add_else<'a>(
    alloc: Global,
    arena: &'a Arena,
    targets: &mut TargetTable<'a>,
    no: &'a Option<No<'a>>,
) -> Result<(), AllocError>
    ensures { OnOk result (Collects targets.old.table.entries targets.new.table.entries (stmt_targets (else_tree no.now))) }
{
    match no {
        None => Ok(()),
        Some(other) => add_stmts(alloc, arena, targets, other.stmts),
    }
}

/// Adds the targets in a statement.
#[cycle(stmts)]
fn add_stmt<'a>(
    alloc: Global,
    arena: &'a Arena,
    targets: &mut TargetTable<'a>,
    stmt: &'a Stmt<'a>,
) -> Result<(), AllocError>
    ensures { OnOk result (Collects targets.old.table.entries targets.new.table.entries (stmt_targets (stmt_tree stmt.now))) }
{
    match &stmt.kind {
        StmtKind::Let { rhs, .. } => add_rhs(alloc, arena, targets, rhs),
        StmtKind::Swap(_, _) => Ok(()),
        StmtKind::MemSwap(_, _) => Ok(()),
        StmtKind::If { yes, no, .. } => {
            add_stmts(alloc, arena, targets, yes)?;
            add_else(alloc, arena, targets, no)
        }
        StmtKind::With { setup, work } => {
            add_stmts(alloc, arena, targets, setup)?;
            add_stmts(alloc, arena, targets, work)
        }
        StmtKind::Block(body) => add_stmts(alloc, arena, targets, body),
        StmtKind::Skip => Ok(()),
    }
}

/// Adds the targets in the types of parameters.
fn add_params<'a>(
    alloc: Global,
    arena: &'a Arena,
    targets: &mut TargetTable<'a>,
    params: &'a [Param<'a>],
) -> Result<(), AllocError>
    ensures { OnOk result (Collects targets.old.table.entries targets.new.table.entries (flat_map (λ param. targets_in param.ty) (map param_tree params.now))) }
{
    for param in params {
        add_inner(alloc, arena, targets, param.ty)?;
    }
    Ok(())
}

/// Adds the targets in a declaration.
#[tactic(auto, using(crate::proofs::Collecting::collects_none, crate::proofs::Collecting::collects_one, crate::proofs::Collecting::collects_then))]
fn add_decl<'a>(
    alloc: Global,
    arena: &'a Arena,
    targets: &mut TargetTable<'a>,
    decl: &'a Decl<'a>,
) -> Result<(), AllocError>
    ensures { OnOk result (Collects targets.old.table.entries targets.new.table.entries (decl_targets (decl_tree decl.now))) }
{
    match decl {
        Decl::Alias(alias) => add_inner(alloc, arena, targets, alias.body),
        Decl::Fun(fun) => {
            add_params(alloc, arena, targets, fun.params)?;
            add_inner(alloc, arena, targets, fun.result)?;
            add_stmts(alloc, arena, targets, fun.body)
        }
    }
}

/// The targets of the pointers in declarations, in the order in which they are first seen.
pub fn collect_targets<'a>(
    alloc: Global,
    arena: &'a Arena,
    decls: &'a [Decl<'a>],
) -> Result<TargetTable<'a>, AllocError>
    ensures { IfOk result (λ targets. table_targets targets.table.entries ≡ fold with_target [] (flat_map decl_targets (map decl_tree decls.now))) }
{
    let mut targets = TargetTable::new(alloc);
    for decl in decls {
        add_decl(alloc, arena, &mut targets, decl)?;
    }
    Ok(targets)
}
