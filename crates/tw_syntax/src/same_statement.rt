//! Tests whether statements are equal but for their places.
ghost use Rattle.std.specs.Prelude.{◌≡◌};
ghost use Rattle.tw_syntax.specs.Statements.{stmt_tree, stmts_tree, else_tree};
ghost use Rattle.tw_syntax.specs.Same.{same_stmt};

use crate::same_term::{same_name, same_path, same_rhs};
use crate::statement::{No, Stmt, StmtKind};

/// Whether two lists of statements are equal but for their places.
#[cycle(same_stmt)]
#[tactic(auto, using(crate::proofs::Unequal::chains))]
pub fn same_stmts(x: &[Stmt], y: &[Stmt]) -> bool
    ensures { result ≡ same_stmt (stmts_tree x.now) (stmts_tree y.now) }
{
    if x.len() != y.len() {
        return false;
    }
    for i in 0..x.len() {
        if !same_stmt(&x[i], &y[i]) {
            return false;
        }
    }
    true
}

/// Whether two `else`s, or their absence, are equal but for their places.
#[cycle(same_stmt)]
fn same_else(x: &Option<No>, y: &Option<No>) -> bool
    ensures { result ≡ same_stmt (else_tree x.now) (else_tree y.now) }
{
    match x {
        None => match y {
            None => true,
            Some(_) => false,
        },
        Some(no) => match y {
            None => false,
            Some(other) => same_stmts(no.stmts, other.stmts),
        },
    }
}

/// Whether two statements are equal but for their places.
#[cycle(same_stmt)]
fn same_stmt(x: &Stmt, y: &Stmt) -> bool
    ensures { result ≡ same_stmt (stmt_tree x.now) (stmt_tree y.now) }
{
    match &x.kind {
        StmtKind::Let {
            forward,
            target,
            rhs,
        } => match &y.kind {
            StmtKind::Let {
                forward: way,
                target: name,
                rhs: other,
            } => forward == way && same_name(target, name) && same_rhs(rhs, other),
            _ => false,
        },
        StmtKind::Swap(a, b) => match &y.kind {
            StmtKind::Swap(c, d) => same_path(a, c) && same_path(b, d),
            _ => false,
        },
        StmtKind::MemSwap(a, b) => match &y.kind {
            StmtKind::MemSwap(c, d) => same_path(a, c) && same_path(b, d),
            _ => false,
        },
        StmtKind::If { cond, yes, no } => match &y.kind {
            StmtKind::If {
                cond: other,
                yes: first,
                no: second,
            } => same_path(cond, other) && (same_stmts(yes, first) && same_else(no, second)),
            _ => false,
        },
        StmtKind::With { setup, work } => match &y.kind {
            StmtKind::With {
                setup: other,
                work: body,
            } => same_stmts(setup, other) && same_stmts(work, body),
            _ => false,
        },
        StmtKind::Block(body) => match &y.kind {
            StmtKind::Block(other) => same_stmts(body, other),
            _ => false,
        },
        StmtKind::Skip => match &y.kind {
            StmtKind::Skip => true,
            _ => false,
        },
    }
}
