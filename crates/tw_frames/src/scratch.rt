//! The scratch wires of statements, as counts that stop at the greatest `u64`.
ghost use Rattle.std.specs.Prelude.{◌≡◌, ℕ};
ghost use Rattle.tw_syntax.specs.Statements.{else_tree, stmt_tree, stmts_tree};
ghost use Rattle.tw_syntax.specs.Terms.{expr_tree, rhs_tree};
ghost use Rattle.tw_types.specs.Types.{Widths as PlainWidths};
ghost use Rattle.tw_resolve.specs.Setting.{reported};
ghost use Rattle.tw_frames.specs.Found.{setting_of, types_of};
ghost use Rattle.tw_frames.specs.Scratch.{alloc_scratch, expr_scratch, mem_swap_scratch, not_scratch, op_scratch, rhs_scratch, stmt_scratch};

use crate::body::Body;
use crate::sizes::{bits_of_atom, bits_of_path};
use tw_syntax::{Expr, ExprKind, No, OpKind, Rhs, Stmt, StmtKind};
use tw_types::Widths;

/// The scratch of `not`: a copy of the operand.
const NOT_SCRATCH: u64 = 1;

/// The scratch of an allocation, and of an exchange with memory: the wire that selects the block.
const SELECT_SCRATCH: u64 = 1;

/// The scratch of an operator on operands of this number of bits: copies of both operands, and what is computed from them.
fn scratch_of_op(widths: Widths, operator: OpKind, bits: u64) -> u64
    ensures { (n : ℕ) → bits ≡ reported n → result ≡ reported (op_scratch widths.word n operator) }
{
    let word = u64::from(widths.word);
    match operator {
        OpKind::And => 2,
        OpKind::Or => 2,
        OpKind::Eq => bits.saturating_add(bits),
        OpKind::Ne => bits.saturating_add(bits),
        OpKind::Add => 3 * word - 1,
        OpKind::Sub => 3 * word,
        OpKind::Lt => 3 * word + 1,
        OpKind::Mul => 3 * word + (word - 1) * (word - 1),
    }
}

/// The scratch of an expression.
fn scratch_of_expr(body: &Body<'_, '_>, expr: &Expr<'_>) -> u64
    ensures { result ≡ reported (expr_scratch (setting_of body.now) (types_of body.now) (expr_tree expr.now)) }
{
    match &expr.kind {
        ExprKind::One(_) => 0,
        ExprKind::Two(_, _) => 0,
        ExprKind::Not(_) => NOT_SCRATCH,
        ExprKind::Op(operator, left, _) => {
            scratch_of_op(body.program.widths(), *operator, bits_of_atom(body, left))
        }
    }
}

/// The scratch of a right side. A call has none here: its body is counted where it is entered.
fn scratch_of_rhs(body: &Body<'_, '_>, rhs: &Rhs<'_>) -> u64
    ensures { result ≡ reported (rhs_scratch (setting_of body.now) (types_of body.now) (rhs_tree rhs.now)) }
{
    match rhs {
        Rhs::Expr(expr) => scratch_of_expr(body, expr),
        Rhs::Call { .. } => 0,
        Rhs::Alloc(_) => SELECT_SCRATCH,
    }
}

/// The scratch of an exchange of this number of bits with a block.
fn scratch_of_mem_swap(bits: u64) -> u64
    ensures { (n : ℕ) → bits ≡ reported n → result ≡ reported (mem_swap_scratch n) }
{
    if bits == 0 { 0 } else { SELECT_SCRATCH }
}

/// The scratch of statements.
#[cycle(scratch)]
pub fn scratch_of_stmts(body: &Body<'_, '_>, stmts: &[Stmt<'_>]) -> u64
    ensures { result ≡ reported (stmt_scratch (setting_of body.now) (types_of body.now) (stmts_tree stmts.now)) }
{
    let mut most: u64 = 0;
    for stmt in stmts {
        most = most.max(scratch_of_stmt(body, stmt));
    }
    most
}

/// The scratch of an `else`.
#[cycle(scratch)]
fn scratch_of_else(body: &Body<'_, '_>, no: &Option<No<'_>>) -> u64
    ensures { result ≡ reported (stmt_scratch (setting_of body.now) (types_of body.now) (else_tree no.now)) }
{
    match no {
        Some(other) => scratch_of_stmts(body, other.stmts),
        None => 0,
    }
}

/// The scratch of a statement: that of the part that needs most.
#[cycle(scratch)]
fn scratch_of_stmt(body: &Body<'_, '_>, stmt: &Stmt<'_>) -> u64
    ensures { result ≡ reported (stmt_scratch (setting_of body.now) (types_of body.now) (stmt_tree stmt.now)) }
{
    match &stmt.kind {
        StmtKind::Let { rhs, .. } => scratch_of_rhs(body, rhs),
        StmtKind::If { yes, no, .. } => {
            let first = scratch_of_stmts(body, yes);
            first.max(scratch_of_else(body, no))
        }
        StmtKind::With { setup, work } => {
            let before = scratch_of_stmts(body, setup);
            before.max(scratch_of_stmts(body, work))
        }
        StmtKind::Block(inner) => scratch_of_stmts(body, inner),
        StmtKind::Swap(_, _) => 0,
        StmtKind::MemSwap(_, value) => scratch_of_mem_swap(bits_of_path(body, value)),
        StmtKind::Skip => 0,
    }
}
