//! The wires of the frame of a function, as counts that stop at the greatest `u64`.
ghost use Rattle.std.specs.Prelude.{◌≡◌, Some, slice_get};
ghost use Rattle.tw_syntax.specs.Programs.{FunTree};
ghost use Rattle.tw_syntax.specs.Statements.{else_tree, stmt_tree, stmts_tree};
ghost use Rattle.tw_resolve.specs.Setting.{reported};
ghost use Rattle.tw_frames.specs.Found.{setting_of};
ghost use Rattle.tw_frames.specs.Frames.{frame_size, if_count, locals_size};

use crate::body::Body;
use crate::sizes::bits_of;
use tw_syntax::{No, Stmt, StmtKind};

/// The number of `if`s in statements.
#[cycle(count)]
fn count_ifs(stmts: &[Stmt<'_>]) -> u64
    ensures { result ≡ reported (if_count (stmts_tree stmts.now)) }
{
    let mut total: u64 = 0;
    for stmt in stmts {
        total = total.saturating_add(count_ifs_of(stmt));
    }
    total
}

/// The number of `if`s in an `else`.
#[cycle(count)]
fn count_ifs_of_else(no: &Option<No<'_>>) -> u64
    ensures { result ≡ reported (if_count (else_tree no.now)) }
{
    match no {
        Some(other) => count_ifs(other.stmts),
        None => 0,
    }
}

/// The number of `if`s in a statement.
#[cycle(count)]
fn count_ifs_of(stmt: &Stmt<'_>) -> u64
    ensures { result ≡ reported (if_count (stmt_tree stmt.now)) }
{
    match &stmt.kind {
        StmtKind::If { yes, no, .. } => {
            let first = count_ifs(yes);
            first
                .saturating_add(count_ifs_of_else(no))
                .saturating_add(1)
        }
        StmtKind::With { setup, work } => {
            let before = count_ifs(setup);
            before.saturating_add(count_ifs(work))
        }
        StmtKind::Block(inner) => count_ifs(inner),
        StmtKind::Let { .. } => 0,
        StmtKind::Swap(_, _) => 0,
        StmtKind::MemSwap(_, _) => 0,
        StmtKind::Skip => 0,
    }
}

/// The number of bits of the local variables of a function.
fn bits_of_locals(body: &Body<'_, '_>) -> u64
    ensures { (fun : FunTree) → slice_get (setting_of body.now).funs body.now.fun ≡ Some fun → result ≡ reported (locals_size (setting_of body.now) fun) }
{
    let widths = body.program.widths();
    let mut total: u64 = 0;
    for place in 0..body.program.local_count(body.fun) {
        let (_, ty) = body.program.local(body.fun, place);
        total = total.saturating_add(bits_of(&ty, widths));
    }
    total
}

/// The number of wires of the frame of a function.
pub fn frame_size(body: &Body<'_, '_>) -> u64
    ensures { (fun : FunTree) → slice_get (setting_of body.now).funs body.now.fun ≡ Some fun → result ≡ reported (frame_size (setting_of body.now) fun) }
{
    let ifs = count_ifs(body.program.fun_at(body.fun).body);
    bits_of_locals(body).saturating_add(ifs)
}
