//! What functions need that calls enter.
ghost use Rattle.std.specs.Prelude.{◌≡◌, Bool, List, Some, option_map, slice_get};
ghost use Rattle.tw_text.specs.declared.limits.TheConstants.{DEPTH_LIMIT};
ghost use Rattle.tw_text.specs.declared.place.Pos.{Pos};
ghost use Rattle.tw_syntax.specs.Names.{NameTree, name_tree};
ghost use Rattle.tw_syntax.specs.Programs.{FunTree};
ghost use Rattle.tw_syntax.specs.Statements.{LetStmt, else_tree, stmt_tree, stmts_tree};
ghost use Rattle.tw_syntax.specs.Terms.{CallRhs, bound_tree, rhs_tree};
ghost use Rattle.tw_resolve.specs.Resolved.{resolved_setting};
ghost use Rattle.tw_resolve.specs.Setting.{reported};
ghost use Rattle.tw_state.specs.Depth.{EntryIsWithin, IsWithin};
ghost use Rattle.tw_frames.specs.Found.{FindsEntered, FindsInside, FindsWorkspace, setting_of, types_of};
ghost use Rattle.tw_frames.specs.Scratch.{fun_scratch};
ghost use Rattle.tw_frames.specs.Workspaces.{Needs, NeedsEntry, capped_workspace, entered};

use crate::body::Body;
use crate::frames::frame_size;
use crate::pairs::{callee_bound, running_bound};
use crate::scratch::scratch_of_stmts;
use crate::workspace::Workspace;
use tw_resolve::Resolved;
use tw_syntax::{Bound, Name, No, Rhs, Stmt, StmtKind};
use tw_text::DEPTH_LIMIT;

/// What the calls in statements need. `own` is the number of the bound of the function, and `left` the depth that the statements may have.
#[cycle(enter)]
fn enter_stmts(program: &Resolved<'_>, left: u32, own: u8, stmts: &[Stmt<'_>]) -> Workspace
    ensures { FindsWorkspace (resolved_setting program.now) left own (stmts_tree stmts.now) result }
{
    let mut most = Workspace::nothing();
    for stmt in stmts {
        most = most.shared(enter_stmt(program, left, own, stmt));
    }
    most
}

/// What the calls in a block need. `left` is the depth that the block may have.
#[cycle(enter)]
fn enter_block(program: &Resolved<'_>, left: u32, own: u8, stmts: &[Stmt<'_>]) -> Workspace
    ensures { FindsInside (resolved_setting program.now) left own (stmts_tree stmts.now) result }
{
    if left == 0 {
        return Workspace::nothing();
    }
    enter_stmts(program, left - 1, own, stmts)
}

/// What the calls in an `else` need. `left` is the depth that its block may have.
#[cycle(enter)]
fn enter_else(program: &Resolved<'_>, left: u32, own: u8, no: &Option<No<'_>>) -> Workspace
    ensures { FindsInside (resolved_setting program.now) left own (else_tree no.now) result }
{
    match no {
        Some(other) => enter_block(program, left, own, other.stmts),
        None => Workspace::nothing(),
    }
}

/// What a function needs that is entered. `own` is the number of its bound, and `left` the depth that its body may have.
#[cycle(enter)]
fn enter_fun(body: &Body<'_, '_>, left: u32, own: u8) -> Workspace
    ensures { FindsEntered (setting_of body.now) left own body.now.fun result }
{
    let stmts = body.program.fun_at(body.fun).body;
    let callees = enter_block(body.program, left, own, stmts);
    Workspace {
        frames: frame_size(body).saturating_add(callees.frames),
        scratch: scratch_of_stmts(body, stmts).max(callees.scratch),
    }
}

/// What the callee of a call needs, if it is entered.
#[cycle(enter)]
fn enter_callee(
    program: &Resolved<'_>,
    left: u32,
    own: u8,
    callee: &Name<'_>,
    bound: &Option<Bound<'_>>,
) -> Workspace
    ensures { (at : Pos) (forward : Bool) (target : NameTree) (args : List NameTree) → FindsWorkspace (resolved_setting program.now) left own (LetStmt at forward target (CallRhs (name_tree callee.now) (option_map bound_tree bound.now) args)) result }
{
    let Some(number) = callee_bound(own, bound) else {
        return Workspace::nothing();
    };
    let Some(fun) = program.fun_named(callee.text) else {
        return Workspace::nothing();
    };
    enter_fun(&Body { program, fun }, left, number)
}

/// What the calls in a statement need. `left` is the depth that the statement may have.
#[cycle(enter)]
fn enter_stmt(program: &Resolved<'_>, left: u32, own: u8, stmt: &Stmt<'_>) -> Workspace
    ensures { FindsWorkspace (resolved_setting program.now) left own (stmt_tree stmt.now) result }
{
    match &stmt.kind {
        StmtKind::Let { rhs, .. } => match rhs {
            Rhs::Call { callee, bound, .. } => enter_callee(program, left, own, callee, bound),
            Rhs::Expr(_) => Workspace::nothing(),
            Rhs::Alloc(_) => Workspace::nothing(),
        },
        StmtKind::If { yes, no, .. } => {
            let first = enter_block(program, left, own, yes);
            first.shared(enter_else(program, left, own, no))
        }
        StmtKind::With { setup, work } => {
            let before = enter_block(program, left, own, setup);
            before.shared(enter_block(program, left, own, work))
        }
        StmtKind::Block(inner) => enter_block(program, left, own, inner),
        StmtKind::Swap(_, _) => Workspace::nothing(),
        StmtKind::MemSwap(_, _) => Workspace::nothing(),
        StmtKind::Skip => Workspace::nothing(),
    }
}

/// What a function needs as the entry, with this bound. Its depth is at most [`DEPTH_LIMIT`].
pub fn enter(body: &Body<'_, '_>, bound: Option<u8>) -> Workspace
    ensures { (fun : FunTree) → slice_get (setting_of body.now).funs body.now.fun ≡ Some fun → EntryIsWithin (setting_of body.now) DEPTH_LIMIT fun bound → (a : Workspace) → NeedsEntry (setting_of body.now) fun bound a → result ≡ capped_workspace a }
{
    match running_bound(bound) {
        Some(own) => enter_fun(body, DEPTH_LIMIT as u32, own),
        None => Workspace::nothing(),
    }
}
