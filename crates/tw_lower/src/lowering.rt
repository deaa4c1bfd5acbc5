//! The code of statements and entries.
ghost use Rattle.std.specs.Prelude.{◌≡◌, ℕ, ◌+◌, Bool, List, Some, slice_get, IfOk, OnOk};
ghost use Rattle.tw_text.specs.declared.place.Pos.{Pos};
ghost use Rattle.tw_code.specs.Counts.{counts, neither};
ghost use Rattle.tw_code.specs.Rows.{Row, gates_in};
ghost use Rattle.tw_code.specs.Trees.{code_tree};
ghost use Rattle.tw_code.specs.Wires.{IsProperCode, UsesWiresBelow};
ghost use Rattle.tw_syntax.specs.Names.{name_tree, path_tree};
ghost use Rattle.tw_syntax.specs.Programs.{FunTree, program_tree};
ghost use Rattle.tw_syntax.specs.Statements.{IfStmt, LetStmt, else_tree, stmt_tree, stmts_tree};
ghost use Rattle.tw_syntax.specs.Terms.{rhs_tree};
ghost use Rattle.tw_resolve.specs.Declarations.{funs_of};
ghost use Rattle.tw_resolve.specs.Resolved.{resolved_setting};
ghost use Rattle.tw_check.specs.EntryPoints.{IsEntry};
ghost use Rattle.tw_arith.specs.Operands.{EndsWithin};
ghost use Rattle.tw_frames.specs.Found.{setting_of};
ghost use Rattle.tw_frames.specs.Frames.{if_count};
ghost use Rattle.tw_frames.specs.Inventory.{InventoryOf};
ghost use Rattle.tw_lower.specs.FrameWires.{plain_frame};
ghost use Rattle.tw_lower.specs.Lowering.{CanLower, CanLowerRhs, IsBuilt, IsLayout, Lowers, LowersEntry};
ghost use Rattle.tw_lower.specs.Simulation.{Simulates};

use crate::branch::{if_code, if_else_code};
use crate::expression::lower_expr;
use crate::frame::FrameWires;
use crate::placing::entry_wires;
use bumpalo::collections::into_bump_slice;
use std::alloc::{AllocError, Global};
use tw_check::{Checked, Entry};
use tw_code::{Code, sequence, with_setup};
use tw_frames::{WireLayout, running_bound};
use tw_syntax::{Name, No, Path, Rhs, Stmt, StmtKind};
use tw_text::Arena;

/// The code of an assignment or an un-assignment.
fn lower_let<'a>(
    arena: &'a Arena,
    frame: &FrameWires<'_, '_>,
    target: &Name<'_>,
    rhs: &Rhs<'_>,
) -> Result<Code<'a>, AllocError>
    requires { CanLowerRhs (setting_of frame.now.body) frame.now.layout (plain_frame frame.now) ((plain_frame frame.now).wire target.now.text.now) (rhs_tree rhs.now) }
    ensures { IfOk result (λ code. (at : Pos) (forward : Bool) (number : ℕ) → Lowers (setting_of frame.now.body) frame.now.layout (plain_frame frame.now) frame.now.own number (LetStmt at forward (name_tree target.now) (rhs_tree rhs.now)) (code_tree code)) }
{
    match rhs {
        Rhs::Expr(expr) => Ok(*lower_expr(arena, frame, frame.wire(target.text), expr)?),
        Rhs::Call { .. } => unreachable!(),
        Rhs::Alloc(_) => unreachable!(),
    }
}

/// The code of statements, in order. `number` is the number of the next `if`.
#[cycle(lower)]
fn lower_stmts<'a>(
    arena: &'a Arena,
    frame: &FrameWires<'_, '_>,
    number: &mut u32,
    stmts: &[Stmt<'_>],
) -> Result<Code<'a>, AllocError>
    requires can { CanLower (setting_of frame.now.body) frame.now.layout (plain_frame frame.now) (stmts_tree stmts.now) }
    requires ifs { EndsWithin (frame.now.ifs + number.old) (if_count (stmts_tree stmts.now)) }
    ensures next { OnOk result (number.new ≡ number.old + if_count (stmts_tree stmts.now)) }
    ensures lowered { IfOk result (λ code. Lowers (setting_of frame.now.body) frame.now.layout (plain_frame frame.now) frame.now.own number.old (stmts_tree stmts.now) (code_tree code)) }
{
    let mut parts = Vec::new(arena);
    for stmt in stmts {
        parts.push(lower_stmt(arena, frame, number, stmt)?)?;
    }
    Ok(sequence(into_bump_slice(parts)))
}

/// The code of an `if`.
#[cycle(lower)]
fn lower_if<'a>(
    arena: &'a Arena,
    frame: &FrameWires<'_, '_>,
    number: &mut u32,
    cond: &Path<'_>,
    yes: &[Stmt<'_>],
    no: &Option<No<'_>>,
) -> Result<Code<'a>, AllocError>
    requires first { CanLower (setting_of frame.now.body) frame.now.layout (plain_frame frame.now) (stmts_tree yes.now) }
    requires other { CanLower (setting_of frame.now.body) frame.now.layout (plain_frame frame.now) (else_tree no.now) }
    requires ifs { EndsWithin (frame.now.ifs + number.old) (1 + (if_count (stmts_tree yes.now) + if_count (else_tree no.now))) }
    ensures next { OnOk result (number.new ≡ number.old + (1 + (if_count (stmts_tree yes.now) + if_count (else_tree no.now)))) }
    ensures lowered { IfOk result (λ code. (at : Pos) → Lowers (setting_of frame.now.body) frame.now.layout (plain_frame frame.now) frame.now.own number.old (IfStmt at (path_tree cond.now) (stmts_tree yes.now) (else_tree no.now)) (code_tree code)) }
{
    let own = frame.ifs + *number;
    *number += 1;
    let cond = frame.path_wire(cond);
    let taken = lower_stmts(arena, frame, number, yes)?;
    match no {
        None => if_code(arena, cond, own, taken),
        Some(other) => {
            let skipped = lower_stmts(arena, frame, number, other.stmts)?;
            if_else_code(arena, cond, own, taken, skipped)
        }
    }
}

/// The code of a statement.
#[cycle(lower)]
fn lower_stmt<'a>(
    arena: &'a Arena,
    frame: &FrameWires<'_, '_>,
    number: &mut u32,
    stmt: &Stmt<'_>,
) -> Result<Code<'a>, AllocError>
    requires can { CanLower (setting_of frame.now.body) frame.now.layout (plain_frame frame.now) (stmt_tree stmt.now) }
    requires ifs { EndsWithin (frame.now.ifs + number.old) (if_count (stmt_tree stmt.now)) }
    ensures next { OnOk result (number.new ≡ number.old + if_count (stmt_tree stmt.now)) }
    ensures lowered { IfOk result (λ code. Lowers (setting_of frame.now.body) frame.now.layout (plain_frame frame.now) frame.now.own number.old (stmt_tree stmt.now) (code_tree code)) }
{
    match &stmt.kind {
        StmtKind::Let { target, rhs, .. } => lower_let(arena, frame, target, rhs),
        StmtKind::If { cond, yes, no } => lower_if(arena, frame, number, cond, yes, no),
        StmtKind::With { setup, work } => {
            let setup = lower_stmts(arena, frame, number, setup)?;
            let work = lower_stmts(arena, frame, number, work)?;
            with_setup(arena, setup, work)
        }
        StmtKind::Block(body) => lower_stmts(arena, frame, number, body),
        StmtKind::Skip => Ok(sequence(&[])),
        StmtKind::Swap(_, _) => unreachable!(),
        StmtKind::MemSwap(_, _) => unreachable!(),
    }
}

/// The code of an entry as `lower` gives it. Without a body to run it has no gates. An error: out of memory.
fn entry_code<'a>(
    alloc: Global,
    arena: &'a Arena,
    checked: &Checked<'_>,
    entry: Entry,
    layout: &WireLayout,
) -> Result<&'a Code<'a>, AllocError>
    requires entry { IsEntry (funs_of (program_tree checked.now.resolved.program.now).decls) entry }
    requires layout { IsLayout (resolved_setting checked.now.resolved) entry layout.now }
    requires built { (fun : FunTree) → slice_get (resolved_setting checked.now.resolved).funs entry.fun ≡ Some fun → IsBuilt fun.body }
    ensures { IfOk result (λ code. (fun : FunTree) → slice_get (resolved_setting checked.now.resolved).funs entry.fun ≡ Some fun → LowersEntry (resolved_setting checked.now.resolved) layout.now fun entry.bound (code_tree code.now)) }
{
    let Some(own) = running_bound(entry.bound) else {
        return Ok(arena.try_alloc(sequence(&[]))?);
    };
    let frame = entry_wires(alloc, checked, entry, own, layout)?;
    let stmts = checked.resolved.fun_at(entry.fun).body;
    let mut number = 0;
    let code = lower_stmts(arena, &frame, &mut number, stmts)?;
    Ok(arena.try_alloc(code)?)
}

/// The code of an entry on the wires of its layout. It takes the encoding of each state on which the entry has a result to the encoding
/// of that result, all other wires zero, and backward it takes it back. Each of its conditions lies outside of what it controls, its wires
/// are below the flags, and without rewriting it has the gates of the inventory. An error: out of memory.
pub fn lower<'a>(
    alloc: Global,
    arena: &'a Arena,
    checked: &Checked<'_>,
    entry: Entry,
    layout: &WireLayout,
) -> Result<&'a Code<'a>, AllocError>
    requires entry { IsEntry (funs_of (program_tree checked.now.resolved.program.now).decls) entry }
    requires layout { IsLayout (resolved_setting checked.now.resolved) entry layout.now }
    requires built { (fun : FunTree) → slice_get (resolved_setting checked.now.resolved).funs entry.fun ≡ Some fun → IsBuilt fun.body }
    ensures lowered { IfOk result (λ code. (fun : FunTree) → slice_get (resolved_setting checked.now.resolved).funs entry.fun ≡ Some fun → LowersEntry (resolved_setting checked.now.resolved) layout.now fun entry.bound (code_tree code.now)) }
    ensures simulates { IfOk result (λ code. (fun : FunTree) → slice_get (resolved_setting checked.now.resolved).funs entry.fun ≡ Some fun → Simulates (resolved_setting checked.now.resolved) fun entry.bound layout.now.wires (code_tree code.now)) }
    ensures proper { IfOk result (λ code. IsProperCode (code_tree code.now)) }
    ensures below { IfOk result (λ code. UsesWiresBelow layout.now.flags (code_tree code.now)) }
    ensures counts { IfOk result (λ code. (fun : FunTree) (rows : List Row) → slice_get (resolved_setting checked.now.resolved).funs entry.fun ≡ Some fun → InventoryOf (resolved_setting checked.now.resolved) neither fun entry.bound rows
        → (wanted : ℕ) → counts neither (code_tree code.now) 0 wanted ≡ gates_in rows wanted) }
{
    entry_code(alloc, arena, checked, entry, layout)
}
