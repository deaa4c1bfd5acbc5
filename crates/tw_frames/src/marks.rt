//! Which pairs of a function and the number of its bound are reached by calls.
ghost use Rattle.std.specs.Prelude.{◌≡◌, ◌≤◌, ◌<◌, ◌+◌, ℕ, true, length, slice_get, Some, option_map, IfOk};
ghost use Rattle.tw_text.specs.declared.place.Pos.{Pos};
ghost use Rattle.tw_syntax.specs.Names.{name_tree, path_tree};
ghost use Rattle.tw_syntax.specs.Programs.{FunTree};
ghost use Rattle.tw_syntax.specs.Statements.{stmt_tree, stmts_tree, else_tree};
ghost use Rattle.tw_syntax.specs.Terms.{rhs_tree, bound_tree};
ghost use Rattle.tw_resolve.specs.Declarations.{number_of};
ghost use Rattle.tw_resolve.specs.Resolved.{resolved_setting};
ghost use Rattle.tw_state.specs.Steps.{callee_bound};
ghost use Rattle.tw_frames.specs.MeasureTable.{pair_number, RhsMarked, StmtMarked, MarksMore, MarksCalls, AreMarkedFrom};

use crate::pairs::{called_pair, pair_of};
use std::alloc::{AllocError, Global};
use tw_resolve::Resolved;
use tw_syntax::{No, Rhs, Stmt, StmtKind};

/// Marks a pair, if it is before the given one.
fn mark_earlier(marks: &mut [bool], pair: usize, earlier: usize)
    ensures more { MarksMore pair marks.old marks.new }
    ensures marked { pair ≤ length marks.old → earlier < pair → slice_get marks.new earlier ≡ Some true }
{
    if earlier < pair && earlier < marks.len() {
        marks[earlier] = true;
    }
}

/// Marks the pair that a right side runs.
fn mark_rhs(resolved: &Resolved<'_>, marks: &mut [bool], pair: usize, own: u8, rhs: &Rhs<'_>)
    ensures more { MarksMore pair marks.old marks.new }
    ensures marked { pair ≤ length marks.old → RhsMarked (resolved_setting resolved.now) pair marks.new own (rhs_tree rhs.now) }
{
    match rhs {
        Rhs::Call { callee, bound, .. } => {
            if let Some(earlier) = called_pair(resolved, own, callee, bound) {
                mark_earlier(marks, pair, earlier);
            }
        }
        Rhs::Expr(_) => {}
        Rhs::Alloc(_) => {}
    }
}

/// Marks the pairs that statements run.
#[cycle(mark)]
#[tactic(auto, using(crate::proofs::Marking::marks_none, crate::proofs::Marking::marks_then))]
fn mark_stmts(resolved: &Resolved<'_>, marks: &mut [bool], pair: usize, own: u8, stmts: &[Stmt<'_>])
    ensures { MarksCalls (resolved_setting resolved.now) pair own (stmts_tree stmts.now) marks.old marks.new }
{
    for stmt in stmts {
        mark_stmt(resolved, marks, pair, own, stmt);
    }
}

/// Marks the pairs that an `else` runs.
#[cycle(mark)]
fn mark_else(resolved: &Resolved<'_>, marks: &mut [bool], pair: usize, own: u8, no: &Option<No<'_>>)
    ensures { MarksCalls (resolved_setting resolved.now) pair own (else_tree no.now) marks.old marks.new }
{
    match no {
        Some(other) => mark_stmts(resolved, marks, pair, own, other.stmts),
        None => {}
    }
}

/// Marks the pairs that a statement runs.
#[cycle(mark)]
fn mark_stmt(resolved: &Resolved<'_>, marks: &mut [bool], pair: usize, own: u8, stmt: &Stmt<'_>)
    ensures { MarksCalls (resolved_setting resolved.now) pair own (stmt_tree stmt.now) marks.old marks.new }
{
    match &stmt.kind {
        StmtKind::Let { rhs, .. } => mark_rhs(resolved, marks, pair, own, rhs),
        StmtKind::If { yes, no, .. } => {
            mark_stmts(resolved, marks, pair, own, yes);
            mark_else(resolved, marks, pair, own, no);
        }
        StmtKind::With { setup, work } => {
            mark_stmts(resolved, marks, pair, own, setup);
            mark_stmts(resolved, marks, pair, own, work);
        }
        StmtKind::Block(body) => mark_stmts(resolved, marks, pair, own, body),
        StmtKind::Swap(_, _) => {}
        StmtKind::MemSwap(_, _) => {}
        StmtKind::Skip => {}
    }
}

/// Marks the earlier pairs that a pair calls.
fn mark_pair(resolved: &Resolved<'_>, marks: &mut [bool], pair: usize)
    ensures more { MarksMore pair marks.old marks.new }
    ensures marked { (k own : ℕ) (fun : FunTree) → own < 256 → pair ≡ pair_number k own → slice_get (resolved_setting resolved.now).funs k ≡ Some fun → pair ≤ length marks.old → StmtMarked (resolved_setting resolved.now) pair marks.new own fun.body }
{
    let (fun, own) = pair_of(pair);
    if fun < resolved.fun_count() {
        mark_stmts(resolved, marks, pair, own, resolved.fun_at(fun).body);
    }
}

/// Marks the earlier pairs that a pair calls, if it is marked. There are more pairs.
fn mark_from(resolved: &Resolved<'_>, marks: &mut [bool], pair: usize)
    requires { pair < length marks.old }
    ensures more { MarksMore pair marks.old marks.new }
    ensures marked { AreMarkedFrom (resolved_setting resolved.now) (pair + 1) marks.old → AreMarkedFrom (resolved_setting resolved.now) pair marks.new }
{
    if marks[pair] {
        mark_pair(resolved, marks, pair);
    }
}

/// Marks all pairs that marked ones reach, by calls of calls.
fn mark_reached(resolved: &Resolved<'_>, marks: &mut [bool])
    ensures more { MarksMore (length marks.old) marks.old marks.new }
    ensures reached { AreMarkedFrom (resolved_setting resolved.now) 0 marks.new }
{
    let mut pair = marks.len();
    while pair > 0 {
        pair -= 1;
        mark_from(resolved, marks, pair);
    }
}

/// Whether each pair up to `last` is reached from it, by calls of calls. An error: out of memory.
pub fn reached_pairs(
    alloc: Global,
    resolved: &Resolved<'_>,
    last: usize,
) -> Result<Vec<bool>, AllocError>
    ensures len { IfOk result (λ marks. length marks.items ≡ last + 1) }
    ensures last { IfOk result (λ marks. slice_get marks.items last ≡ Some true) }
    ensures reached { IfOk result (λ marks. AreMarkedFrom (resolved_setting resolved.now) 0 marks.items) }
{
    let mut marks = Vec::new(alloc);
    marks.resize(last, false)?;
    marks.push(true)?;
    mark_reached(resolved, &mut marks);
    Ok(marks)
}
