//! How much statements and entries run.
ghost use Rattle.std.specs.Prelude.{◌≡◌, ◌<◌, ◌+◌, ◌∷◌, [], ℕ, Bool, true, nat_eq, length, slice_get, Some, option_map, IfOk, OnOk};
ghost use Rattle.indexmap.specs.IndexMap.{get};
ghost use Rattle.tw_text.specs.declared.limits.TheConstants.{DEPTH_LIMIT};
ghost use Rattle.tw_text.specs.declared.place.Pos.{Pos};
ghost use Rattle.tw_syntax.specs.Names.{NameTree, name_tree, path_tree};
ghost use Rattle.tw_syntax.specs.Programs.{FunTree, program_tree};
ghost use Rattle.tw_syntax.specs.Statements.{stmt_tree, stmts_tree, else_tree, LetStmt, IfStmt};
ghost use Rattle.tw_syntax.specs.Terms.{rhs_tree, bound_tree, CallRhs};
ghost use Rattle.tw_resolve.specs.Declarations.{funs_of, number_of};
ghost use Rattle.tw_resolve.specs.Demands.{Tries};
ghost use Rattle.tw_resolve.specs.Expressions.{fun_named};
ghost use Rattle.tw_resolve.specs.Resolved.{resolved_setting};
ghost use Rattle.tw_check.specs.EntryPoints.{IsEntry};
ghost use Rattle.tw_state.specs.Depth.{EntryWithin};
ghost use Rattle.tw_state.specs.Steps.{callee_bound};
ghost use Rattle.tw_frames.specs.declared.measured.Measured.{Measured};
ghost use Rattle.tw_frames.specs.Measures.{capped, enclosed, Measures, IsMeasured, HasOneMeasure, within_limit, limit_rules};
ghost use Rattle.tw_frames.specs.MeasureTable.{pair_number, Finds, FindsCallee, FindsPair, AreKnown, AreMarkedFrom};

use crate::marks::reached_pairs;
use crate::measured::Measured;
use crate::pairs::{called_pair, pair_number, pair_of, running_bound};
use indexmap::IndexMap;
use std::alloc::{AllocError, Global};
use tw_check::{Checked, Entry};
use tw_resolve::Resolved;
use tw_syntax::{Bound, Name, No, Rhs, Stmt, StmtKind};
use tw_text::{Counted, Fault, Pos, Refusal};

/// The measure of a pair; nothing if it is not known.
fn known_at(known: &IndexMap<usize, Measured>, pair: usize) -> Measured
    ensures { (a : Measured) → get nat_eq known.now pair ≡ Some a → result ≡ a }
{
    match known.get(&pair) {
        Some(found) => *found,
        None => Measured::nothing(),
    }
}

/// How much the body of a callee runs. `known` has the measures of the earlier pairs.
fn measure_callee(
    resolved: &Resolved<'_>,
    known: &IndexMap<usize, Measured>,
    own: u8,
    callee: &Name<'_>,
    bound: &Option<Bound<'_>>,
) -> Measured
    ensures { FindsCallee (resolved_setting resolved.now) (get nat_eq known.now) own (name_tree callee.now) (option_map bound_tree bound.now) result }
{
    let Some(pair) = called_pair(resolved, own, callee, bound) else {
        return Measured::nothing();
    };
    known_at(known, pair)
}

/// How much an assignment or an un-assignment with this right side runs.
fn measure_rhs(
    resolved: &Resolved<'_>,
    known: &IndexMap<usize, Measured>,
    own: u8,
    rhs: &Rhs<'_>,
) -> Measured
    ensures { (at : Pos) (forward : Bool) (target : NameTree) → Finds (resolved_setting resolved.now) (get nat_eq known.now) own (LetStmt at forward target (rhs_tree rhs.now)) result }
{
    match rhs {
        Rhs::Call { callee, bound, .. } => {
            measure_callee(resolved, known, own, callee, bound).one_more()
        }
        Rhs::Expr(_) => Measured::nothing().one_more(),
        Rhs::Alloc(_) => Measured::nothing().one_more(),
    }
}

/// How much statements run.
#[cycle(measure)]
#[tactic(auto, using(crate::proofs::Finding::left_first))]
fn measure_stmts(
    resolved: &Resolved<'_>,
    known: &IndexMap<usize, Measured>,
    own: u8,
    stmts: &[Stmt<'_>],
) -> Measured
    ensures { Finds (resolved_setting resolved.now) (get nat_eq known.now) own (stmts_tree stmts.now) result }
{
    let mut total = Measured::nothing();
    for stmt in stmts {
        total = total.then(measure_stmt(resolved, known, own, stmt));
    }
    total
}

/// How much an `else` runs.
#[cycle(measure)]
fn measure_else(
    resolved: &Resolved<'_>,
    known: &IndexMap<usize, Measured>,
    own: u8,
    no: &Option<No<'_>>,
) -> Measured
    ensures { Finds (resolved_setting resolved.now) (get nat_eq known.now) own (else_tree no.now) result }
{
    match no {
        Some(other) => measure_stmts(resolved, known, own, other.stmts),
        None => Measured::nothing(),
    }
}

/// How much a statement runs.
#[cycle(measure)]
fn measure_stmt(
    resolved: &Resolved<'_>,
    known: &IndexMap<usize, Measured>,
    own: u8,
    stmt: &Stmt<'_>,
) -> Measured
    ensures { Finds (resolved_setting resolved.now) (get nat_eq known.now) own (stmt_tree stmt.now) result }
{
    match &stmt.kind {
        StmtKind::Let { rhs, .. } => measure_rhs(resolved, known, own, rhs),
        StmtKind::If { yes, no, .. } => {
            let first = measure_stmts(resolved, known, own, yes);
            let other = measure_else(resolved, known, own, no);
            first.then(other).enclosed().under_if().one_more()
        }
        StmtKind::With { setup, work } => {
            let before = measure_stmts(resolved, known, own, setup);
            let inner = measure_stmts(resolved, known, own, work);
            before.then(inner).then(before).enclosed().one_more()
        }
        StmtKind::Block(body) => {
            measure_stmts(resolved, known, own, body)
                .enclosed()
                .one_more()
        }
        StmtKind::Swap(_, _) => Measured::nothing().one_more(),
        StmtKind::MemSwap(_, _) => Measured::nothing().one_more(),
        StmtKind::Skip => Measured::nothing().one_more(),
    }
}

/// How much the function of a pair runs. `known` has the measures of the earlier pairs.
fn measure_pair(resolved: &Resolved<'_>, known: &IndexMap<usize, Measured>, pair: usize) -> Measured
    ensures { FindsPair (resolved_setting resolved.now) (get nat_eq known.now) pair result }
{
    let (fun, own) = pair_of(pair);
    if fun < resolved.fun_count() {
        measure_stmts(resolved, known, own, resolved.fun_at(fun).body).enclosed()
    } else {
        Measured::nothing()
    }
}

/// Finds how much the function of a pair runs, if the pair is marked. There are more pairs. An error: out of memory.
fn measure_marked(
    checked: &Checked<'_>,
    known: &mut IndexMap<usize, Measured>,
    marks: &[bool],
    pair: usize,
) -> Result<(), AllocError>
    requires { pair < length marks.now }
    ensures { AreMarkedFrom (resolved_setting checked.now.resolved) 0 marks.now → AreKnown (resolved_setting checked.now.resolved) marks.now pair (get nat_eq known.old) → OnOk result (AreKnown (resolved_setting checked.now.resolved) marks.now (pair + 1) (get nat_eq known.new)) }
{
    if marks[pair] {
        let found = measure_pair(&checked.resolved, known, pair);
        known.insert(pair, found)?;
    }
    Ok(())
}

/// How much the function of each marked pair runs. An error: out of memory.
fn measure_pairs(
    alloc: Global,
    checked: &Checked<'_>,
    marks: &[bool],
) -> Result<IndexMap<usize, Measured>, AllocError>
    ensures { AreMarkedFrom (resolved_setting checked.now.resolved) 0 marks.now → IfOk result (λ known. AreKnown (resolved_setting checked.now.resolved) marks.now (length marks.now) (get nat_eq known)) }
{
    let mut known = IndexMap::new(alloc);
    for pair in 0..marks.len() {
        measure_marked(checked, &mut known, marks, pair)?;
    }
    Ok(known)
}

/// How much an entry runs, as counts that stop at the greatest `u64`. A fault: out of memory.
fn measure_entry(alloc: Global, checked: &Checked<'_>, entry: Entry) -> Result<Measured, AllocError>
    ensures { IfOk result (λ found. (a : Measured) → IsMeasured (resolved_setting checked.now.resolved) entry a → found ≡ capped a) }
{
    let Some(own) = running_bound(entry.bound) else {
        return Ok(Measured::nothing());
    };
    let Some(last) = pair_number(entry.fun, own) else {
        return Err(AllocError);
    };
    let marks = reached_pairs(alloc, &checked.resolved, last)?;
    let known = measure_pairs(alloc, checked, &marks)?;
    Ok(known_at(&known, last))
}

/// Refuses a count that is above its limit.
pub fn need_within(counted: Counted, found: u64) -> Result<(), Fault>
    ensures { Tries (within_limit counted found ∷ []) result }
{
    if found > counted.limit() {
        let at = Pos { line: 1, col: 1 };
        return Err(Fault::Refused(Refusal::passed(counted, found, at)));
    }
    Ok(())
}

/// Refuses counts that are above their limits: first the statements, and then the depth.
fn need_limits(found: Measured) -> Result<(), Fault>
    ensures { Tries (limit_rules found) result }
{
    need_within(Counted::Statements, found.statements)?;
    need_within(Counted::Depth, found.depth)
}

/// How much an entry runs. Refused by the limit on statements, and then by that on depth, with the exact count, or the greatest
/// `u64` if the count is greater. A fault: refused, or out of memory.
pub fn measure(alloc: Global, checked: &Checked<'_>, entry: Entry) -> Result<Measured, Fault>
    requires { IsEntry (funs_of (program_tree checked.now.resolved.program.now).decls) entry }
    ensures measured { IfOk result (IsMeasured (resolved_setting checked.now.resolved) entry) }
    ensures tried { (a : Measured) → IsMeasured (resolved_setting checked.now.resolved) entry a → Tries (limit_rules a) result }
    ensures within { OnOk result (EntryWithin (resolved_setting checked.now.resolved) DEPTH_LIMIT entry.fun entry.bound) }
    ensures one { HasOneMeasure (resolved_setting checked.now.resolved) entry }
{
    let found = measure_entry(alloc, checked, entry)?;
    need_limits(found)?;
    Ok(found)
}
