//! The costs of statements as they run, calls included.
ghost use Rattle.std.specs.Prelude.{◌≡◌, ◌<◌, ℕ, Bool, List, Some, option_map, slice_get};
ghost use Rattle.tw_text.specs.declared.limits.TheConstants.{DEPTH_LIMIT};
ghost use Rattle.tw_text.specs.declared.place.Pos.{Pos};
ghost use Rattle.tw_syntax.specs.Names.{NameTree, PathTree, name_tree};
ghost use Rattle.tw_syntax.specs.Programs.{FunTree};
ghost use Rattle.tw_syntax.specs.Statements.{IfStmt, LetStmt, else_tree, stmt_tree, stmts_tree};
ghost use Rattle.tw_syntax.specs.Terms.{CallRhs, bound_tree, rhs_tree};
ghost use Rattle.tw_code.specs.Rows.{Row};
ghost use Rattle.tw_state.specs.Depth.{EntryIsWithin};
ghost use Rattle.tw_frames.specs.Found.{setting_of};
ghost use Rattle.tw_frames.specs.Inventory.{InventoryOf, branch_controls, collect_rows, setup_controls};
ghost use Rattle.tw_cost.specs.Costs.{cost_of};
ghost use Rattle.tw_cost.specs.Counting.{FindsCost, FindsEntered, FindsInside, FindsBranch, activation_at};

use crate::costs::{Cost, cost_of};
use crate::expressions::cost_of_expr;
use crate::memory::{cost_of_alloc, cost_of_mem_swap, cost_of_swap};
use crate::rows::Row;
use tw_code::Options;
use tw_frames::{Body, bits_of_path, callee_bound, running_bound};
use tw_gate::Level;
use tw_syntax::{Bound, Name, No, Rhs, Stmt, StmtKind};
use tw_text::DEPTH_LIMIT;

/// How statements become a circuit.
#[derive(Clone, Copy)]
pub struct Circuit {
    pub options: Options,
    pub level: Level,
}

/// The controls of the branches of an `if` under this number of controls.
fn branch_controls(options: Options, under: u32) -> u32
    ensures { under < DEPTH_LIMIT → result ≡ branch_controls options under }
{
    if options.flatten {
        1
    } else {
        under.saturating_add(1)
    }
}

/// The controls of a setup under this number of controls.
fn setup_controls(options: Options, under: u32) -> u32
    ensures { result ≡ setup_controls options under }
{
    if options.narrow { 0 } else { under }
}

/// The cost of the gates that collect the controls of a branch, under this number of controls.
fn cost_of_collecting(circuit: Circuit, under: u32) -> Cost
    ensures { result ≡ cost_of circuit.level (collect_rows circuit.options under) }
{
    let collects = circuit.options.flatten && under >= 1;
    if collects {
        cost_of(circuit.level, &[Row::new(2, 2)])
    } else {
        Cost::nothing()
    }
}

/// The cost of statements. `left` is the depth that the statements may have, `own` the number of the bound of the function, and `under`
/// the number of controls.
#[cycle(count)]
fn count_stmts(
    body: &Body<'_, '_>,
    circuit: Circuit,
    left: u32,
    own: u8,
    under: u32,
    stmts: &[Stmt<'_>],
) -> Cost
    ensures { FindsCost (setting_of body.now) circuit (activation_at body.now own) left under (stmts_tree stmts.now) result }
{
    let mut total = Cost::nothing();
    for stmt in stmts {
        total = total.then(count_stmt(body, circuit, left, own, under, stmt));
    }
    total
}

/// The cost of a block. `left` is the depth that the block may have.
#[cycle(count)]
fn count_block(
    body: &Body<'_, '_>,
    circuit: Circuit,
    left: u32,
    own: u8,
    under: u32,
    stmts: &[Stmt<'_>],
) -> Cost
    ensures { FindsInside (setting_of body.now) circuit (activation_at body.now own) left under (stmts_tree stmts.now) result }
{
    if left == 0 {
        return Cost::nothing();
    }
    count_stmts(body, circuit, left - 1, own, under, stmts)
}

/// The cost of a branch of an `if` that is under this number of controls.
#[cycle(count)]
fn count_branch(
    body: &Body<'_, '_>,
    circuit: Circuit,
    left: u32,
    own: u8,
    under: u32,
    stmts: &[Stmt<'_>],
) -> Cost
    ensures { FindsBranch (setting_of body.now) circuit (activation_at body.now own) left under (stmts_tree stmts.now) result }
{
    let controls = branch_controls(circuit.options, under);
    let inside = count_block(body, circuit, left, own, controls, stmts);
    cost_of_collecting(circuit, under).then(inside)
}

/// The cost of an `if` with these branches.
#[cycle(count)]
fn count_if(
    body: &Body<'_, '_>,
    circuit: Circuit,
    left: u32,
    own: u8,
    under: u32,
    yes: &[Stmt<'_>],
    no: &Option<No<'_>>,
) -> Cost
    ensures { (at : Pos) (cond : PathTree) → FindsCost (setting_of body.now) circuit (activation_at body.now own) left under (IfStmt at cond (stmts_tree yes.now) (else_tree no.now)) result }
{
    let first = count_branch(body, circuit, left, own, under, yes);
    match no {
        Some(other) => {
            let second = count_branch(body, circuit, left, own, under, other.stmts);
            cost_of(circuit.level, &[Row::new(2, 1), Row::new(2, 0)]).then(first.then(second))
        }
        None => cost_of(circuit.level, &[Row::new(2, 1)]).then(first),
    }
}

/// The cost of the body of a function that is entered. `left` is the depth that the body may have.
#[cycle(count)]
fn count_fun(body: &Body<'_, '_>, circuit: Circuit, left: u32, own: u8, under: u32) -> Cost
    ensures { FindsEntered (setting_of body.now) circuit left own under body.now.fun result }
{
    let stmts = body.program.fun_at(body.fun).body;
    count_block(body, circuit, left, own, under, stmts)
}

/// The cost of the body of a callee, if it is entered.
#[cycle(count)]
fn count_callee(
    body: &Body<'_, '_>,
    circuit: Circuit,
    left: u32,
    own: u8,
    under: u32,
    callee: &Name<'_>,
    bound: &Option<Bound<'_>>,
) -> Cost
    ensures { (at : Pos) (forward : Bool) (target : NameTree) (args : List NameTree) → FindsCost (setting_of body.now) circuit (activation_at body.now own) left under (LetStmt at forward target (CallRhs (name_tree callee.now) (option_map bound_tree bound.now) args)) result }
{
    let Some(number) = callee_bound(own, bound) else {
        return Cost::nothing();
    };
    let program = body.program;
    let Some(fun) = program.fun_named(callee.text) else {
        return Cost::nothing();
    };
    count_fun(&Body { program, fun }, circuit, left, number, under)
}

/// The cost of a statement. `left` is the depth that the statement may have.
#[cycle(count)]
fn count_stmt(
    body: &Body<'_, '_>,
    circuit: Circuit,
    left: u32,
    own: u8,
    under: u32,
    stmt: &Stmt<'_>,
) -> Cost
    ensures { FindsCost (setting_of body.now) circuit (activation_at body.now own) left under (stmt_tree stmt.now) result }
{
    let level = circuit.level;
    match &stmt.kind {
        StmtKind::Let { rhs, .. } => match rhs {
            Rhs::Call { callee, bound, .. } => {
                count_callee(body, circuit, left, own, under, callee, bound)
            }
            Rhs::Expr(expr) => cost_of_expr(body, level, expr, under),
            Rhs::Alloc(_) => cost_of_alloc(level, body.program.widths(), under),
        },
        StmtKind::If { yes, no, .. } => count_if(body, circuit, left, own, under, yes, no),
        StmtKind::With { setup, work } => {
            let controls = setup_controls(circuit.options, under);
            let before = count_block(body, circuit, left, own, controls, setup);
            let inner = count_block(body, circuit, left, own, under, work);
            before.then(before).then(inner)
        }
        StmtKind::Block(inner) => count_block(body, circuit, left, own, under, inner),
        StmtKind::Swap(first, _) => cost_of_swap(level, bits_of_path(body, first), under),
        StmtKind::MemSwap(_, value) => {
            cost_of_mem_swap(
                level,
                body.program.widths(),
                bits_of_path(body, value),
                under,
            )
        }
        StmtKind::Skip => Cost::nothing(),
    }
}

/// The cost of a function as the entry, with this bound. Its depth is at most [`DEPTH_LIMIT`].
pub fn count_entry(body: &Body<'_, '_>, circuit: Circuit, bound: Option<u8>) -> Cost
    ensures { (fun : FunTree) → slice_get (setting_of body.now).funs body.now.fun ≡ Some fun → EntryIsWithin (setting_of body.now) DEPTH_LIMIT fun bound → (rows : List Row) → InventoryOf (setting_of body.now) circuit.options fun bound rows → result ≡ cost_of circuit.level rows }
{
    match running_bound(bound) {
        Some(own) => count_fun(body, circuit, DEPTH_LIMIT as u32, own, 0),
        None => Cost::nothing(),
    }
}
