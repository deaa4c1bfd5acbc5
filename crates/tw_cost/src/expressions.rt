//! The costs of expressions.
ghost use Rattle.std.specs.Prelude.{◌≡◌, ◌≤◌, ℕ};
ghost use Rattle.tw_bits.specs.Numbers.{number_bits};
ghost use Rattle.tw_syntax.specs.Terms.{atom_tree, expr_tree};
ghost use Rattle.tw_code.specs.Rows.{Copied, Flipped, load_rows, not_rows, ones, pair_rows};
ghost use Rattle.tw_resolve.specs.Setting.{reported};
ghost use Rattle.tw_frames.specs.Found.{setting_of, types_of};
ghost use Rattle.tw_frames.specs.Inventory.{expr_rows, load_of};
ghost use Rattle.tw_cost.specs.Costs.{cost_of};

use crate::costs::{Cost, cost_of};
use crate::operators::cost_of_operator;
use crate::rows::Row;
use tw_frames::{Body, bits_of_atom, bits_of_path};
use tw_gate::Level;
use tw_syntax::{Atom, AtomKind, Expr, ExprKind};

/// How many of the bits of a number are 1, in a word of this width.
fn ones(width: u32, number: u64) -> u32
    ensures exact { result ≡ ones (number_bits width number) }
    ensures few { result ≤ width }
{
    if width == 0 {
        return 0;
    }
    let rest = ones(width - 1, number / 2);
    if number % 2 == 1 { rest + 1 } else { rest }
}

/// The cost of the copy of this number of bits under this number of controls.
fn cost_of_copies(level: Level, bits: u64, under: u32) -> Cost
    ensures { (n : ℕ) → bits ≡ reported n → result ≡ cost_of level (load_rows (Copied n) under) }
{
    cost_of(level, &[Row::new(bits, 1 + u64::from(under))])
}

/// The cost of flips of this number of bits under this number of controls.
fn cost_of_flips(level: Level, ones: u32, under: u32) -> Cost
    ensures { result ≡ cost_of level (load_rows (Flipped ones) under) }
{
    cost_of(level, &[Row::new(u64::from(ones), u64::from(under))])
}

/// The cost of a load of an operand under this number of controls.
fn cost_of_load(body: &Body<'_, '_>, level: Level, atom: &Atom<'_>, under: u32) -> Cost
    ensures { result ≡ cost_of level (load_rows (load_of (setting_of body.now) (types_of body.now) (atom_tree atom.now)) under) }
{
    match &atom.kind {
        AtomKind::Place(path) => cost_of_copies(level, bits_of_path(body, path), under),
        AtomKind::Number(number) => {
            cost_of_flips(level, ones(body.program.widths().word, *number), under)
        }
        AtomKind::True => cost_of_flips(level, 1, under),
        AtomKind::False => cost_of_flips(level, 0, under),
        AtomKind::Unit => cost_of_flips(level, 0, under),
        AtomKind::Null(_) => cost_of_flips(level, 0, under),
        AtomKind::Zero(_) => cost_of_flips(level, 0, under),
    }
}

/// The cost of loads of two operands under this number of controls.
fn cost_of_pair(
    body: &Body<'_, '_>,
    level: Level,
    left: &Atom<'_>,
    right: &Atom<'_>,
    under: u32,
) -> Cost
    ensures { result ≡ cost_of level (pair_rows (load_of (setting_of body.now) (types_of body.now) (atom_tree left.now)) (load_of (setting_of body.now) (types_of body.now) (atom_tree right.now)) under) }
{
    cost_of_load(body, level, left, under).then(cost_of_load(body, level, right, under))
}

/// The cost of `not` under this number of controls.
fn cost_of_not(body: &Body<'_, '_>, level: Level, atom: &Atom<'_>, under: u32) -> Cost
    ensures { result ≡ cost_of level (not_rows (load_of (setting_of body.now) (types_of body.now) (atom_tree atom.now)) under) }
{
    let load = cost_of_load(body, level, atom, 0);
    let work = cost_of(level, &[Row::new(2, 0), Row::new(1, 1 + u64::from(under))]);
    load.then(load).then(work)
}

/// The cost of an expression under this number of controls.
pub fn cost_of_expr(body: &Body<'_, '_>, level: Level, expr: &Expr<'_>, under: u32) -> Cost
    ensures { result ≡ cost_of level (expr_rows (setting_of body.now) (types_of body.now) (expr_tree expr.now) under) }
{
    match &expr.kind {
        ExprKind::One(atom) => cost_of_load(body, level, atom, under),
        ExprKind::Two(left, right) => cost_of_pair(body, level, left, right, under),
        ExprKind::Not(atom) => cost_of_not(body, level, atom, under),
        ExprKind::Op(operator, left, right) => {
            let loads = cost_of_pair(body, level, left, right, 0);
            let bits = bits_of_atom(body, left);
            let work = cost_of_operator(level, body.program.widths(), *operator, bits, under);
            loads.then(loads).then(work)
        }
    }
}
