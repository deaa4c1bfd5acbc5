//! The costs of operators, without the loads of their operands.
ghost use Rattle.std.specs.Prelude.{◌≡◌, ℕ};
ghost use Rattle.tw_code.specs.Rows.{add_rows, and_rows, carry_gates, eq_rows, lt_rows, mul_rows, ne_rows, or_rows, product_gates, sub_rows};
ghost use Rattle.tw_resolve.specs.Setting.{reported};
ghost use Rattle.tw_frames.specs.Inventory.{op_rows};
ghost use Rattle.tw_cost.specs.Costs.{AddsToLoads};

use crate::costs::{Cost, cost_of};
use crate::rows::Row;
use tw_gate::Level;
use tw_syntax::OpKind;
use tw_types::Widths;

/// The Toffoli gates of the carries of a sum of words of this number of bits.
fn carry_gates(bits: u32) -> u64
    ensures { result ≡ carry_gates bits }
{
    (3 * u64::from(bits)).saturating_sub(5)
}

/// The Toffoli gates of a product of words of this number of bits, without those for the first bit of the right operand.
fn product_gates(bits: u32) -> u64
    ensures { result ≡ reported (product_gates bits) }
{
    if bits == 0 {
        return 0;
    }
    let last = bits - 1;
    let rest = product_gates(last);
    (u64::from(last) + carry_gates(last)).saturating_add(rest)
}

/// The cost of `&&` under this number of controls.
fn cost_of_and(level: Level, under: u32) -> Cost
    ensures { AddsToLoads level (λ x y. and_rows x y under) result }
{
    cost_of(level, &[Row::new(1, 2 + u64::from(under))])
}

/// The cost of `||` under this number of controls.
fn cost_of_or(level: Level, under: u32) -> Cost
    ensures { AddsToLoads level (λ x y. or_rows x y under) result }
{
    let under = u64::from(under);
    cost_of(
        level,
        &[Row::new(4, 0), Row::new(1, 2 + under), Row::new(1, under)],
    )
}

/// The cost of `==` on operands of this number of bits, under this number of controls.
fn cost_of_eq(level: Level, bits: u64, under: u32) -> Cost
    ensures { (n : ℕ) → bits ≡ reported n → AddsToLoads level (λ x y. eq_rows n x y under) result }
{
    let twice = bits.saturating_mul(2);
    let all = bits.saturating_add(u64::from(under));
    cost_of(
        level,
        &[Row::new(twice, 1), Row::new(twice, 0), Row::new(1, all)],
    )
}

/// The cost of `!=` on operands of this number of bits, under this number of controls.
fn cost_of_ne(level: Level, bits: u64, under: u32) -> Cost
    ensures { (n : ℕ) → bits ≡ reported n → AddsToLoads level (λ x y. ne_rows n x y under) result }
{
    cost_of_eq(level, bits, under).then(cost_of(level, &[Row::new(1, u64::from(under))]))
}

/// The cost of a sum of words under this number of controls.
fn cost_of_sum(level: Level, widths: Widths, under: u32) -> Cost
    ensures { AddsToLoads level (λ x y. add_rows widths.word x y under) result }
{
    let word = u64::from(widths.word);
    let carries = 2 * carry_gates(widths.word);
    let sums = 2 * (2 * word - 1);
    cost_of(
        level,
        &[
            Row::new(carries, 2),
            Row::new(sums, 1),
            Row::new(word, 1 + u64::from(under)),
        ],
    )
}

/// The cost of a difference of words under this number of controls.
fn cost_of_difference(level: Level, widths: Widths, under: u32) -> Cost
    ensures { AddsToLoads level (λ x y. sub_rows widths.word x y under) result }
{
    let word = u64::from(widths.word);
    let flips = 2 * (word + 1);
    let carries = 6 * (word - 1);
    cost_of(
        level,
        &[
            Row::new(flips, 0),
            Row::new(carries, 2),
            Row::new(4 * word, 1),
            Row::new(word, 1 + u64::from(under)),
        ],
    )
}

/// The cost of the comparison `<` of words under this number of controls.
fn cost_of_less(level: Level, widths: Widths, under: u32) -> Cost
    ensures { AddsToLoads level (λ x y. lt_rows widths.word x y under) result }
{
    let word = u64::from(widths.word);
    let flips = 2 * (word + 2);
    cost_of(
        level,
        &[
            Row::new(flips, 0),
            Row::new(6 * word, 2),
            Row::new(1, 1 + u64::from(under)),
        ],
    )
}

/// The cost of a product of words under this number of controls.
fn cost_of_product(level: Level, widths: Widths, under: u32) -> Cost
    ensures { AddsToLoads level (λ x y. mul_rows widths.word x y under) result }
{
    let word = u64::from(widths.word);
    let products = word.saturating_add(product_gates(widths.word));
    let sums = 2 * ((word - 1) * (word - 1));
    cost_of(
        level,
        &[
            Row::new(products.saturating_mul(2), 2),
            Row::new(sums, 1),
            Row::new(word, 1 + u64::from(under)),
        ],
    )
}

/// The cost of an operator on operands of this number of bits, without the loads of its operands, under this number of controls.
pub fn cost_of_operator(
    level: Level,
    widths: Widths,
    operator: OpKind,
    bits: u64,
    under: u32,
) -> Cost
    ensures { (n : ℕ) → bits ≡ reported n → AddsToLoads level (λ x y. op_rows widths.word n operator x y under) result }
{
    match operator {
        OpKind::And => cost_of_and(level, under),
        OpKind::Or => cost_of_or(level, under),
        OpKind::Eq => cost_of_eq(level, bits, under),
        OpKind::Ne => cost_of_ne(level, bits, under),
        OpKind::Add => cost_of_sum(level, widths, under),
        OpKind::Sub => cost_of_difference(level, widths, under),
        OpKind::Lt => cost_of_less(level, widths, under),
        OpKind::Mul => cost_of_product(level, widths, under),
    }
}
