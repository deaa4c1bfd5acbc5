//! Operators on values.
ghost use Rattle.std.specs.Prelude.{◌≡◌, ◌≤◌, ◌^◌, option_map};
ghost use Rattle.tw_bits.specs.Operators.{difference_mod, product_mod, sum_mod};
ghost use Rattle.tw_types.specs.FromCode.{value_of};
ghost use Rattle.tw_state.specs.Evaluation.{negation, op_value, same_value};

use tw_syntax::OpKind;
use tw_types::{Val, Widths, same};

/// The number of words: 2 to the width of a word.
fn word_count(widths: Widths) -> u128
    ensures count { result ≡ 2 ^ widths.word }
    ensures within { result ≤ 4294967296 }
{
    1 << widths.word
}

/// The sum, modulo the number of words.
fn sum(widths: Widths, m: u64, n: u64) -> u64
    ensures { result ≡ sum_mod widths.word m n }
{
    ((u128::from(m) + u128::from(n)) % word_count(widths)) as u64
}

/// The difference, modulo the number of words.
fn difference(widths: Widths, m: u64, n: u64) -> u64
    ensures { result ≡ difference_mod widths.word m n }
{
    let count = word_count(widths);
    ((count + u128::from(m)).saturating_sub(u128::from(n)) % count) as u64
}

/// The product, modulo the number of words.
fn product(widths: Widths, m: u64, n: u64) -> u64
    ensures { result ≡ product_mod widths.word m n }
{
    ((u128::from(m) * u128::from(n)) % word_count(widths)) as u64
}

/// `not` of a truth value. `None` if the value is none.
pub fn negated(val: &Val) -> Option<Val>
    ensures { option_map value_of result ≡ negation (value_of val.now) }
{
    match val {
        Val::B(is) => Some(Val::B(!*is)),
        _ => None,
    }
}

/// Whether two values are equal, as a value.
fn equal(x: &Val, y: &Val) -> bool
    ensures { result ≡ same_value (value_of x.now) (value_of y.now) }
{
    same(x, y)
}

/// The result of an operator on two values. Numbers are modulo 2 to the width of a word. `None` if it does not take these values.
pub fn applied(widths: Widths, operator: OpKind, x: &Val, y: &Val) -> Option<Val>
    ensures { option_map value_of result ≡ op_value widths operator (value_of x.now) (value_of y.now) }
{
    match operator {
        OpKind::Add => match (x, y) {
            (Val::U(m), Val::U(n)) => Some(Val::U(sum(widths, *m, *n))),
            _ => None,
        },
        OpKind::Sub => match (x, y) {
            (Val::U(m), Val::U(n)) => Some(Val::U(difference(widths, *m, *n))),
            _ => None,
        },
        OpKind::Mul => match (x, y) {
            (Val::U(m), Val::U(n)) => Some(Val::U(product(widths, *m, *n))),
            _ => None,
        },
        OpKind::Lt => match (x, y) {
            (Val::U(m), Val::U(n)) => Some(Val::B(m < n)),
            _ => None,
        },
        OpKind::Eq => Some(Val::B(equal(x, y))),
        OpKind::Ne => Some(Val::B(!equal(x, y))),
        OpKind::And => match (x, y) {
            (Val::B(p), Val::B(q)) => Some(Val::B(*p && *q)),
            _ => None,
        },
        OpKind::Or => match (x, y) {
            (Val::B(p), Val::B(q)) => Some(Val::B(*p || *q)),
            _ => None,
        },
    }
}
