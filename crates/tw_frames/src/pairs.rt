//! The pairs of a function and the number of its bound, as numbers. A pair calls only pairs of smaller numbers.
ghost use Rattle.std.specs.Prelude.{◌≡◌, ◌≤◌, ◌<◌, ◌^◌, ◌/◌, ◌%◌, ℕ, Some, option_map, IfSome};
ghost use Rattle.std.specs.Option.{IfNone};
ghost use Rattle.tw_syntax.specs.Names.{name_tree};
ghost use Rattle.tw_syntax.specs.Terms.{bound_tree};
ghost use Rattle.tw_resolve.specs.Declarations.{number_of};
ghost use Rattle.tw_resolve.specs.Resolved.{resolved_setting};
ghost use Rattle.tw_state.specs.Steps.{bound_number, running_bound, callee_bound};
ghost use Rattle.tw_frames.specs.MeasureTable.{pair_number, RunsPair};

use tw_resolve::Resolved;
use tw_syntax::{Bound, Name};

/// The number of a bound, in a function whose own bound has the number `own`. A difference stops at 0.
fn bound_number(own: u8, bound: &Bound<'_>) -> u8
    ensures { result ≡ bound_number own (bound_tree bound.now) }
{
    match bound {
        Bound::Fixed(number) => *number,
        Bound::Same(_) => own,
        Bound::Less(_, number) => own.saturating_sub(*number),
    }
}

/// The number with which a function of this bound runs; 0 if it declares no bound. `None` for the bound 0: it does not run.
pub fn running_bound(bound: Option<u8>) -> Option<u8>
    ensures number { result ≡ running_bound bound }
    ensures small { IfSome result (λ number. number < 256) }
{
    match bound {
        None => Some(0),
        Some(0) => None,
        Some(number) => Some(number),
    }
}

/// The number with which a callee runs. `None` if it does not run.
pub fn callee_bound(own: u8, bound: &Option<Bound<'_>>) -> Option<u8>
    ensures { result ≡ callee_bound own (option_map bound_tree bound.now) }
{
    match bound {
        None => running_bound(None),
        Some(bound) => running_bound(Some(bound_number(own, bound))),
    }
}

/// The numbers of one function: one for each number that a bound can have.
const PAIRS_OF_FUNCTION: usize = 256;

/// The function of a pair, and the number of its bound.
pub fn pair_of(pair: usize) -> (usize, u8)
    ensures fun { result.0 ≡ pair / 256 }
    ensures own { result.1 ≡ pair % 256 }
{
    (pair / PAIRS_OF_FUNCTION, (pair % PAIRS_OF_FUNCTION) as u8)
}

/// The number of a pair. `None` if it is above the greatest `usize`.
pub fn pair_number(fun: usize, own: u8) -> Option<usize>
    ensures some { IfSome result (λ pair. pair ≡ pair_number fun own) }
    ensures none { IfNone result (2 ^ 64 ≤ pair_number fun own) }
{
    fun.checked_mul(PAIRS_OF_FUNCTION)?
        .checked_add(usize::from(own))
}

/// The number of the pair that a call runs, in a function whose own bound has the number `own`. `None` if no body runs.
pub fn called_pair(
    resolved: &Resolved<'_>,
    own: u8,
    callee: &Name<'_>,
    bound: &Option<Bound<'_>>,
) -> Option<usize>
    ensures some { IfSome result (λ pair. RunsPair (resolved_setting resolved.now) own (name_tree callee.now) (option_map bound_tree bound.now) pair) }
    ensures none { IfNone result ((j n : ℕ) → number_of (resolved_setting resolved.now).funs callee.now.text.now ≡ Some j → callee_bound own (option_map bound_tree bound.now) ≡ Some n → (n < 256) × (2 ^ 64 ≤ pair_number j n)) }
{
    let number = callee_bound(own, bound)?;
    let fun = resolved.fun_named(callee.text)?;
    pair_number(fun, number)
}
