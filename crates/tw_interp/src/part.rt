//! Parts of values.
ghost use Rattle.std.specs.Prelude.{◌≡◌, option_map};
ghost use Rattle.tw_types.specs.FromCode.{value_of};
ghost use Rattle.tw_state.specs.Parts.{part_of, with_part};

use std::mem::replace;
use tw_types::Val;

/// The part of a value that steps lead to: step 1 takes the first half of a pair, and step 2 the second. `None` if a step leads to
/// no half.
pub fn part_of<'v>(val: &'v Val, steps: &[u8]) -> Option<&'v Val>
    ensures { option_map (λ part. value_of part.now) result ≡ part_of steps.now (value_of val.now) }
{
    match steps {
        [] => Some(val),
        [step, rest @ ..] => match val {
            Val::Pair(first, second) => match *step {
                1 => part_of(first, rest),
                2 => part_of(second, rest),
                _ => None,
            },
            _ => None,
        },
    }
}

/// Puts a value in the place of the part that steps lead to, and gives that part. `None` if a step leads to no half, and then the
/// value is unchanged.
pub fn replace_part(val: &mut Val, steps: &[u8], part: Val) -> Option<Val>
    ensures part { option_map value_of result ≡ part_of steps.now (value_of val.old) }
    ensures value { value_of val.new ≡ with_part steps.now (value_of val.old) (value_of part) }
{
    match steps {
        [] => Some(replace(val, part)),
        [step, rest @ ..] => match val {
            Val::Pair(first, second) => match *step {
                1 => replace_part(first, rest, part),
                2 => replace_part(second, rest, part),
                _ => None,
            },
            _ => None,
        },
    }
}
