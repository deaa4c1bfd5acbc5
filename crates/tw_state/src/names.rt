//! The names of an entry that have values in its states.
ghost use Rattle.std.specs.Prelude.{◌≡◌, ◌<◌, Some, length, slice_get};
ghost use Rattle.tw_syntax.specs.Programs.{fun_tree};
ghost use Rattle.tw_state.specs.FromCode.{names_at};
ghost use Rattle.tw_state.specs.Listed.{names_at_end};

use crate::state::Side;
use tw_syntax::Fun;

/// The number of names that have values on a side: the parameters, and at the end the result.
pub fn name_count(fun: &Fun, side: Side) -> usize
    ensures { result ≡ length (names_at side (fun_tree fun.now)) }
{
    match side {
        Side::Start => fun.params.len(),
        Side::End => fun.params.len() + 1,
    }
}

/// The name at this place: a parameter, or after them the result. There are more names.
pub fn name_at<'a>(fun: &Fun<'a>, place: usize) -> &'a str
    requires { place < length (names_at_end (fun_tree fun.now)) }
    ensures { slice_get (names_at_end (fun_tree fun.now)) place ≡ Some result.now }
{
    let params = fun.params;
    if place < params.len() {
        params[place].name.text
    } else {
        fun.returned.text
    }
}
