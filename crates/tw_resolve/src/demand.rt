//! Demands, tried one after the other.
ghost use Rattle.std.specs.Prelude.{[], ◌∷◌};
ghost use Rattle.tw_resolve.specs.Demands.{Tries, demand};

use tw_text::{Fault, Pos, Refusal, Rule};

/// Goes on if the test holds. Otherwise this rule is broken at this place.
pub fn need(holds: bool, rule: Rule, at: Pos) -> Result<(), Fault>
    ensures { Tries (demand rule at holds ∷ []) result }
{
    if holds {
        Ok(())
    } else {
        Err(Fault::Refused(Refusal::broken(rule, at)))
    }
}
