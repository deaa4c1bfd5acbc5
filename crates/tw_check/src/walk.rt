//! What is known at a place of a function: the names that are live, and those that are held.
ghost use Rattle.std.specs.Prelude.{◌≡◌, [], ◌∷◌, not};
ghost use Rattle.tw_syntax.specs.Names.{name_tree};
ghost use Rattle.tw_resolve.specs.Demands.{Tries};
ghost use Rattle.tw_check.specs.Names.{no_names};
ghost use Rattle.tw_check.specs.Rules.{used, written};
ghost use Rattle.tw_check.specs.Walks.{set_of, now_of};

use crate::name_set::NameSet;
use std::alloc::Global;
use tw_resolve::need;
use tw_syntax::Name;
use tw_text::{Fault, Rule};

/// The names that are live, and the held names: the roots of the conditions around this place.
#[derive(Drop)]
pub struct Walk<'a> {
    pub alloc: Global,
    pub held: NameSet<'a>,
    pub live: NameSet<'a>,
}

impl<'a> Walk<'a> {
    /// These names are live, and none is held. Does not allocate.
    pub fn new(alloc: Global, live: NameSet<'a>) -> Walk<'a>
        ensures { now_of result ≡ record { held = no_names; live = set_of live.entry } }
    {
        Walk {
            alloc,
            held: NameSet::new(alloc),
            live,
        }
    }

    /// Goes on if the name is live.
    pub fn need_live(&self, name: &Name) -> Result<(), Fault>
        ensures { Tries (used (set_of self.now.live) (name_tree name.now) ∷ []) result }
    {
        need(self.live.has(name.text), Rule::NotDeclared, name.at)
    }

    /// Goes on if the name is not held.
    pub fn need_free(&self, name: &Name) -> Result<(), Fault>
        ensures { Tries (written (set_of self.now.held) (name_tree name.now) ∷ []) result }
    {
        need(!self.held.has(name.text), Rule::ConditionWritten, name.at)
    }
}
