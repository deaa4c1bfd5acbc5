//! The names so far, in order.
ghost use Rattle.std.specs.Prelude.{◌≡◌, ◌++◌, ◌∷◌, [], true, not, IfOk};
ghost use Rattle.tw_resolve.specs.Declarations.{is_one_of};
ghost use Rattle.tw_resolve.specs.Variables.{texts_in};

use indexmap::IndexSet;
use std::alloc::{AllocError, Global};

/// Different names, in the order in which they were added.
#[derive(Drop)]
pub struct NamesSoFar<'a> {
    set: IndexSet<&'a str>,
}

impl<'a> NamesSoFar<'a> {
    /// No names.
    pub fn new(alloc: Global) -> NamesSoFar<'a>
        ensures { texts_in result.set.keys ≡ [] }
    {
        NamesSoFar {
            set: IndexSet::new(alloc),
        }
    }

    /// Adds a name, and tells whether it is new. An error: out of memory.
    pub fn add(&mut self, name: &'a str) -> Result<bool, AllocError>
        ensures is_new { IfOk result (λ is_new. is_new ≡ not (is_one_of name.now (texts_in self.old.set.keys))) }
        ensures added { IfOk result (λ is_new. is_new ≡ true → texts_in self.new.set.keys ≡ texts_in self.old.set.keys ++ name.now ∷ []) }
    {
        Ok(self.set.insert(name)?)
    }
}
