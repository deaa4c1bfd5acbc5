//! Sets of names.
ghost use Rattle.std.specs.Prelude.{◌≡◌, Bool, false, not, ◌||◌, IfOk, OnOk};
ghost use Rattle.std.specs.Str.{bytes_eq};
ghost use Rattle.tw_resolve.specs.Declarations.{Name};
ghost use Rattle.tw_resolve.specs.Searches.{names_in};

use indexmap::IndexSet;
use std::alloc::{AllocError, Global};

/// A set of names.
#[derive(Drop)]
pub struct NameSet<'a> {
    set: IndexSet<&'a str>,
}

impl<'a> NameSet<'a> {
    /// No names.
    pub fn new(alloc: Global) -> NameSet<'a>
        ensures { (name : Name) → names_in result.set.keys name ≡ false }
    {
        NameSet {
            set: IndexSet::new(alloc),
        }
    }

    /// Adds a name, and tells whether it is new. An error: out of memory.
    pub fn add(&mut self, name: &'a str) -> Result<bool, AllocError>
        ensures changed { IfOk result (λ is_new. is_new ≡ not (names_in self.old.set.keys name.now)) }
        ensures members { OnOk result ((other : Name) → names_in self.new.set.keys other ≡ (names_in self.old.set.keys other || bytes_eq other name.now)) }
    {
        Ok(self.set.insert(name)?)
    }
}
