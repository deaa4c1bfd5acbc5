//! Sets of names, and what they were at an earlier moment.
ghost use Rattle.std.specs.Prelude.{◌≡◌, IfOk, OnOk, map};
ghost use Rattle.tw_check.specs.Names.{no_names, with_name};
ghost use Rattle.tw_check.specs.Walks.{set_of, noted, is_as_noted, put_back};

use indexmap::IndexMap;
use std::alloc::{AllocError, Global};
use tw_syntax::Name;

/// A set of names. Each name that was ever put in or taken out is in the table, with whether the set has it.
#[derive(Drop)]
pub struct NameSet<'a> {
    table: IndexMap<&'a str, bool>,
}

impl<'a> NameSet<'a> {
    /// The empty set. Does not allocate.
    pub fn new(alloc: Global) -> NameSet<'a>
        ensures { set_of result ≡ no_names }
    {
        NameSet {
            table: IndexMap::new(alloc),
        }
    }

    /// Whether the set has this name.
    pub fn has(&self, name: &str) -> bool
        ensures { result ≡ set_of self.now name.now }
    {
        match self.table.get(name) {
            Some(is_in) => *is_in,
            None => false,
        }
    }

    /// Puts a name in, or takes it out. An error: out of memory.
    pub fn set(&mut self, name: &'a str, is_in: bool) -> Result<(), AllocError>
        ensures { OnOk result (set_of self.new ≡ with_name (set_of self.old) name.now is_in) }
    {
        self.table.insert(name, is_in)?;
        Ok(())
    }

    /// These names, each with whether the set has it now. An error: out of memory.
    pub fn note(
        &self,
        alloc: Global,
        names: &[Name<'a>],
    ) -> Result<Vec<(&'a str, bool)>, AllocError>
        ensures { IfOk result (λ notes. notes.items ≡ noted (set_of self.now) names.now) }
    {
        let mut notes = Vec::with_capacity(alloc, names.len())?;
        for name in names {
            notes.push((name.text, self.has(name.text)))?;
        }
        Ok(notes)
    }

    /// Whether the set has the noted names as they were noted.
    pub fn is_as_noted(&self, notes: &[(&'a str, bool)]) -> bool
        ensures { result ≡ is_as_noted notes.now (set_of self.now) }
    {
        for (name, was_in) in notes {
            if self.has(name) != *was_in {
                return false;
            }
        }
        true
    }

    /// Puts in or takes out the noted names, as they were noted. An error: out of memory.
    pub fn put_back(&mut self, notes: &[(&'a str, bool)]) -> Result<(), AllocError>
        ensures { OnOk result (set_of self.new ≡ put_back notes.now (set_of self.old)) }
    {
        for (name, was_in) in notes {
            self.set(name, *was_in)?;
        }
        Ok(())
    }
}
