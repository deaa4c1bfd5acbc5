//! The functions of a program.
ghost use Rattle.std.proofs.Props.{props};
ghost use Rattle.std.specs.Prelude.{◌≡◌, ◌<◌, ◌++◌, ◌∷◌, [], false, length, slice_get, Some, OnOk};
ghost use Rattle.std.specs.List.{AllByRecursion};
ghost use Rattle.tw_syntax.specs.Names.{name_tree};
ghost use Rattle.tw_syntax.specs.Programs.{fun_tree};
ghost use Rattle.tw_resolve.specs.Declarations.{is_one_of, number_of};
ghost use Rattle.tw_resolve.specs.Demands.{Tries};
ghost use Rattle.tw_resolve.specs.Names.{fun_texts, different_rules};
ghost use Rattle.tw_resolve.specs.Entries.{IsFun, funs_in};

use crate::demand::need;
use indexmap::IndexMap;
use std::alloc::{AllocError, Global};
use tw_syntax::Fun;
use tw_text::{Fault, Rule};

/// The functions by name, in text order.
#[derive(Drop)]
pub struct FunTable<'a> {
    pub table: IndexMap<&'a str, &'a Fun<'a>>,
    ghost keyed: { AllByRecursion IsFun table.entries } by { Prim.hlevel props },
}

impl<'a> FunTable<'a> {
    /// No functions.
    pub fn new(alloc: Global) -> FunTable<'a>
        ensures { funs_in result.table.entries ≡ [] }
    {
        FunTable {
            table: IndexMap::new(alloc),
        }
    }

    /// Whether there is a function of this name.
    pub fn has(&self, name: &str) -> bool
        ensures { result ≡ is_one_of name.now (fun_texts (funs_in self.now.table.entries)) }
    {
        self.table.contains_key(name)
    }

    /// Adds a function of a new name. An error: out of memory.
    fn put(&mut self, fun: &'a Fun<'a>) -> Result<(), AllocError>
        requires new { is_one_of fun.now.name.text.now (fun_texts (funs_in self.old.table.entries)) ≡ false }
        ensures { OnOk result (funs_in self.new.table.entries ≡ funs_in self.old.table.entries ++ fun_tree fun.now ∷ []) }
    {
        self.table.insert(fun.name.text, fun)?;
        Ok(())
    }

    /// Adds a function. Refused if there is one of its name.
    pub fn add(&mut self, fun: &'a Fun<'a>) -> Result<(), Fault>
        ensures tried { Tries (different_rules (fun_texts (funs_in self.old.table.entries)) (name_tree fun.now.name ∷ [])) result }
        ensures added { OnOk result (funs_in self.new.table.entries ≡ funs_in self.old.table.entries ++ fun_tree fun.now ∷ []) }
    {
        need(!self.has(fun.name.text), Rule::DuplicateName, fun.name.at)?;
        self.put(fun)?;
        Ok(())
    }

    /// The number of functions.
    pub fn len(&self) -> usize
        ensures { result ≡ length (funs_in self.now.table.entries) }
    {
        self.table.len()
    }

    /// The function of this number. There are more functions.
    pub fn at(&self, number: usize) -> &'a Fun<'a>
        requires { number < length (funs_in self.now.table.entries) }
        ensures { slice_get (funs_in self.now.table.entries) number ≡ Some (fun_tree result.now) }
    {
        self.table[number]
    }

    /// The number of the function of this name: its position in text order.
    pub fn number_of(&self, name: &str) -> Option<usize>
        ensures { result ≡ number_of (funs_in self.now.table.entries) name.now }
    {
        self.table.get_index_of(name)
    }
}
