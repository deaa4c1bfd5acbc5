//! The aliases of a program.
ghost use Rattle.std.proofs.Props.{props};
ghost use Rattle.std.specs.Prelude.{◌≡◌, false, ◌++◌, ◌∷◌, [], option_map, OnOk};
ghost use Rattle.std.specs.List.{AllByRecursion};
ghost use Rattle.tw_syntax.specs.Names.{name_tree};
ghost use Rattle.tw_syntax.specs.Programs.{alias_tree};
ghost use Rattle.tw_syntax.specs.Types.{written_tree};
ghost use Rattle.tw_resolve.specs.Declarations.{declared_as, is_one_of};
ghost use Rattle.tw_resolve.specs.Demands.{Tries};
ghost use Rattle.tw_resolve.specs.Names.{alias_texts, different_rules};
ghost use Rattle.tw_resolve.specs.Entries.{IsAlias, aliases_in};

use crate::demand::need;
use indexmap::IndexMap;
use std::alloc::{AllocError, Global};
use tw_syntax::{Alias, Written};
use tw_text::{Fault, Rule};

/// The aliases by name, in text order.
#[derive(Drop)]
pub struct AliasTable<'a> {
    pub table: IndexMap<&'a str, &'a Alias<'a>>,
    ghost keyed: { AllByRecursion IsAlias table.entries } by { Prim.hlevel props },
}

impl<'a> AliasTable<'a> {
    /// No aliases.
    pub fn new(alloc: Global) -> AliasTable<'a>
        ensures { aliases_in result.table.entries ≡ [] }
    {
        AliasTable {
            table: IndexMap::new(alloc),
        }
    }

    /// Whether there is an alias of this name.
    pub fn has(&self, name: &str) -> bool
        ensures { result ≡ is_one_of name.now (alias_texts (aliases_in self.now.table.entries)) }
    {
        self.table.contains_key(name)
    }

    /// Adds an alias of a new name. An error: out of memory.
    fn put(&mut self, alias: &'a Alias<'a>) -> Result<(), AllocError>
        requires new { is_one_of alias.now.name.text.now (alias_texts (aliases_in self.old.table.entries)) ≡ false }
        ensures { OnOk result (aliases_in self.new.table.entries ≡ aliases_in self.old.table.entries ++ alias_tree alias.now ∷ []) }
    {
        self.table.insert(alias.name.text, alias)?;
        Ok(())
    }

    /// Adds an alias. Refused if there is one of its name.
    pub fn add(&mut self, alias: &'a Alias<'a>) -> Result<(), Fault>
        ensures tried { Tries (different_rules (alias_texts (aliases_in self.old.table.entries)) (name_tree alias.now.name ∷ [])) result }
        ensures added { OnOk result (aliases_in self.new.table.entries ≡ aliases_in self.old.table.entries ++ alias_tree alias.now ∷ []) }
    {
        need(
            !self.has(alias.name.text),
            Rule::DuplicateName,
            alias.name.at,
        )?;
        self.put(alias)?;
        Ok(())
    }

    /// The type that an alias is declared as.
    pub fn get(&self, name: &str) -> Option<&'a Written<'a>>
        ensures { option_map (λ written. written_tree written.now) result ≡ declared_as (aliases_in self.now.table.entries) name.now }
    {
        match self.table.get(name) {
            Some(alias) => Some(alias.body),
            None => None,
        }
    }
}
