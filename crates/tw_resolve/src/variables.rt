//! The variables of a function.
ghost use Rattle.std.specs.Prelude.{◌≡◌, ◌<◌, [], Some, is_some, length, position, slice_get, OnOk, option_map};
ghost use Rattle.std.specs.Str.{bytes_eq};
ghost use Rattle.tw_types.specs.FromCode.{ty_of};
ghost use Rattle.tw_resolve.specs.Declarations.{AreDifferent};
ghost use Rattle.tw_resolve.specs.Expressions.{texts_of, variable_type};
ghost use Rattle.tw_resolve.specs.Statements.{with_variable};
ghost use Rattle.tw_resolve.specs.Variables.{variables_in};

use indexmap::IndexMap;
use std::alloc::{AllocError, Global};
use tw_types::Ty;

/// The variables of a function with their types, in the order in which they were declared.
#[derive(Drop)]
pub struct Variables<'a> {
    pub table: IndexMap<&'a str, Ty<'a>>,
}

impl<'a> Variables<'a> {
    /// No variables.
    pub fn new(alloc: Global) -> Variables<'a>
        ensures { variables_in result.table.entries ≡ [] }
    {
        Variables {
            table: IndexMap::new(alloc),
        }
    }

    /// The number of variables.
    pub fn len(&self) -> usize
        ensures { result ≡ length (variables_in self.now.table.entries) }
    {
        self.table.len()
    }

    /// The name and the type of the variable of this number, from 0 on. There are more variables.
    pub fn at(&self, number: usize) -> (&'a str, Ty<'a>)
        requires { number < length (variables_in self.now.table.entries) }
        ensures { slice_get (variables_in self.now.table.entries) number ≡ Some (result.0.now, ty_of result.1) }
    {
        let (name, ty) = self.table.get_index(number).unwrap();
        (name, *ty)
    }

    /// The number of a variable. Different variables have different names.
    pub fn number_of(&self, name: &str) -> Option<usize>
        ensures place { result ≡ position (bytes_eq name.now) (texts_of (variables_in self.now.table.entries)) }
        ensures there { is_some result ≡ is_some (variable_type (variables_in self.now.table.entries) name.now) }
        ensures different { AreDifferent (texts_of (variables_in self.now.table.entries)) }
    {
        self.table.get_index_of(name)
    }

    /// The type of a variable.
    pub fn get(&self, name: &str) -> Option<Ty<'a>>
        ensures { option_map ty_of result ≡ variable_type (variables_in self.now.table.entries) name.now }
    {
        self.table.get(name).copied()
    }

    /// Declares a variable, if its type is known. One that is there keeps its type. An error: out of memory.
    pub fn add(&mut self, name: &'a str, found: Option<Ty<'a>>) -> Result<(), AllocError>
        ensures { OnOk result (variables_in self.new.table.entries ≡ with_variable (variables_in self.old.table.entries) name.now (option_map ty_of found.entry)) }
    {
        let Some(ty) = found else {
            return Ok(());
        };
        if self.table.contains_key(name) {
            return Ok(());
        }
        self.table.insert(name, ty)?;
        Ok(())
    }
}
