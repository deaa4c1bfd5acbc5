//! The first wires of names.
ghost use Rattle.std.specs.Prelude.{◌≡◌, None, OnOk};
ghost use Rattle.tw_lower.specs.NameWires.{with_wire, wires_of};

use indexmap::IndexMap;
use std::alloc::{AllocError, Global};

/// The first wires of names. A name keeps the wire that it got first.
#[derive(Drop)]
pub struct NameWires<'a> {
    pub table: IndexMap<&'a str, u32>,
}

impl<'a> NameWires<'a> {
    /// No names.
    pub fn new(alloc: Global) -> NameWires<'a>
        ensures { wires_of result ≡ (λ name. None) }
    {
        NameWires {
            table: IndexMap::new(alloc),
        }
    }

    /// The first wire of a name. `None` if it has none.
    pub fn get(&self, name: &str) -> Option<u32>
        ensures { result ≡ wires_of self.now name.now }
    {
        self.table.get(name).copied()
    }

    /// Gives a name its first wire, if it has none. An error: out of memory.
    pub fn add(&mut self, name: &'a str, wire: u32) -> Result<(), AllocError>
        ensures { OnOk result (wires_of self.new ≡ with_wire (wires_of self.old) name.now wire) }
    {
        if self.table.contains_key(name) {
            return Ok(());
        }
        self.table.insert(name, wire)?;
        Ok(())
    }
}
