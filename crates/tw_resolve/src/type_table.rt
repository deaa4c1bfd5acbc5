//! The types of the declared names.
ghost use Rattle.std.proofs.Props.{props};
ghost use Rattle.std.specs.List.{AllByRecursion};
ghost use Rattle.std.specs.Prelude.{◌≡◌, Some, [], if◌then◌else◌, option_map, IfSome, OnOk};
ghost use Rattle.std.specs.Str.{bytes_eq};
ghost use Rattle.tw_types.specs.FromCode.{ty_of};
ghost use Rattle.tw_resolve.specs.Declarations.{Name};
ghost use Rattle.tw_resolve.specs.Entries.{types_in};
ghost use Rattle.tw_resolve.specs.Sizes.{IsSized};

use crate::sizes::SizedTy;
use indexmap::IndexMap;
use std::alloc::{AllocError, Global};
use tw_types::Widths;

/// The types of declared names, with their sizes at these widths.
#[derive(Drop)]
pub struct TypeTable<'a> {
    widths: Widths,
    table: IndexMap<&'a str, SizedTy<'a>>,
    ghost sized: { AllByRecursion (λ entry. IsSized widths entry.1) table.entries } by { Prim.hlevel props },
}

impl<'a> TypeTable<'a> {
    /// No types, at these widths.
    pub fn new(alloc: Global, widths: Widths) -> TypeTable<'a>
        ensures widths { result.widths ≡ widths }
        ensures none { result.table.entries ≡ [] }
    {
        TypeTable {
            widths,
            table: IndexMap::new(alloc),
        }
    }

    /// The widths of words and addresses.
    pub fn widths(&self) -> Widths
        ensures { result ≡ self.now.widths }
    {
        self.widths
    }

    /// The type of a declared name.
    pub fn get(&self, name: &str) -> Option<SizedTy<'a>>
        ensures found { option_map (λ sized. ty_of sized.ty) result ≡ types_in self.now.table.entries name.now }
        ensures sizes { IfSome result (IsSized self.now.widths) }
    {
        self.table.get(name).copied()
    }

    /// Sets the type of a declared name. An error: out of memory.
    pub fn put(&mut self, name: &'a str, sized: SizedTy<'a>) -> Result<(), AllocError>
        requires { IsSized self.old.widths sized }
        ensures widths { self.new.widths ≡ self.old.widths }
        ensures types { OnOk result ((other : Name) → types_in self.new.table.entries other ≡ (if bytes_eq other name.now then Some (ty_of sized.entry.ty) else types_in self.old.table.entries other)) }
    {
        self.table.insert(name, sized)?;
        Ok(())
    }
}
