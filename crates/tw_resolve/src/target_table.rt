//! The targets of the pointers of a program.
ghost use Rattle.std.proofs.Props.{props};
ghost use Rattle.std.specs.List.{AllByRecursion};
ghost use Rattle.std.specs.Prelude.{◌≡◌, ◌∷◌, None, ◌++◌, ◌≤◌, [], length, option_map, IfOk, OnOk, OnErr, string_bytes};
ghost use Rattle.tw_syntax.specs.Types.{type_print, written_tree};
ghost use Rattle.tw_resolve.specs.Declarations.{target_number, with_target};
ghost use Rattle.tw_resolve.specs.Entries.{IsTarget, table_targets};

use indexmap::IndexMap;
use std::alloc::{AllocError, Global};
use tw_syntax::{Written, WrittenKind};
use tw_text::Arena;
use tw_types::TargetId;

/// The targets of pointers, each by its printed form, in the order in which they were first seen.
#[derive(Drop)]
pub struct TargetTable<'a> {
    pub table: IndexMap<&'a str, &'a Written<'a>>,
    ghost keyed: { AllByRecursion IsTarget table.entries } by { Prim.hlevel props },
    ghost few: { length table.entries ≤ 4294967295 },
}

impl<'a> TargetTable<'a> {
    /// No targets.
    pub fn new(alloc: Global) -> TargetTable<'a>
        ensures { table_targets result.table.entries ≡ [] }
    {
        TargetTable {
            table: IndexMap::new(alloc),
        }
    }

    /// The number of the target that is written as this one. An error: out of memory.
    pub fn number_of(&self, alloc: Global, to: &Written) -> Result<Option<TargetId>, AllocError>
        ensures { IfOk result (λ number. option_map (λ id. id.0) number ≡ target_number (table_targets self.now.table.entries) (written_tree to.now)) }
    {
        let text = printed(alloc, to)?;
        match self.table.get_index_of(text.as_str()) {
            Some(place) => Ok(Some(TargetId(place as u32))),
            None => Ok(None),
        }
    }

    /// Adds a target that is written as no other. An error: out of memory, or there are 4,294,967,295 targets.
    fn put(
        &mut self,
        alloc: Global,
        arena: &'a Arena,
        to: &'a Written<'a>,
    ) -> Result<(), AllocError>
        requires new { target_number (table_targets self.old.table.entries) (written_tree to.now) ≡ None }
        ensures { OnOk result (table_targets self.new.table.entries ≡ table_targets self.old.table.entries ++ written_tree to.now ∷ []) }
    {
        if self.table.len() >= 4_294_967_295 {
            return Err(AllocError);
        }
        let text = printed(alloc, to)?;
        let key = arena.try_alloc_str(text.as_str())?;
        self.table.insert(key, to)?;
        Ok(())
    }

    /// Adds a target, if none is written as it is. An error: out of memory, or there are 4,294,967,295 targets.
    pub fn add(
        &mut self,
        alloc: Global,
        arena: &'a Arena,
        to: &'a Written<'a>,
    ) -> Result<(), AllocError>
        ensures { OnOk result (table_targets self.new.table.entries ≡ with_target (table_targets self.old.table.entries) (written_tree to.now)) }
    {
        match self.number_of(alloc, to)? {
            Some(_) => Ok(()),
            None => self.put(alloc, arena, to),
        }
    }
}

/// The printed form of a written type.
fn printed(alloc: Global, written: &Written) -> Result<String, AllocError>
    ensures { IfOk result (λ text. string_bytes text ≡ type_print (written_tree written.now)) }
{
    let mut text = String::new(alloc);
    print_type(&mut text, written)?;
    Ok(text)
}

/// Appends the printed form of a written type.
fn print_type(text: &mut String, written: &Written) -> Result<(), AllocError>
    ensures { OnOk result (string_bytes text.new ≡ string_bytes text.old ++ type_print (written_tree written.now)) }
{
    match &written.kind {
        WrittenKind::Unit => text.push_str("()"),
        WrittenKind::Uint => text.push_str("uint"),
        WrittenKind::Bool => text.push_str("bool"),
        WrittenKind::Pair(first, second) => {
            text.push_str("(")?;
            print_type(text, first)?;
            text.push_str(", ")?;
            print_type(text, second)?;
            text.push_str(")")
        }
        WrittenKind::Ptr(to) => {
            text.push_str("ptr<")?;
            print_type(text, to)?;
            text.push_str(">")
        }
        WrittenKind::Named(name) => text.push_str(name),
    }
}
