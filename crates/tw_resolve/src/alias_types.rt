//! The types of all aliases.
ghost use Rattle.std.specs.Prelude.{◌≡◌, [], OnOk, IfErr};
ghost use Rattle.std.specs.List.{AllByRecursion};
ghost use Rattle.tw_resolve.specs.Denotes.{AreComplete, AreTypes};
ghost use Rattle.tw_resolve.specs.Entries.{aliases_in};
ghost use Rattle.tw_resolve.specs.Programs.{IsFinite};
ghost use Rattle.tw_resolve.specs.AliasTypes.{AreResolvedIn, IsRecursionFaultIn, KeepsNames};
ghost use Rattle.tw_resolve.specs.Tables.{setting_in};

use crate::alias_search::{Search, find_type};
use crate::recursion::alias_at;
use crate::tables::Tables;
use std::alloc::Global;
use tw_text::{Arena, Fault};

/// Finds the types of all aliases, in time linear in their bodies. Refused with `RecursiveType` at the first alias, in text order, that
/// contains itself outside pointers. An error: the refusal, or out of memory.
pub fn declare_types<'a>(
    alloc: Global,
    arena: &'a Arena,
    tables: &mut Tables<'a>,
) -> Result<(), Fault>
    requires none { tables.old.types.table.entries ≡ [] }
    requires resolved { AreResolvedIn tables.old }
    ensures kept { KeepsNames tables.old tables.new }
    ensures types { OnOk result (AreTypes (setting_in tables.new).scope (setting_in tables.new).types) }
    ensures complete { OnOk result (AreComplete (setting_in tables.new).scope (setting_in tables.new).types) }
    ensures finite { OnOk result (AllByRecursion (IsFinite (setting_in tables.new).scope.declared) (aliases_in tables.new.aliases.table.entries)) }
    ensures refused { IfErr result (IsRecursionFaultIn tables.old) }
{
    let mut search = Search::new(alloc);
    for place in 0..tables.aliases.table.len() {
        let alias = alias_at(&tables.aliases, place);
        find_type(alloc, arena, tables, &mut search, alias.name.text)?;
    }
    Ok(())
}
