//! The rules of types of a whole program.
ghost use Rattle.std.specs.Prelude.{◌≡◌, map, IfOk};
ghost use Rattle.tw_resolve.specs.Demands.{Tries};
ghost use Rattle.tw_resolve.specs.Entries.{aliases_in};
ghost use Rattle.tw_resolve.specs.Programs.{end_variables, type_rules};
ghost use Rattle.tw_resolve.specs.Tables.{setting_in};
ghost use Rattle.tw_resolve.specs.Variables.{variables_in};

use crate::functions::check_funs;
use crate::tables::Tables;
use crate::type_rules::check_aliases;
use crate::variables::Variables;
use std::alloc::Global;
use tw_text::{Arena, Fault};

/// The variables of each function, in text order. All aliases and then all functions keep the rules of types.
pub fn check_types<'a>(
    alloc: Global,
    arena: &'a Arena,
    tables: &Tables<'a>,
) -> Result<Vec<Variables<'a>>, Fault>
    ensures tried { Tries (type_rules (setting_in tables.now) (aliases_in tables.now.aliases.table.entries)) result }
    ensures after { IfOk result (λ found. map (λ variables. variables_in variables.table.entries) found.items ≡ map (end_variables (setting_in tables.now)) (setting_in tables.now).funs) }
{
    check_aliases(alloc, arena, tables)?;
    check_funs(alloc, arena, tables)
}
