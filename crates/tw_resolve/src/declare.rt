//! The tables of a program.
ghost use Rattle.std.specs.Prelude.{◌≡◌, [], map, IfOk};
ghost use Rattle.tw_syntax.specs.Programs.{program_tree};
ghost use Rattle.tw_resolve.specs.Demands.{Tries};
ghost use Rattle.tw_resolve.specs.Names.{name_rules};
ghost use Rattle.tw_resolve.specs.Tables.{AreTablesOf};

use crate::names::{aliases_known, declare_aliases, declare_funs};
use crate::tables::Tables;
use crate::targets::collect_targets;
use crate::type_table::TypeTable;
use std::alloc::Global;
use tw_syntax::Program;
use tw_text::{Arena, Fault};
use tw_types::Widths;

/// The tables of a program, without types yet. Refused at the first name that is declared twice or is not declared.
#[tactic(auto, using(crate::proofs::Trying::trying))]
pub fn declare<'a>(
    alloc: Global,
    arena: &'a Arena,
    program: &'a Program<'a>,
    widths: Widths,
) -> Result<Tables<'a>, Fault>
    ensures tried { Tries (name_rules (program_tree program.now)) result }
    ensures tables { IfOk result (AreTablesOf (program_tree program.now) widths) }
    ensures none { IfOk result (λ tables. tables.types.table.entries ≡ []) }
{
    let aliases = declare_aliases(alloc, program.decls)?;
    let funs = declare_funs(alloc, program.decls)?;
    aliases_known(&aliases, program.decls)?;
    let targets = collect_targets(alloc, arena, program.decls)?;
    Ok(Tables {
        aliases,
        targets,
        types: TypeTable::new(alloc, widths),
        funs,
    })
}
