//! Well-typed programs.
ghost use Rattle.std.specs.Prelude.{◌≡◌, ◌<◌, Some, length, slice_get, IfOk, OnOk, IfErr};
ghost use Rattle.tw_syntax.specs.Programs.{fun_tree, program_tree};
ghost use Rattle.tw_resolve.specs.Declarations.{funs_of, number_of};
ghost use Rattle.tw_resolve.specs.Programs.{HasOneAnswer, IsWellTyped, IsRefusedWith};
ghost use Rattle.tw_resolve.specs.Tables.{AreTargets, AreTypedTablesOf, AreVariables, program_setting};

mod calls;

use crate::alias_types::declare_types;
use crate::declare::declare;
use crate::tables::Tables;
use crate::target_types::target_types;
use crate::typing::check_types;
use crate::variables::Variables;
use std::alloc::Global;
use tw_syntax::{Fun, Program};
use tw_text::{Arena, Fault};
use tw_types::{Targets, Widths};

/// A well-typed program at some widths, with its tables.
#[derive(Drop)]
pub struct Resolved<'a> {
    pub program: &'a Program<'a>,
    tables: Tables<'a>,
    targets: Targets<'a>,
    variables: Vec<Variables<'a>>,
    pub ghost typed: { ∥ AreTypedTablesOf (program_tree program.now) tables ∥₁ },
    ghost of_targets: { ∥ AreTargets (program_setting (program_tree program.now) tables) targets ∥₁ },
    ghost of_funs: { ∥ AreVariables (program_setting (program_tree program.now) tables) variables.items ∥₁ },
}

impl<'a> Resolved<'a> {
    /// The program with these tables, which are those of it, and well-typed, with the types of its targets and of its variables.
    fn new(
        program: &'a Program<'a>,
        tables: Tables<'a>,
        targets: Targets<'a>,
        variables: Vec<Variables<'a>>,
    ) -> Resolved<'a>
        requires typed { AreTypedTablesOf (program_tree program.now) tables }
        requires of_targets { AreTargets (program_setting (program_tree program.now) tables) targets }
        requires of_funs { AreVariables (program_setting (program_tree program.now) tables) variables.items }
        ensures program { result.program ≡ program.entry }
        ensures widths { result.tables.types.widths ≡ tables.entry.types.widths }
    {
        Resolved {
            program,
            tables,
            targets,
            variables,
        }
    }

    /// The widths of words and addresses.
    pub fn widths(&self) -> Widths
        ensures { result ≡ self.now.tables.types.widths }
    {
        self.tables.types.widths()
    }

    /// The number of functions.
    pub fn fun_count(&self) -> usize
        ensures { result ≡ length (funs_of (program_tree self.now.program.now).decls) }
    {
        self.tables.funs.len()
    }

    /// The function of this number. There are more functions.
    pub fn fun_at(&self, number: usize) -> &'a Fun<'a>
        requires { number < length (funs_of (program_tree self.now.program.now).decls) }
        ensures { slice_get (funs_of (program_tree self.now.program.now).decls) number ≡ Some (fun_tree result.now) }
    {
        self.tables.funs.at(number)
    }

    /// The function of this name, by its number: its position in text order.
    pub fn fun_named(&self, name: &str) -> Option<usize>
        ensures { result ≡ number_of (funs_of (program_tree self.now.program.now).decls) name.now }
    {
        self.tables.funs.number_of(name)
    }
}

/// Finds the names and types of a program. Refused by the first rule of `docs/RULES.md` on names and types that it breaks: duplicate
/// names, unknown names and recursion of aliases, their sizes, and then the functions in text order. A fault: refused, or out of memory.
/// A program that is refused is not well-typed, and has no other refusal.
#[tactic(auto, using(crate::proofs::Refusals::one_answer))]
pub fn resolve<'a>(
    alloc: Global,
    arena: &'a Arena,
    program: &'a Program<'a>,
    widths: Widths,
) -> Result<Resolved<'a>, Fault>
    ensures program { IfOk result (λ resolved. resolved.program ≡ program.entry) }
    ensures widths { IfOk result (λ resolved. resolved.tables.types.widths ≡ widths) }
    ensures typed { OnOk result (∥ IsWellTyped widths (program_tree program.now) ∥₁) }
    ensures refused { IfErr result (IsRefusedWith widths (program_tree program.now)) }
    ensures one_answer { HasOneAnswer widths (program_tree program.now) }
{
    let mut tables = declare(alloc, arena, program, widths)?;
    declare_types(alloc, arena, &mut tables)?;
    let variables = check_types(alloc, arena, &tables)?;
    let targets = target_types(alloc, arena, &tables)?;
    Ok(Resolved::new(program, tables, targets, variables))
}
