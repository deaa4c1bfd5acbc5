//! Reversible programs.
ghost use Rattle.std.specs.Prelude.{◌≡◌, map, ◌∷◌, [], IfOk};
ghost use Rattle.std.specs.List.{AllByRecursion};
ghost use Rattle.tw_syntax.specs.Programs.{decl_tree, program_tree};
ghost use Rattle.tw_resolve.specs.Declarations.{funs_of};
ghost use Rattle.tw_resolve.specs.Demands.{Tries};
ghost use Rattle.tw_check.specs.Right.{IsRight};
ghost use Rattle.tw_check.specs.Rules.{decls_rules};

use crate::function::check_function;
use std::alloc::Global;
use tw_resolve::Resolved;
use tw_syntax::Decl;
use tw_text::Fault;

/// Checks the function of a declaration, if it is one.
fn check_decl(alloc: Global, decl: &Decl<'_>) -> Result<(), Fault>
    ensures { Tries (decls_rules (decl_tree decl.now ∷ [])) result }
{
    match decl {
        Decl::Alias(_) => Ok(()),
        Decl::Fun(fun) => check_function(alloc, fun),
    }
}

/// Checks the functions of declarations, in text order.
fn check_decls(alloc: Global, decls: &[Decl<'_>]) -> Result<(), Fault>
    ensures { Tries (decls_rules (map decl_tree decls.now)) result }
{
    for decl in decls {
        check_decl(alloc, decl)?;
    }
    Ok(())
}

/// A program that is well-typed and whose functions are reversible.
#[derive(Drop)]
pub struct Checked<'a> {
    pub resolved: Resolved<'a>,
    pub ghost right: { ∥ AllByRecursion IsRight (funs_of (program_tree resolved.program.now).decls) ∥₁ },
}

impl<'a> Checked<'a> {
    /// The program with this resolution, whose functions are right.
    fn new(resolved: Resolved<'a>) -> Checked<'a>
        requires right { AllByRecursion IsRight (funs_of (program_tree resolved.program.now).decls) }
        ensures { result.resolved ≡ resolved.entry }
    {
        Checked { resolved }
    }

    /// The well-typed program.
    pub fn resolved(&self) -> &Resolved<'a>
        ensures { result.now ≡ self.now.resolved }
    {
        &self.resolved
    }
}

/// Checks that the functions of a well-typed program are reversible. Refused by the first rule of `docs/RULES.md` on reversibility
/// that one breaks, functions in text order. A fault: refused, or out of memory. On a fault the resolution is dropped.
pub fn check<'a>(alloc: Global, resolved: Resolved<'a>) -> Result<Checked<'a>, Fault>
    ensures tried { Tries (decls_rules (program_tree resolved.entry.program.now).decls) result }
    ensures kept { IfOk result (λ checked. checked.resolved ≡ resolved.entry) }
{
    check_decls(alloc, resolved.program.decls)?;
    Ok(Checked::new(resolved))
}
