//! The rules of functions.
ghost use Rattle.std.specs.Prelude.{◌≡◌, ◌∷◌, ◌++◌, map, IfOk, OnOk};
ghost use Rattle.tw_syntax.specs.Programs.{fun_tree};
ghost use Rattle.tw_resolve.specs.Demands.{Tries};
ghost use Rattle.tw_check.specs.Liveness.{names_of, param_names};
ghost use Rattle.tw_check.specs.Names.{is_one_of};
ghost use Rattle.tw_check.specs.Rules.{fun_rules};
ghost use Rattle.tw_check.specs.Walks.{set_of, texts_of, texts_of_params};

use crate::mention::push_mentioned;
use crate::name_set::NameSet;
use crate::statement::check_stmts;
use crate::walk::Walk;
use std::alloc::{AllocError, Global};
use tw_resolve::need;
use tw_syntax::{Fun, Name, Param};
use tw_text::{Fault, Rule};

/// The names of these parameters, as a set. An error: out of memory.
fn param_set<'a>(alloc: Global, params: &[Param<'a>]) -> Result<NameSet<'a>, AllocError>
    ensures { IfOk result (λ names. set_of names ≡ (λ name. is_one_of name (texts_of_params params.now))) }
{
    let mut names = NameSet::new(alloc);
    for param in params {
        names.set(param.name.text, true)?;
    }
    Ok(names)
}

/// The result, the parameters, and all variables that the body mentions. An error: out of memory.
fn names_of_function<'a>(alloc: Global, fun: &Fun<'a>) -> Result<Vec<Name<'a>>, AllocError>
    ensures { IfOk result (λ names. texts_of names.items ≡ (fun_tree fun.now).returned.text ∷ (param_names (fun_tree fun.now) ++ names_of (fun_tree fun.now).body)) }
{
    let mut names = Vec::new(alloc);
    names.push(fun.returned)?;
    for param in fun.params {
        names.push(param.name)?;
    }
    push_mentioned(&mut names, fun.body)?;
    Ok(names)
}

/// Checks one function. Refused by the first rule that it breaks: those of its body, in the order of the text; then its result
/// has a value at the `return`, and no other variable but the parameters has. A fault: refused, or out of memory.
pub fn check_function<'a>(alloc: Global, fun: &Fun<'a>) -> Result<(), Fault>
    ensures { Tries (fun_rules (fun_tree fun.now)) result }
{
    let mut walk = Walk::new(alloc, param_set(alloc, fun.params)?);
    check_stmts(&mut walk, fun.body)?;
    walk.need_live(&fun.returned)?;
    let mut ends = param_set(alloc, fun.params)?;
    ends.set(fun.returned.text, true)?;
    let names = names_of_function(alloc, fun)?;
    let left = walk.live.note(alloc, &names)?;
    need(ends.is_as_noted(&left), Rule::Left, fun.return_at)
}
