//! The rules of functions, and their variables.
ghost use Rattle.std.specs.Prelude.{◌≡◌, ◌<◌, ◌++◌, ◌∷◌, [], Some, length, map, option_map, slice_get, IfOk, OnOk};
ghost use Rattle.tw_syntax.specs.Names.{name_tree};
ghost use Rattle.tw_syntax.specs.Programs.{fun_tree, param_tree};
ghost use Rattle.tw_syntax.specs.Types.{written_tree};
ghost use Rattle.tw_types.specs.FromCode.{ty_of};
ghost use Rattle.tw_resolve.specs.Declarations.{is_one_of};
ghost use Rattle.tw_resolve.specs.Demands.{Tries};
ghost use Rattle.tw_resolve.specs.Setting.{type_of};
ghost use Rattle.tw_resolve.specs.Statements.{with_variable};
ghost use Rattle.tw_resolve.specs.Programs.{end_variables, fun_rules, funs_rules, param_rules, param_variables, params_rules, return_rules};
ghost use Rattle.tw_resolve.specs.Tables.{setting_in};
ghost use Rattle.tw_resolve.specs.Variables.{texts_in, variables_in};

use crate::calls::{Caller, ty_of_written};
use crate::demand::need;
use crate::names_so_far::NamesSoFar;
use crate::paths::{fits, is_known};
use crate::statements::check_stmts;
use crate::tables::Tables;
use crate::type_rules::check_written;
use crate::variables::Variables;
use std::alloc::Global;
use tw_syntax::{Fun, Name, Param};
use tw_text::{Arena, Fault, Rule};

/// A parameter has another name than the earlier ones, and its type keeps the rules.
#[tactic(auto, using(crate::proofs::Trying::trying))]
fn check_param_rules<'a>(
    alloc: Global,
    arena: &'a Arena,
    tables: &Tables<'a>,
    earlier: &mut NamesSoFar<'a>,
    param: &Param<'a>,
) -> Result<(), Fault>
    ensures tried { Tries (param_rules (setting_in tables.now) (texts_in earlier.old.set.keys) (param_tree param.now)) result }
    ensures added { OnOk result (texts_in earlier.new.set.keys ≡ texts_in earlier.old.set.keys ++ param.now.name.text.now ∷ []) }
{
    let is_new = earlier.add(param.name.text)?;
    need(is_new, Rule::DuplicateName, param.name.at)?;
    check_written(alloc, arena, tables, param.ty)
}

/// A parameter keeps its rules, and is declared.
fn check_param<'a>(
    alloc: Global,
    arena: &'a Arena,
    tables: &Tables<'a>,
    earlier: &mut NamesSoFar<'a>,
    variables: &mut Variables<'a>,
    param: &Param<'a>,
) -> Result<(), Fault>
    ensures tried { Tries (param_rules (setting_in tables.now) (texts_in earlier.old.set.keys) (param_tree param.now)) result }
    ensures added { OnOk result (texts_in earlier.new.set.keys ≡ texts_in earlier.old.set.keys ++ param.now.name.text.now ∷ []) }
    ensures declared { OnOk result (variables_in variables.new.table.entries ≡ with_variable (variables_in variables.old.table.entries) param.now.name.text.now (type_of (setting_in tables.now) (written_tree param.now.ty.now))) }
{
    check_param_rules(alloc, arena, tables, earlier, param)?;
    let found = ty_of_written(alloc, arena, tables, param.ty)?;
    variables.add(param.name.text, found)?;
    Ok(())
}

/// The variables that parameters declare. The parameters have different names, and their types keep the rules.
fn check_params<'a>(
    alloc: Global,
    arena: &'a Arena,
    tables: &Tables<'a>,
    params: &[Param<'a>],
) -> Result<Variables<'a>, Fault>
    ensures tried { Tries (params_rules (setting_in tables.now) [] (map param_tree params.now)) result }
    ensures after { IfOk result (λ variables. variables_in variables.table.entries ≡ param_variables (setting_in tables.now) (map param_tree params.now)) }
{
    let mut variables = Variables::new(alloc);
    let mut earlier = NamesSoFar::new(alloc);
    for i in 0..params.len() {
        check_param(
            alloc,
            arena,
            tables,
            &mut earlier,
            &mut variables,
            &params[i],
        )?;
    }
    Ok(variables)
}

/// Whether a name is that of a parameter.
fn is_param(params: &[Param], name: &Name) -> bool
    ensures { result ≡ is_one_of name.now.text.now (map (λ param. param.name.text) (map param_tree params.now)) }
{
    for i in 0..params.len() {
        if name.text == params[i].name.text {
            return true;
        }
    }
    false
}

/// The returned name is a variable, no parameter, and has the type of the result.
fn check_return<'a>(
    alloc: Global,
    arena: &'a Arena,
    tables: &Tables<'a>,
    variables: &Variables<'a>,
    fun: &Fun<'a>,
) -> Result<(), Fault>
    ensures { Tries (return_rules (setting_in tables.now) (fun_tree fun.now) (variables_in variables.now.table.entries)) result }
{
    let found = variables.get(fun.returned.text);
    need(is_known(found), Rule::UnknownName, fun.returned.at)?;
    let is_own = !is_param(fun.params, &fun.returned);
    need(is_own, Rule::BadReturn, fun.returned.at)?;
    let needed = ty_of_written(alloc, arena, tables, fun.result)?;
    need(fits(needed, found), Rule::TypeMismatch, fun.returned.at)
}

/// The variables of the function of this number, in the order in which they are declared. It keeps the rules of types.
pub fn check_fun<'a>(
    alloc: Global,
    arena: &'a Arena,
    tables: &Tables<'a>,
    number: usize,
    fun: &'a Fun<'a>,
) -> Result<Variables<'a>, Fault>
    ensures tried { Tries (fun_rules (setting_in tables.now) number (fun_tree fun.now)) result }
    ensures after { IfOk result (λ variables. variables_in variables.table.entries ≡ end_variables (setting_in tables.now) (fun_tree fun.now)) }
{
    let mut variables = check_params(alloc, arena, tables, fun.params)?;
    check_written(alloc, arena, tables, fun.result)?;
    let caller = Caller { number, fun };
    check_stmts(alloc, arena, tables, caller, &mut variables, fun.body)?;
    check_return(alloc, arena, tables, &variables, fun)?;
    Ok(variables)
}

/// The variables of each function, in text order. All functions keep the rules of types.
pub fn check_funs<'a>(
    alloc: Global,
    arena: &'a Arena,
    tables: &Tables<'a>,
) -> Result<Vec<Variables<'a>>, Fault>
    ensures tried { Tries (funs_rules (setting_in tables.now) 0 (setting_in tables.now).funs) result }
    ensures after { IfOk result (λ found. map (λ variables. variables_in variables.table.entries) found.items ≡ map (end_variables (setting_in tables.now)) (setting_in tables.now).funs) }
{
    let mut found = Vec::new(alloc);
    for number in 0..tables.funs.len() {
        let variables = check_fun(alloc, arena, tables, number, tables.funs.at(number))?;
        found.push(variables)?;
    }
    Ok(found)
}
