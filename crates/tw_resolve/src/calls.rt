//! The rules of calls.
ghost use Rattle.std.specs.Prelude.{◌≡◌, ◌++◌, ◌∷◌, [], IfOk, OnOk, drop, map, option_and_then, option_map, slice_get};
ghost use Rattle.tw_syntax.specs.Names.{name_tree};
ghost use Rattle.tw_syntax.specs.Programs.{fun_tree, param_tree};
ghost use Rattle.tw_syntax.specs.Terms.{bound_tree};
ghost use Rattle.tw_syntax.specs.Types.{written_tree};
ghost use Rattle.tw_types.specs.FromCode.{ty_of};
ghost use Rattle.tw_resolve.specs.Demands.{Tries};
ghost use Rattle.tw_resolve.specs.Setting.{type_of};
ghost use Rattle.tw_resolve.specs.Expressions.{arg_rules, args_rules, bound_rules, call_rules, callee_rules, fun_named, if_there, is_own, is_smaller, matches_declared, may_call, param_type, params_of};
ghost use Rattle.tw_resolve.specs.Tables.{setting_in};
ghost use Rattle.tw_resolve.specs.Variables.{texts_in, variables_in};

use crate::demand::need;
use crate::names_so_far::NamesSoFar;
use crate::paths::{fits, is_known};
use crate::tables::Tables;
use crate::variables::Variables;
use crate::written::type_of;
use std::alloc::{AllocError, Global};
use tw_syntax::{Bound, Fun, Name, Param, Written};
use tw_text::{Arena, Fault, Rule};
use tw_types::Ty;

/// A function that calls others, and its number.
#[derive(Clone, Copy)]
pub struct Caller<'a> {
    pub number: usize,
    pub fun: &'a Fun<'a>,
}

/// Whether a name is the bound of the caller.
fn is_own(caller: &Fun, name: &Name) -> bool
    ensures { result ≡ is_own (fun_tree caller.now).bound (name_tree name.now) }
{
    match &caller.bound {
        Some(own) => own.text == name.text,
        None => false,
    }
}

/// Whether a bound is the caller's own, less a positive number.
fn is_smaller(caller: &Fun, bound: &Option<Bound>) -> bool
    ensures { result ≡ is_smaller (fun_tree caller.now) (option_map bound_tree bound.now) }
{
    match bound {
        Some(Bound::Less(name, number)) => is_own(caller, name) && 0 < *number,
        Some(Bound::Same(_)) => false,
        Some(Bound::Fixed(_)) => false,
        None => false,
    }
}

/// Whether a function may call another, both by number: an earlier one, or itself with a smaller bound.
fn may_call(caller: usize, callee: usize, smaller: bool) -> bool
    ensures { result ≡ may_call caller callee smaller }
{
    callee < caller || (caller == callee && smaller)
}

/// Whether a call has a bound and arguments as its callee declares them.
fn matches_declared(bound: &Option<Bound>, args: &[Name], callee: &Fun) -> bool
    ensures { result ≡ matches_declared (option_map bound_tree bound.now) (map name_tree args.now) (fun_tree callee.now) }
{
    bound.is_some() == callee.bound.is_some() && args.len() == callee.params.len()
}

/// A name in the bound of a call is the bound of the caller.
fn check_bound(caller: &Fun, bound: &Option<Bound>) -> Result<(), Fault>
    ensures { Tries (bound_rules (fun_tree caller.now) (option_map bound_tree bound.now)) result }
{
    match bound {
        Some(Bound::Same(name)) => need(is_own(caller, name), Rule::UnknownName, name.at),
        Some(Bound::Less(name, _)) => need(is_own(caller, name), Rule::UnknownName, name.at),
        Some(Bound::Fixed(_)) => Ok(()),
        None => Ok(()),
    }
}

/// The function of this number.
pub fn fun_at<'a>(tables: &Tables<'a>, number: usize) -> Option<&'a Fun<'a>>
    ensures { option_map (λ fun. fun_tree fun.now) result ≡ slice_get (setting_in tables.now).funs number }
{
    match tables.funs.table.get_index(number) {
        Some((_, fun)) => Some(*fun),
        None => None,
    }
}

/// The function of this name.
fn fun_named<'a>(tables: &Tables<'a>, name: &str) -> Option<&'a Fun<'a>>
    ensures { option_map (λ fun. fun_tree fun.now) result ≡ fun_named (setting_in tables.now) name.now }
{
    match tables.funs.number_of(name) {
        Some(number) => fun_at(tables, number),
        None => None,
    }
}

/// The type of a written type. An error: out of memory.
pub fn ty_of_written<'a>(
    alloc: Global,
    arena: &'a Arena,
    tables: &Tables<'a>,
    written: &Written<'a>,
) -> Result<Option<Ty<'a>>, AllocError>
    ensures { IfOk result (λ found. option_map ty_of found ≡ type_of (setting_in tables.now) (written_tree written.now)) }
{
    match type_of(alloc, arena, tables, written)? {
        Some(sized) => Ok(Some(sized.ty)),
        None => Ok(None),
    }
}

/// The type of the result of the function of this name, if it is there and known. An error: out of memory.
pub fn result_of<'a>(
    alloc: Global,
    arena: &'a Arena,
    tables: &Tables<'a>,
    name: &str,
) -> Result<Option<Ty<'a>>, AllocError>
    ensures { IfOk result (λ found. option_map ty_of found ≡ option_and_then (λ fun. type_of (setting_in tables.now) fun.result) (fun_named (setting_in tables.now) name.now)) }
{
    match fun_named(tables, name) {
        Some(fun) => ty_of_written(alloc, arena, tables, fun.result),
        None => Ok(None),
    }
}

/// The type of the parameter at a place, if it is there and known. An error: out of memory.
fn param_type<'a>(
    alloc: Global,
    arena: &'a Arena,
    tables: &Tables<'a>,
    params: &[Param<'a>],
    place: usize,
) -> Result<Option<Ty<'a>>, AllocError>
    ensures { IfOk result (λ found. option_map ty_of found ≡ param_type (setting_in tables.now) (map param_tree (drop place params.now))) }
{
    match params.get(place) {
        Some(param) => ty_of_written(alloc, arena, tables, param.ty),
        None => Ok(None),
    }
}

/// An argument is a variable, is not one of the earlier ones, and has the needed type. It is added to the earlier ones.
fn check_arg<'a>(
    variables: &Variables<'a>,
    earlier: &mut NamesSoFar<'a>,
    needed: Option<Ty<'a>>,
    arg: &Name<'a>,
) -> Result<(), Fault>
    ensures tried { Tries (arg_rules (variables_in variables.now.table.entries) (texts_in earlier.old.set.keys) (option_map ty_of needed.entry) (name_tree arg.now)) result }
    ensures added { OnOk result (texts_in earlier.new.set.keys ≡ texts_in earlier.old.set.keys ++ arg.now.text.now ∷ []) }
{
    let found = variables.get(arg.text);
    need(is_known(found), Rule::UnknownName, arg.at)?;
    let is_new = earlier.add(arg.text)?;
    need(is_new, Rule::RepeatedArgument, arg.at)?;
    need(fits(needed, found), Rule::TypeMismatch, arg.at)
}

/// Each argument is a variable, occurs once, and has the type of its parameter.
#[tactic(auto, using(crate::proofs::Naming::naming))]
fn check_args<'a>(
    alloc: Global,
    arena: &'a Arena,
    tables: &Tables<'a>,
    variables: &Variables<'a>,
    params: &[Param<'a>],
    args: &[Name<'a>],
) -> Result<(), Fault>
    ensures { Tries (args_rules (setting_in tables.now) (variables_in variables.now.table.entries) [] (map param_tree params.now) (map name_tree args.now)) result }
{
    let mut earlier = NamesSoFar::new(alloc);
    for i in 0..args.len() {
        let needed = param_type(alloc, arena, tables, params, i)?;
        check_arg(variables, &mut earlier, needed, &args[i])?;
    }
    Ok(())
}

/// Whether a function, if it is there, may be called.
fn is_callable(caller: usize, callee: Option<usize>, smaller: bool) -> bool
    ensures { result ≡ if_there callee (λ other. may_call caller other smaller) }
{
    match callee {
        Some(other) => may_call(caller, other, smaller),
        None => true,
    }
}

/// Whether a function, if it is there, has such a bound and so many parameters.
fn is_matching(bound: &Option<Bound>, args: &[Name], callee: Option<&Fun>) -> bool
    ensures { result ≡ if_there (option_map (λ fun. fun_tree fun.now) callee.entry) (matches_declared (option_map bound_tree bound.now) (map name_tree args.now)) }
{
    match callee {
        Some(fun) => matches_declared(bound, args, fun),
        None => true,
    }
}

/// The callee is there, may be called, and has such a bound and so many arguments.
fn check_callee(
    tables: &Tables<'_>,
    caller: Caller<'_>,
    callee: &Name,
    bound: &Option<Bound>,
    args: &[Name],
) -> Result<(), Fault>
    ensures { Tries (callee_rules (setting_in tables.now) caller.entry.number (fun_tree caller.entry.fun.now) (name_tree callee.now) (option_map bound_tree bound.now) (map name_tree args.now)) result }
{
    let other = tables.funs.number_of(callee.text);
    need(other.is_some(), Rule::UnknownName, callee.at)?;
    let callable = is_callable(caller.number, other, is_smaller(caller.fun, bound));
    need(callable, Rule::CallOrder, callee.at)?;
    let matching = is_matching(bound, args, fun_named(tables, callee.text));
    need(matching, Rule::BadCall, callee.at)
}

/// The parameters of a function; none if it is not there.
fn params_of<'a>(callee: Option<&'a Fun<'a>>) -> &'a [Param<'a>]
    ensures { map param_tree result.now ≡ params_of (option_map (λ fun. fun_tree fun.now) callee.entry) }
{
    match callee {
        Some(fun) => fun.params,
        None => &[],
    }
}

/// A call keeps the rules of its callee, its bound and its arguments.
#[tactic(auto, using(crate::proofs::Trying::trying))]
pub fn check_call<'a>(
    alloc: Global,
    arena: &'a Arena,
    tables: &Tables<'a>,
    variables: &Variables<'a>,
    caller: Caller<'a>,
    callee: &Name<'a>,
    bound: &Option<Bound<'a>>,
    args: &[Name<'a>],
) -> Result<(), Fault>
    ensures { Tries (call_rules (setting_in tables.now) caller.entry.number (fun_tree caller.entry.fun.now) (variables_in variables.now.table.entries) (name_tree callee.now) (option_map bound_tree bound.now) (map name_tree args.now)) result }
{
    check_callee(tables, caller, callee, bound, args)?;
    check_bound(caller.fun, bound)?;
    let params = params_of(fun_named(tables, callee.text));
    check_args(alloc, arena, tables, variables, params, args)
}
