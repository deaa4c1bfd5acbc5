//! Tests whether functions and programs are equal but for their places.
ghost use Rattle.std.specs.Prelude.{◌≡◌, ◌↔◌, IsTrue, map};
ghost use Rattle.std.specs.Option.{option_map};
ghost use Rattle.tw_syntax.specs.Names.{name_tree};
ghost use Rattle.tw_syntax.specs.Programs.{alias_tree, decl_tree, fun_tree, param_tree, program_tree};
ghost use Rattle.tw_syntax.specs.Same.{same_alias, same_decl, same_each, same_fun, same_head, same_name, same_optional, same_param, same_program};
ghost use Rattle.tw_syntax.specs.Unplaced.{unplaced_program};

use crate::name::Name;
use crate::program::{Alias, Decl, Fun, Param, Program};
use crate::same_statement::same_stmts;
use crate::same_term::same_name;
use crate::same_written::same_written;

/// Whether two names, or their absence, are equal but for their places.
fn same_bound_name(x: &Option<Name>, y: &Option<Name>) -> bool
    ensures { result ≡ same_optional same_name (option_map name_tree x.now) (option_map name_tree y.now) }
{
    match x {
        None => y.is_none(),
        Some(name) => match y {
            None => false,
            Some(other) => same_name(name, other),
        },
    }
}

/// Whether two parameters are equal but for their places.
fn same_param(x: &Param, y: &Param) -> bool
    ensures { result ≡ same_param (param_tree x.now) (param_tree y.now) }
{
    same_name(&x.name, &y.name) && same_written(x.ty, y.ty)
}

/// Whether two lists of parameters are equal but for their places.
#[tactic(auto, using(crate::proofs::Lists::lengths))]
fn same_params(x: &[Param], y: &[Param]) -> bool
    ensures { result ≡ same_each same_param (map param_tree x.now) (map param_tree y.now) }
{
    if x.len() != y.len() {
        return false;
    }
    for i in 0..x.len() {
        if !same_param(&x[i], &y[i]) {
            return false;
        }
    }
    true
}

/// Whether the heads of two functions are equal but for their places.
fn same_head(x: &Fun, y: &Fun) -> bool
    ensures { result ≡ same_head (fun_tree x.now) (fun_tree y.now) }
{
    same_name(&x.name, &y.name)
        && same_bound_name(&x.bound, &y.bound)
        && same_params(x.params, y.params)
        && same_written(x.result, y.result)
}

/// Whether two functions are equal but for their places.
fn same_fun(x: &Fun, y: &Fun) -> bool
    ensures { result ≡ same_fun (fun_tree x.now) (fun_tree y.now) }
{
    same_head(x, y) && same_stmts(x.body, y.body) && same_name(&x.returned, &y.returned)
}

/// Whether two aliases are equal but for their places.
fn same_alias(x: &Alias, y: &Alias) -> bool
    ensures { result ≡ same_alias (alias_tree x.now) (alias_tree y.now) }
{
    same_name(&x.name, &y.name) && same_written(x.body, y.body)
}

/// Whether two declarations are equal but for their places.
fn same_decl(x: &Decl, y: &Decl) -> bool
    ensures { result ≡ same_decl (decl_tree x.now) (decl_tree y.now) }
{
    match x {
        Decl::Alias(alias) => match y {
            Decl::Alias(other) => same_alias(alias, other),
            _ => false,
        },
        Decl::Fun(fun) => match y {
            Decl::Fun(other) => same_fun(fun, other),
            _ => false,
        },
    }
}

/// Whether two lists of declarations are equal but for their places.
#[tactic(auto, using(crate::proofs::Lists::lengths))]
fn same_decls(x: &[Decl], y: &[Decl]) -> bool
    ensures { result ≡ same_each same_decl (map decl_tree x.now) (map decl_tree y.now) }
{
    if x.len() != y.len() {
        return false;
    }
    for i in 0..x.len() {
        if !same_decl(&x[i], &y[i]) {
            return false;
        }
    }
    true
}

/// Whether two programs are equal but for their places. Does not allocate.
pub fn same_tree(x: &Program, y: &Program) -> bool
    ensures { IsTrue result ↔ (unplaced_program (program_tree x.now) ≡ unplaced_program (program_tree y.now)) }
{
    same_decls(x.decls, y.decls)
}
