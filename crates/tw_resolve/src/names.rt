//! The declared names of a program: none twice, and each that an alias refers to is there.
ghost use Rattle.std.specs.Prelude.{◌≡◌, ◌++◌, ◌∷◌, [], map, OnOk, IfOk};
ghost use Rattle.tw_syntax.specs.Programs.{decl_tree};
ghost use Rattle.tw_syntax.specs.Types.{written_tree};
ghost use Rattle.tw_resolve.specs.Declarations.{aliases_of, funs_of, declared_as};
ghost use Rattle.tw_resolve.specs.Demands.{Tries};
ghost use Rattle.tw_resolve.specs.Names.{aliases_rules, alias_names, alias_texts, fun_names, fun_texts, different_rules, declared_rules};
ghost use Rattle.tw_resolve.specs.Entries.{aliases_in, funs_in};

use crate::alias_table::AliasTable;
use crate::demand::need;
use crate::fun_table::FunTable;
use std::alloc::Global;
use tw_syntax::{Decl, Written, WrittenKind};
use tw_text::{Fault, Rule};

/// Adds the alias of a declaration, if it is one. Refused if there is one of its name.
fn declare_alias<'a>(aliases: &mut AliasTable<'a>, decl: &'a Decl<'a>) -> Result<(), Fault>
    ensures tried { Tries (different_rules (alias_texts (aliases_in aliases.old.table.entries)) (alias_names (aliases_of (decl_tree decl.now ∷ [])))) result }
    ensures added { OnOk result (aliases_in aliases.new.table.entries ≡ aliases_in aliases.old.table.entries ++ aliases_of (decl_tree decl.now ∷ [])) }
{
    match decl {
        Decl::Alias(alias) => aliases.add(alias),
        Decl::Fun(_) => Ok(()),
    }
}

/// The aliases of declarations. Refused at the first whose name an earlier one has.
pub fn declare_aliases<'a>(alloc: Global, decls: &'a [Decl<'a>]) -> Result<AliasTable<'a>, Fault>
    ensures tried { Tries (different_rules [] (alias_names (aliases_of (map decl_tree decls.now)))) result }
    ensures table { IfOk result (λ table. aliases_in table.table.entries ≡ aliases_of (map decl_tree decls.now)) }
{
    let mut aliases = AliasTable::new(alloc);
    for decl in decls {
        declare_alias(&mut aliases, decl)?;
    }
    Ok(aliases)
}

/// Adds the function of a declaration, if it is one. Refused if there is one of its name.
fn declare_fun<'a>(funs: &mut FunTable<'a>, decl: &'a Decl<'a>) -> Result<(), Fault>
    ensures tried { Tries (different_rules (fun_texts (funs_in funs.old.table.entries)) (fun_names (funs_of (decl_tree decl.now ∷ [])))) result }
    ensures added { OnOk result (funs_in funs.new.table.entries ≡ funs_in funs.old.table.entries ++ funs_of (decl_tree decl.now ∷ [])) }
{
    match decl {
        Decl::Alias(_) => Ok(()),
        Decl::Fun(fun) => funs.add(fun),
    }
}

/// The functions of declarations. Refused at the first whose name an earlier one has.
pub fn declare_funs<'a>(alloc: Global, decls: &'a [Decl<'a>]) -> Result<FunTable<'a>, Fault>
    ensures tried { Tries (different_rules [] (fun_names (funs_of (map decl_tree decls.now)))) result }
    ensures table { IfOk result (λ table. funs_in table.table.entries ≡ funs_of (map decl_tree decls.now)) }
{
    let mut funs = FunTable::new(alloc);
    for decl in decls {
        declare_fun(&mut funs, decl)?;
    }
    Ok(funs)
}

/// Refused at the first name of a written type that is not declared.
fn names_known(aliases: &AliasTable<'_>, written: &Written) -> Result<(), Fault>
    ensures { Tries (declared_rules (declared_as (aliases_in aliases.now.table.entries)) (written_tree written.now)) result }
{
    match &written.kind {
        WrittenKind::Unit => Ok(()),
        WrittenKind::Uint => Ok(()),
        WrittenKind::Bool => Ok(()),
        WrittenKind::Pair(first, second) => {
            names_known(aliases, first)?;
            names_known(aliases, second)
        }
        WrittenKind::Ptr(to) => names_known(aliases, to),
        WrittenKind::Named(name) => {
            let known = aliases.get(name).is_some();
            need(known, Rule::UnknownName, written.at)
        }
    }
}

/// Refused at the first name in the alias of a declaration, if it is one, that is not declared.
fn alias_known(aliases: &AliasTable<'_>, decl: &Decl<'_>) -> Result<(), Fault>
    ensures { Tries (aliases_rules (declared_as (aliases_in aliases.now.table.entries)) (aliases_of (decl_tree decl.now ∷ []))) result }
{
    match decl {
        Decl::Alias(alias) => names_known(aliases, alias.body),
        Decl::Fun(_) => Ok(()),
    }
}

/// Refused at the first name in the aliases of declarations that is not declared.
pub fn aliases_known(aliases: &AliasTable<'_>, decls: &[Decl<'_>]) -> Result<(), Fault>
    ensures { Tries (aliases_rules (declared_as (aliases_in aliases.now.table.entries)) (aliases_of (map decl_tree decls.now))) result }
{
    for decl in decls {
        alias_known(aliases, decl)?;
    }
    Ok(())
}
