//! The types of atoms, and their rules.
ghost use Rattle.std.specs.Prelude.{◌≡◌, ◌^◌, ◌-◌, IfOk, OnOk, option_map};
ghost use Rattle.tw_syntax.specs.Terms.{atom_tree};
ghost use Rattle.tw_types.specs.FromCode.{ty_of};
ghost use Rattle.tw_resolve.specs.Demands.{Tries};
ghost use Rattle.tw_resolve.specs.Expressions.{atom_rules, atom_type};
ghost use Rattle.tw_resolve.specs.Tables.{setting_in};
ghost use Rattle.tw_resolve.specs.Variables.{variables_in};

use crate::demand::need;
use crate::paths::{check_path, fits, path_type};
use crate::tables::Tables;
use crate::type_rules::{check_written, need_within};
use crate::variables::Variables;
use crate::written::{pointer_to, type_of};
use std::alloc::{AllocError, Global};
use tw_syntax::{Atom, AtomKind};
use tw_text::{Arena, Fault, Rule};
use tw_types::{Ty, Widths};

/// The greatest number that fits into a word.
fn greatest(widths: Widths) -> u64
    ensures { result ≡ 2 ^ widths.word - 1 }
{
    (1u64 << widths.word) - 1
}

/// The type of an atom. `None` if it has none. An error: out of memory.
pub fn atom_type<'a>(
    alloc: Global,
    arena: &'a Arena,
    tables: &Tables<'a>,
    variables: &Variables<'a>,
    atom: &Atom<'a>,
) -> Result<Option<Ty<'a>>, AllocError>
    ensures { IfOk result (λ found. option_map ty_of found ≡ atom_type (setting_in tables.now) (variables_in variables.now.table.entries) (atom_tree atom.now)) }
{
    match &atom.kind {
        AtomKind::Place(path) => Ok(path_type(variables, path)),
        AtomKind::Number(_) => Ok(Some(Ty::Uint)),
        AtomKind::True => Ok(Some(Ty::Bool)),
        AtomKind::False => Ok(Some(Ty::Bool)),
        AtomKind::Unit => Ok(Some(Ty::Unit)),
        AtomKind::Null(to) => pointer_to(alloc, tables, to),
        AtomKind::Zero(written) => match type_of(alloc, arena, tables, written)? {
            Some(sized) => Ok(Some(sized.ty)),
            None => Ok(None),
        },
    }
}

/// An atom of the type `found` has the needed type, and a number fits into a word.
fn check_atom_as<'a>(
    alloc: Global,
    arena: &'a Arena,
    tables: &Tables<'a>,
    variables: &Variables<'a>,
    needed: Option<Ty<'a>>,
    found: Option<Ty<'a>>,
    atom: &Atom<'a>,
) -> Result<(), Fault>
    requires { option_map ty_of found ≡ atom_type (setting_in tables.now) (variables_in variables.now.table.entries) (atom_tree atom.now) }
    ensures { Tries (atom_rules (setting_in tables.now) (variables_in variables.now.table.entries) (option_map ty_of needed.entry) (atom_tree atom.now)) result }
{
    match &atom.kind {
        AtomKind::Place(path) => check_path(variables, needed, found, path),
        AtomKind::Number(number) => {
            let limit = greatest(tables.types.widths());
            need_within(*number, limit, Rule::LiteralTooWide, atom.at)?;
            need(fits(needed, found), Rule::TypeMismatch, atom.at)
        }
        AtomKind::True => need(fits(needed, found), Rule::TypeMismatch, atom.at),
        AtomKind::False => need(fits(needed, found), Rule::TypeMismatch, atom.at),
        AtomKind::Unit => need(fits(needed, found), Rule::TypeMismatch, atom.at),
        AtomKind::Null(written) => {
            need(fits(needed, found), Rule::TypeMismatch, atom.at)?;
            check_written(alloc, arena, tables, written)
        }
        AtomKind::Zero(written) => {
            need(fits(needed, found), Rule::TypeMismatch, atom.at)?;
            check_written(alloc, arena, tables, written)
        }
    }
}

/// The type of an atom, which has the needed type; a number fits into a word.
pub fn check_atom<'a>(
    alloc: Global,
    arena: &'a Arena,
    tables: &Tables<'a>,
    variables: &Variables<'a>,
    needed: Option<Ty<'a>>,
    atom: &Atom<'a>,
) -> Result<Option<Ty<'a>>, Fault>
    ensures tried { Tries (atom_rules (setting_in tables.now) (variables_in variables.now.table.entries) (option_map ty_of needed.entry) (atom_tree atom.now)) result }
    ensures found { IfOk result (λ found. option_map ty_of found ≡ atom_type (setting_in tables.now) (variables_in variables.now.table.entries) (atom_tree atom.now)) }
{
    let found = atom_type(alloc, arena, tables, variables, atom)?;
    check_atom_as(alloc, arena, tables, variables, needed, found, atom)?;
    Ok(found)
}
