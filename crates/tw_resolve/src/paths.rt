//! The types of paths.
ghost use Rattle.std.specs.Prelude.{◌≡◌, Bool, IfOk, Some, is_some, option_map};
ghost use Rattle.tw_syntax.specs.Names.{path_tree};
ghost use Rattle.tw_types.specs.FromCode.{ty_of};
ghost use Rattle.tw_resolve.specs.Demands.{Tries};
ghost use Rattle.tw_resolve.specs.Setting.{fits};
ghost use Rattle.tw_resolve.specs.Expressions.{half, part, path_rules, path_type};
ghost use Rattle.tw_resolve.specs.Variables.{variables_in};

use crate::demand::need;
use crate::variables::Variables;
use tw_syntax::Path;
use tw_text::{Fault, Rule};
use tw_types::{Ty, same_ty};

/// Whether a type is known.
pub fn is_known(found: Option<Ty<'_>>) -> bool
    ensures { result ≡ is_some (option_map ty_of found.entry) }
{
    found.is_some()
}

/// Whether a type is the one that is needed. It is if none is needed or if it is not known.
pub fn fits(needed: Option<Ty<'_>>, found: Option<Ty<'_>>) -> bool
    ensures { result ≡ fits (option_map ty_of needed.entry) (option_map ty_of found.entry) }
{
    match needed {
        Some(want) => match found {
            Some(ty) => same_ty(&want, &ty),
            None => true,
        },
        None => true,
    }
}

/// The half of a pair that a step, 1 or 2, leads to.
fn half<'a>(ty: Ty<'a>, step: u8) -> Option<Ty<'a>>
    ensures { option_map ty_of result ≡ half step (ty_of ty.entry) }
{
    match ty {
        Ty::Unit => None,
        Ty::Uint => None,
        Ty::Bool => None,
        Ty::Ptr(_) => None,
        Ty::Pair(first, second) => match step {
            1 => Some(*first),
            2 => Some(*second),
            _ => None,
        },
    }
}

/// The type of the part that steps lead to from a type.
#[tactic(auto, using(crate::proofs::Parts::part_none))]
fn part<'a>(ty: Ty<'a>, steps: &[u8]) -> Option<Ty<'a>>
    ensures { option_map ty_of result ≡ part steps.now (Some (ty_of ty.entry)) }
{
    let mut found = ty;
    for step in steps {
        match half(found, *step) {
            Some(next) => found = next,
            None => return None,
        }
    }
    Some(found)
}

/// The type of a path.
pub fn path_type<'a>(variables: &Variables<'a>, path: &Path) -> Option<Ty<'a>>
    ensures { option_map ty_of result ≡ path_type (variables_in variables.now.table.entries) (path_tree path.now) }
{
    match variables.get(path.root.text) {
        Some(root) => part(root, path.steps),
        None => None,
    }
}

/// A path begins at a variable, its steps lead to halves of pairs, and its part has the needed type.
/// `found` is the type of the path.
pub fn check_path(
    variables: &Variables<'_>,
    needed: Option<Ty<'_>>,
    found: Option<Ty<'_>>,
    path: &Path,
) -> Result<(), Fault>
    requires { option_map ty_of found ≡ path_type (variables_in variables.now.table.entries) (path_tree path.now) }
    ensures { Tries (path_rules (variables_in variables.now.table.entries) (option_map ty_of needed.entry) (path_tree path.now)) result }
{
    need(
        is_known(variables.get(path.root.text)),
        Rule::UnknownName,
        path.root.at,
    )?;
    let fitting = is_known(found) && fits(needed, found);
    need(fitting, Rule::TypeMismatch, path.root.at)
}
