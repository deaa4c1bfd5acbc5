//! The types that written types denote.
ghost use Rattle.std.specs.Prelude.{◌≡◌, IfOk, IfSome, option_map};
ghost use Rattle.tw_syntax.specs.Types.{written_tree};
ghost use Rattle.tw_types.specs.FromCode.{ty_of};
ghost use Rattle.tw_resolve.specs.Denotes.{names_declared};
ghost use Rattle.tw_resolve.specs.Setting.{type_of, pointer_to};
ghost use Rattle.tw_resolve.specs.Sizes.{IsSized};
ghost use Rattle.tw_resolve.specs.Tables.{setting_in};

use crate::sizes::{SizedTy, pair};
use crate::tables::Tables;
use std::alloc::{AllocError, Global};
use tw_syntax::{Written, WrittenKind};
use tw_text::Arena;
use tw_types::Ty;

/// Whether each name in a written type is declared.
fn names_declared(tables: &Tables<'_>, written: &Written) -> bool
    ensures { result ≡ names_declared (setting_in tables.now).scope.declared (written_tree written.now) }
{
    match &written.kind {
        WrittenKind::Unit => true,
        WrittenKind::Uint => true,
        WrittenKind::Bool => true,
        WrittenKind::Pair(first, second) => {
            names_declared(tables, first) && names_declared(tables, second)
        }
        WrittenKind::Ptr(to) => names_declared(tables, to),
        WrittenKind::Named(name) => tables.aliases.get(name).is_some(),
    }
}

/// The type of a pointer to a target. `None` if a name in the target is not declared. An error: out of memory.
pub fn pointer_to<'a>(
    alloc: Global,
    tables: &Tables<'a>,
    to: &Written,
) -> Result<Option<Ty<'a>>, AllocError>
    ensures { IfOk result (λ found. option_map ty_of found ≡ pointer_to (setting_in tables.now).scope (written_tree to.now)) }
{
    if !names_declared(tables, to) {
        return Ok(None);
    }
    match tables.targets.number_of(alloc, to)? {
        Some(number) => Ok(Some(Ty::Ptr(number))),
        None => Ok(None),
    }
}

/// A type of one part with this extent.
fn simple<'a>(ty: Ty<'a>, extent: u32) -> SizedTy<'a>
    ensures { result ≡ record { ty = ty.entry; depth = 1; extent = extent } }
{
    SizedTy {
        ty,
        depth: 1,
        extent: u64::from(extent),
    }
}

/// The type that a written type denotes, with its sizes. `None` if it denotes none. An error: out of memory.
pub fn type_of<'a>(
    alloc: Global,
    arena: &'a Arena,
    tables: &Tables<'a>,
    written: &Written<'a>,
) -> Result<Option<SizedTy<'a>>, AllocError>
    ensures found { IfOk result (λ found. option_map (λ sized. ty_of sized.ty) found ≡ type_of (setting_in tables.now) (written_tree written.now)) }
    ensures sizes { IfOk result (λ found. IfSome found (IsSized tables.now.types.widths)) }
{
    let widths = tables.types.widths();
    match &written.kind {
        WrittenKind::Unit => Ok(Some(simple(Ty::Unit, 1))),
        WrittenKind::Uint => Ok(Some(simple(Ty::Uint, widths.word))),
        WrittenKind::Bool => Ok(Some(simple(Ty::Bool, 1))),
        WrittenKind::Pair(left, right) => {
            let Some(first) = type_of(alloc, arena, tables, left)? else {
                return Ok(None);
            };
            let Some(second) = type_of(alloc, arena, tables, right)? else {
                return Ok(None);
            };
            Ok(Some(pair(widths, arena, first, second)?))
        }
        WrittenKind::Ptr(to) => match pointer_to(alloc, tables, to)? {
            Some(ty) => Ok(Some(simple(ty, widths.addr))),
            None => Ok(None),
        },
        WrittenKind::Named(name) => Ok(tables.types.get(name)),
    }
}
