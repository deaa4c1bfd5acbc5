//! The types of the targets of pointers.
ghost use Rattle.std.specs.Prelude.{◌≡◌, ◌<◌, ◌++◌, ◌∷◌, [], Some, None, length, slice_get, IfOk, OnOk};
ghost use Rattle.std.specs.List.{AllByRecursion};
ghost use Rattle.tw_syntax.specs.Types.{type_print, written_tree};
ghost use Rattle.tw_types.specs.FromCode.{ty_of};
ghost use Rattle.tw_types.specs.Table.{place_of};
ghost use Rattle.tw_resolve.specs.Entries.{table_targets};
ghost use Rattle.tw_resolve.specs.Setting.{IsKnown, type_of};
ghost use Rattle.tw_resolve.specs.Tables.{AreTargets, setting_in};

use crate::calls::ty_of_written;
use crate::tables::Tables;
use crate::target_table::TargetTable;
use std::alloc::{AllocError, Global};
use tw_syntax::Written;
use tw_text::Arena;
use tw_types::{Targets, Ty};

/// The text and the written type of the target of this number. There are more targets.
fn target_at<'a>(targets: &TargetTable<'a>, number: usize) -> (&'a str, &'a Written<'a>)
    requires { number < length (table_targets targets.now.table.entries) }
    ensures written { slice_get (table_targets targets.now.table.entries) number ≡ Some (written_tree result.1.now) }
    ensures text { result.0.now ≡ type_print (written_tree result.1.now) }
{
    let (text, to) = targets.table.get_index(number).unwrap();
    (text, to)
}

/// The type of a written type that has one. An error: out of memory.
fn known_type<'a>(
    alloc: Global,
    arena: &'a Arena,
    tables: &Tables<'a>,
    written: &Written<'a>,
) -> Result<Ty<'a>, AllocError>
    requires { IsKnown (setting_in tables.now) (written_tree written.now) }
    ensures { IfOk result (λ ty. type_of (setting_in tables.now) (written_tree written.now) ≡ Some (ty_of ty)) }
{
    let Some(ty) = ty_of_written(alloc, arena, tables, written)? else {
        unreachable!()
    };
    Ok(ty)
}

/// Adds a target with its type. Its text is new, and there is room for it. An error: out of memory.
fn add_target<'a>(targets: &mut Targets<'a>, text: &'a str, ty: Ty<'a>) -> Result<(), AllocError>
    requires new { place_of text.now targets.old ≡ None }
    requires room { length targets.old < 4294967295 }
    ensures { OnOk result (targets.new ≡ targets.old ++ record { written = text.now; ty = ty_of ty.entry } ∷ []) }
{
    let id = targets.intern(text)?;
    targets.define(id, ty);
    Ok(())
}

/// The targets of a program, in order, each with its type. All have types. An error: out of memory.
pub fn target_types<'a>(
    alloc: Global,
    arena: &'a Arena,
    tables: &Tables<'a>,
) -> Result<Targets<'a>, AllocError>
    requires { AllByRecursion (IsKnown (setting_in tables.now)) (setting_in tables.now).scope.targets }
    ensures { IfOk result (AreTargets (setting_in tables.now)) }
{
    let mut targets = Targets::new(alloc);
    for number in 0..tables.targets.table.len() {
        let (text, to) = target_at(&tables.targets, number);
        let ty = known_type(alloc, arena, tables, to)?;
        add_target(&mut targets, text, ty)?;
    }
    Ok(targets)
}
