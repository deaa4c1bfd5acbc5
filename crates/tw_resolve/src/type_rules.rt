//! The rules of written types: the sizes of types, and the names in them.
ghost use Rattle.std.specs.Prelude.{◌≡◌, ◌<◌, [], ◌∷◌, Some, length, flat_map, option_map, slice_get, IfSome};
ghost use Rattle.tw_syntax.specs.Types.{written_place, written_tree};
ghost use Rattle.tw_syntax.specs.Programs.{alias_tree};
ghost use Rattle.tw_types.specs.FromCode.{ty_of};
ghost use Rattle.tw_resolve.specs.Demands.{Tries, demand_within};
ghost use Rattle.tw_resolve.specs.Setting.{type_of, size_rules, part_rules, written_rules};
ghost use Rattle.tw_resolve.specs.Programs.{alias_rules};
ghost use Rattle.tw_resolve.specs.Entries.{aliases_in};
ghost use Rattle.tw_resolve.specs.Sizes.{IsSized};
ghost use Rattle.tw_resolve.specs.Tables.{setting_in};

use crate::demand::need;
use crate::sizes::SizedTy;
use crate::tables::Tables;
use crate::written::type_of;
use std::alloc::Global;
use tw_syntax::{Alias, Written, WrittenKind};
use tw_text::{Arena, Fault, Pos, Refusal, Rule};
use tw_types::{EXTENT_LIMIT, TYPE_DEPTH_LIMIT};

/// Goes on if a number is within a limit. Otherwise this rule is broken at this place.
pub fn need_within(found: u64, limit: u64, rule: Rule, at: Pos) -> Result<(), Fault>
    ensures { Tries (demand_within rule at found limit ∷ []) result }
{
    if found <= limit {
        Ok(())
    } else {
        Err(Fault::Refused(Refusal {
            rule,
            at,
            found,
            limit,
        }))
    }
}

/// A type, if it is known, is not too deep and not too large.
pub fn check_size(tables: &Tables<'_>, at: Pos, found: Option<SizedTy<'_>>) -> Result<(), Fault>
    requires { IfSome found (IsSized tables.now.types.widths) }
    ensures { Tries (size_rules (setting_in tables.now) at (option_map (λ sized. ty_of sized.ty) found.entry)) result }
{
    match found {
        Some(sized) => {
            need_within(
                sized.depth,
                u64::from(TYPE_DEPTH_LIMIT),
                Rule::TypeTooDeep,
                at,
            )?;
            need_within(
                sized.extent,
                u64::from(EXTENT_LIMIT),
                Rule::TypeTooLarge,
                at,
            )
        }
        None => Ok(()),
    }
}

/// A written type is not too deep and not too large.
#[tactic(auto, using(crate::proofs::Parts::written_place_at))]
fn check_own_size<'a>(
    alloc: Global,
    arena: &'a Arena,
    tables: &Tables<'a>,
    written: &Written<'a>,
) -> Result<(), Fault>
    ensures { Tries (size_rules (setting_in tables.now) (written_place (written_tree written.now)) (type_of (setting_in tables.now) (written_tree written.now))) result }
{
    let found = type_of(alloc, arena, tables, written)?;
    check_size(tables, written.at, found)
}

/// The names in a written type are declared, and no target in it is too deep or too large.
#[tactic(auto, using(crate::proofs::Trying::trying))]
pub fn check_parts<'a>(
    alloc: Global,
    arena: &'a Arena,
    tables: &Tables<'a>,
    written: &Written<'a>,
) -> Result<(), Fault>
    ensures { Tries (part_rules (setting_in tables.now) (written_tree written.now)) result }
{
    match &written.kind {
        WrittenKind::Unit => Ok(()),
        WrittenKind::Uint => Ok(()),
        WrittenKind::Bool => Ok(()),
        WrittenKind::Pair(first, second) => {
            check_parts(alloc, arena, tables, first)?;
            check_parts(alloc, arena, tables, second)
        }
        WrittenKind::Ptr(to) => {
            check_own_size(alloc, arena, tables, to)?;
            check_parts(alloc, arena, tables, to)
        }
        WrittenKind::Named(name) => {
            need(
                tables.aliases.get(name).is_some(),
                Rule::UnknownName,
                written.at,
            )
        }
    }
}

/// A written type keeps the rules of its size, and then those of its parts.
#[tactic(auto, using(crate::proofs::Trying::trying))]
pub fn check_written<'a>(
    alloc: Global,
    arena: &'a Arena,
    tables: &Tables<'a>,
    written: &Written<'a>,
) -> Result<(), Fault>
    ensures { Tries (written_rules (setting_in tables.now) (written_tree written.now)) result }
{
    check_own_size(alloc, arena, tables, written)?;
    check_parts(alloc, arena, tables, written)
}

/// An alias is not too deep and not too large, and neither are the targets in it.
#[tactic(auto, using(crate::proofs::Trying::trying))]
fn check_alias<'a>(
    alloc: Global,
    arena: &'a Arena,
    tables: &Tables<'a>,
    alias: &Alias<'a>,
) -> Result<(), Fault>
    ensures { Tries (alias_rules (setting_in tables.now) (alias_tree alias.now)) result }
{
    check_size(
        tables,
        alias.name.at,
        type_of(alloc, arena, tables, alias.body)?,
    )?;
    check_parts(alloc, arena, tables, alias.body)
}

/// The alias at this place. There are more aliases.
fn alias_at<'a>(tables: &Tables<'a>, place: usize) -> &'a Alias<'a>
    requires { place < length (aliases_in tables.now.aliases.table.entries) }
    ensures { slice_get (aliases_in tables.now.aliases.table.entries) place ≡ Some (alias_tree result.now) }
{
    tables.aliases.table[place]
}

/// All aliases keep the rules of types.
pub fn check_aliases<'a>(alloc: Global, arena: &'a Arena, tables: &Tables<'a>) -> Result<(), Fault>
    ensures { Tries (flat_map (alias_rules (setting_in tables.now)) (aliases_in tables.now.aliases.table.entries)) result }
{
    for place in 0..tables.aliases.table.len() {
        check_alias(alloc, arena, tables, alias_at(tables, place))?;
    }
    Ok(())
}
