//! The refusal of aliases that contain themselves.
ghost use Rattle.std.specs.Prelude.{◌≡◌, ◌<◌, ◌||◌, ◌∷◌, ◌++◌, Some, Decides, length, slice_get, IfOk, OnOk};
ghost use Rattle.std.specs.Str.{bytes_eq};
ghost use Rattle.tw_syntax.specs.Programs.{alias_tree};
ghost use Rattle.tw_syntax.specs.Types.{written_tree};
ghost use Rattle.tw_resolve.specs.Declarations.{Name, declared_as};
ghost use Rattle.tw_resolve.specs.Denotes.{IsRecursive};
ghost use Rattle.tw_resolve.specs.Entries.{aliases_in};
ghost use Rattle.tw_resolve.specs.AliasTypes.{HasRecursion, IsFirstRecursion, IsRecursionFault};
ghost use Rattle.tw_resolve.specs.Reaching.{new_body, waiting_in};
ghost use Rattle.tw_resolve.specs.Searches.{names_in};

use crate::alias_table::AliasTable;
use crate::name_set::NameSet;
use std::alloc::{AllocError, Global};
use tw_syntax::{Alias, Written, WrittenKind};
use tw_text::{Fault, Refusal, Rule};

/// The alias at this place in text order.
pub fn alias_at<'a>(aliases: &AliasTable<'a>, place: usize) -> &'a Alias<'a>
    requires { place < length aliases.now.table.entries }
    ensures { slice_get (aliases_in aliases.now.table.entries) place ≡ Some (alias_tree result.now) }
{
    let (_, alias) = aliases.table.get_index(place).unwrap();
    alias
}

/// Adds the body of an alias to what waits, if its name is a new one. An error: out of memory.
fn follow<'a>(
    aliases: &AliasTable<'a>,
    reached: &mut NameSet<'a>,
    waiting: &mut Vec<&'a Written<'a>>,
    name: &'a str,
) -> Result<(), AllocError>
    ensures reached { OnOk result ((other : Name) → names_in reached.new.set.keys other ≡ (names_in reached.old.set.keys other || bytes_eq other name.now)) }
    ensures waiting { OnOk result (waiting_in waiting.new.items ≡ new_body (declared_as (aliases_in aliases.now.table.entries)) (names_in reached.old.set.keys) name.now ++ waiting_in waiting.old.items) }
{
    if !reached.add(name)? {
        return Ok(());
    }
    match aliases.get(name) {
        Some(body) => waiting.push(body)?,
        None => {}
    }
    Ok(())
}

/// Adds both halves of a pair to what waits. An error: out of memory.
fn push_halves<'a>(
    waiting: &mut Vec<&'a Written<'a>>,
    first: &'a Written<'a>,
    second: &'a Written<'a>,
) -> Result<(), AllocError>
    ensures { OnOk result (waiting_in waiting.new.items ≡ written_tree first.now ∷ written_tree second.now ∷ waiting_in waiting.old.items) }
{
    waiting.push(second)?;
    waiting.push(first)?;
    Ok(())
}

/// Whether the alias of this name contains itself outside pointers. An error: out of memory.
fn contains_itself<'a>(
    alloc: Global,
    aliases: &AliasTable<'a>,
    name: &str,
) -> Result<bool, AllocError>
    ensures { IfOk result (λ is. Decides is (IsRecursive (declared_as (aliases_in aliases.now.table.entries)) name.now)) }
{
    let Some(body) = aliases.get(name) else {
        return Ok(false);
    };
    let mut reached = NameSet::new(alloc);
    let mut waiting = Vec::new(alloc);
    waiting.push(body)?;
    while let Some(written) = waiting.pop() {
        match &written.kind {
            WrittenKind::Unit => {}
            WrittenKind::Uint => {}
            WrittenKind::Bool => {}
            WrittenKind::Ptr(_) => {}
            WrittenKind::Pair(first, second) => {
                push_halves(&mut waiting, first, second)?;
            }
            WrittenKind::Named(next) => {
                if *next == name {
                    return Ok(true);
                }
                follow(aliases, &mut reached, &mut waiting, next)?;
            }
        }
    }
    Ok(false)
}

/// The refusal of the first alias, in text order, that contains itself. One does. Each alias before it is searched on its own, which
/// may take quadratic time in a program that is refused. An error: out of memory.
fn first_recursion(alloc: Global, aliases: &AliasTable<'_>) -> Result<Refusal, AllocError>
    requires { HasRecursion (declared_as (aliases_in aliases.now.table.entries)) }
    ensures { IfOk result (IsFirstRecursion (declared_as (aliases_in aliases.now.table.entries)) (aliases_in aliases.now.table.entries)) }
{
    for place in 0..aliases.table.len() {
        let alias = alias_at(aliases, place);
        if contains_itself(alloc, aliases, alias.name.text)? {
            return Ok(Refusal::broken(Rule::RecursiveType, alias.name.at));
        }
    }
    unreachable!()
}

/// The refusal of the first alias, in text order, that contains itself, or out of memory. One does.
pub fn refuse_recursion(alloc: Global, aliases: &AliasTable<'_>) -> Fault
    requires { HasRecursion (declared_as (aliases_in aliases.now.table.entries)) }
    ensures { IsRecursionFault (declared_as (aliases_in aliases.now.table.entries)) (aliases_in aliases.now.table.entries) result }
{
    match first_recursion(alloc, aliases) {
        Ok(refusal) => Fault::Refused(refusal),
        Err(_) => Fault::Memory,
    }
}
