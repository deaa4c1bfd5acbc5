//! The entry of a program.
ghost use Rattle.std.specs.Prelude.{◌≡◌, None, IfOk, IfErr, OnOk, Some};
ghost use Rattle.tw_syntax.specs.Programs.{program_tree};
ghost use Rattle.tw_resolve.specs.Declarations.{funs_of};
ghost use Rattle.tw_resolve.specs.Demands.{first_broken};
ghost use Rattle.tw_check.specs.EntryPoints.{bad_entry, entry_rules, IsEntryOf};

use crate::checked::Checked;
use tw_text::{Pos, Refusal, Rule};

/// A function of a program, by its number in text order from 0, and the number that its bound has, if it declares one.
#[derive(Debug, Clone, Copy, PartialEq, Eq)]
pub struct Entry {
    pub fun: usize,
    pub bound: Option<u8>,
}

/// The refusal of an entry. What was found: 0, no function has the name; 1, the bound is missing; 2, a bound is given and none is
/// declared.
fn bad_entry(found: u64) -> Refusal
    ensures { result ≡ bad_entry found }
{
    Refusal {
        rule: Rule::BadEntry,
        at: Pos { line: 1, col: 1 },
        found,
        limit: 0,
    }
}

/// The entry of this name, with the number of its bound if one is given. Refused as `bad-entry` if there is no such function, or if
/// it declares a bound and none is given, or the reverse. Takes no memory.
pub fn find_entry(checked: &Checked, name: &str, bound: Option<u8>) -> Result<Entry, Refusal>
    ensures found { IfOk result (IsEntryOf (funs_of (program_tree checked.now.resolved.program.now).decls) name.now bound) }
    ensures kept { OnOk result (first_broken (entry_rules (funs_of (program_tree checked.now.resolved.program.now).decls) name.now bound) ≡ None) }
    ensures refused { IfErr result (λ refusal. first_broken (entry_rules (funs_of (program_tree checked.now.resolved.program.now).decls) name.now bound) ≡ Some refusal) }
{
    let Some(fun) = checked.resolved.fun_named(name) else {
        return Err(bad_entry(0));
    };
    let declared = checked.resolved.fun_at(fun).bound.is_some();
    if declared && bound.is_none() {
        return Err(bad_entry(1));
    }
    if !declared && bound.is_some() {
        return Err(bad_entry(2));
    }
    Ok(Entry { fun, bound })
}
