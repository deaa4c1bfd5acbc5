//! The search for the types of aliases: depth first, on a stack of its own.
ghost use Rattle.std.specs.Prelude.{◌≡◌, ◌+◌, ◌<◌, ◌||◌, [], ◌∷◌, ◌++◌, Some, true, false, not, is_some, if◌then◌else◌, MatchOption, IfOk, OnOk, IfErr};
ghost use Rattle.std.specs.Str.{bytes_eq};
ghost use Rattle.std.specs.List.{AllByRecursion};
ghost use Rattle.tw_syntax.specs.Types.{written_tree};
ghost use Rattle.tw_resolve.specs.Declarations.{Name, declared_as};
ghost use Rattle.tw_resolve.specs.Denotes.{names_outside_pointers};
ghost use Rattle.tw_resolve.specs.Entries.{aliases_in};
ghost use Rattle.tw_resolve.specs.AliasTypes.{AreDenoted, AreResolvedIn, IsRecursionFaultIn, IsResolved, KeepsNames};
ghost use Rattle.tw_resolve.specs.Searches.{names_in, task_tree, tasks_in, body_tasks, Visit, HasType, IsFinding, IsSearching, Finishes, steps_left};
ghost use Rattle.tw_resolve.specs.Tables.{setting_in};

use crate::alias_table::AliasTable;
use crate::name_set::NameSet;
use crate::recursion::refuse_recursion;
use crate::tables::Tables;
use crate::written::type_of;
use std::alloc::{AllocError, Global};
use tw_syntax::{Written, WrittenKind};
use tw_text::{Arena, Fault};

/// What the search has yet to do.
#[derive(Clone, Copy)]
pub enum Task<'a> {
    /// Find the types of the names in a written type.
    Visit(&'a Written<'a>),
    /// Find the type of an alias, by its name and its body. The names in its body have types by then.
    Finish(&'a str, &'a Written<'a>),
}

/// A search: the aliases that were opened, and what is yet to do, the next at the end.
#[derive(Drop)]
pub struct Search<'a> {
    opened: NameSet<'a>,
    tasks: Vec<Task<'a>>,
}

impl<'a> Search<'a> {
    /// A search with nothing to do.
    pub fn new(alloc: Global) -> Search<'a>
        ensures tasks { tasks_in result.tasks.items ≡ [] }
        ensures opened { (name : Name) → names_in result.opened.set.keys name ≡ false }
    {
        Search {
            opened: NameSet::new(alloc),
            tasks: Vec::new(alloc),
        }
    }

    /// Adds a task, to be done next. An error: out of memory.
    fn push(&mut self, task: Task<'a>) -> Result<(), AllocError>
        ensures opened { self.new.opened ≡ self.old.opened }
        ensures tasks { OnOk result (tasks_in self.new.tasks.items ≡ task_tree task.entry ∷ tasks_in self.old.tasks.items) }
    {
        self.tasks.push(task)?;
        Ok(())
    }

    /// Takes the next task.
    fn pop(&mut self) -> Option<Task<'a>>
        ensures opened { self.new.opened ≡ self.old.opened }
        ensures tasks { MatchOption result (tasks_in self.old.tasks.items ≡ []) (λ task. tasks_in self.old.tasks.items ≡ task_tree task ∷ tasks_in self.new.tasks.items) }
        ensures done { MatchOption result (tasks_in self.new.tasks.items ≡ []) (λ task. Unit {0}) }
    {
        self.tasks.pop()
    }

    /// Opens the alias of this name: its body is visited, and then it is finished. `false` if it was opened before.
    /// An error: out of memory.
    fn open(&mut self, aliases: &AliasTable<'a>, name: &'a str) -> Result<bool, AllocError>
        requires { is_some (declared_as (aliases_in aliases.now.table.entries) name.now) ≡ true }
        ensures new { IfOk result (λ is_new. is_new ≡ not (names_in self.old.opened.set.keys name.now)) }
        ensures opened { OnOk result ((other : Name) → names_in self.new.opened.set.keys other ≡ (names_in self.old.opened.set.keys other || bytes_eq other name.now)) }
        ensures tasks { IfOk result (λ is_new. tasks_in self.new.tasks.items ≡ (if is_new then body_tasks name.now (declared_as (aliases_in aliases.now.table.entries) name.now) else []) ++ tasks_in self.old.tasks.items) }
    {
        if !self.opened.add(name)? {
            return Ok(false);
        }
        let body = aliases.get(name).unwrap();
        self.push(Task::Finish(name, body))?;
        self.push(Task::Visit(body))?;
        Ok(true)
    }
}

/// Visits a written type. Refused at the first alias that contains itself, if some alias does that is met here.
fn visit<'a>(
    alloc: Global,
    tables: &Tables<'a>,
    search: &mut Search<'a>,
    written: &'a Written<'a>,
) -> Result<(), Fault>
    requires resolved { AreResolvedIn tables.now }
    requires state { IsSearching (setting_in tables.now).scope (setting_in tables.now).types (names_in search.old.opened.set.keys) (Visit (written_tree written.now) ∷ tasks_in search.old.tasks.items) }
    ensures state { OnOk result (IsSearching (setting_in tables.now).scope (setting_in tables.now).types (names_in search.new.opened.set.keys) (tasks_in search.new.tasks.items)) }
    ensures opened { OnOk result ((name : Name) → names_in search.old.opened.set.keys name ≡ true → names_in search.new.opened.set.keys name ≡ true) }
    ensures smaller { OnOk result (steps_left tables.now (names_in search.new.opened.set.keys) (tasks_in search.new.tasks.items) < steps_left tables.now (names_in search.old.opened.set.keys) (Visit (written_tree written.now) ∷ tasks_in search.old.tasks.items)) }
    ensures refused { IfErr result (IsRecursionFaultIn tables.now) }
{
    match &written.kind {
        WrittenKind::Unit => Ok(()),
        WrittenKind::Uint => Ok(()),
        WrittenKind::Bool => Ok(()),
        WrittenKind::Ptr(_) => Ok(()),
        WrittenKind::Pair(first, second) => {
            search.push(Task::Visit(second))?;
            search.push(Task::Visit(first))?;
            Ok(())
        }
        WrittenKind::Named(name) => {
            if tables.types.get(name).is_some() {
                return Ok(());
            }
            if search.open(&tables.aliases, name)? {
                return Ok(());
            }
            Err(refuse_recursion(alloc, &tables.aliases))
        }
    }
}

/// Finds the type of an alias. An error: out of memory.
fn finish<'a>(
    alloc: Global,
    arena: &'a Arena,
    tables: &mut Tables<'a>,
    name: &'a str,
    body: &'a Written<'a>,
) -> Result<(), AllocError>
    requires declared { (setting_in tables.old).scope.declared name.now ≡ Some (written_tree body.now) }
    requires resolved { IsResolved (setting_in tables.old).scope (written_tree body.now) }
    requires parts { (other : Name) → names_outside_pointers (written_tree body.now) other ≡ true → HasType (setting_in tables.old).types other }
    requires denoted { AreDenoted (setting_in tables.old).scope (setting_in tables.old).types }
    ensures kept { KeepsNames tables.old tables.new }
    ensures found { OnOk result (Finishes (setting_in tables.old).scope name.now (setting_in tables.old).types (setting_in tables.new).types) }
{
    let Some(sized) = type_of(alloc, arena, tables, body)? else {
        unreachable!()
    };
    tables.types.put(name, sized)?;
    Ok(())
}

/// Does all that a search has yet to do. Refused at the first alias that contains itself, if some alias does that is met here.
fn run<'a>(
    alloc: Global,
    arena: &'a Arena,
    tables: &mut Tables<'a>,
    search: &mut Search<'a>,
) -> Result<(), Fault>
    requires resolved { AreResolvedIn tables.old }
    requires state { IsFinding tables.old search.old }
    ensures kept { KeepsNames tables.old tables.new }
    ensures state { OnOk result (IsFinding tables.new search.new) }
    ensures done { OnOk result (tasks_in search.new.tasks.items ≡ []) }
    ensures opened { OnOk result ((name : Name) → names_in search.old.opened.set.keys name ≡ true → names_in search.new.opened.set.keys name ≡ true) }
    ensures refused { IfErr result (IsRecursionFaultIn tables.old) }
{
    while let Some(task) = search.pop() {
        match task {
            Task::Visit(written) => visit(alloc, tables, search, written)?,
            Task::Finish(name, body) => finish(alloc, arena, tables, name, body)?,
        }
    }
    Ok(())
}

/// Finds the types of an alias and of those that it leads to, as far as they are not found yet. There is nothing to do before and after.
/// Refused at the first alias that contains itself, if some alias does that is met here.
pub fn find_type<'a>(
    alloc: Global,
    arena: &'a Arena,
    tables: &mut Tables<'a>,
    search: &mut Search<'a>,
    name: &'a str,
) -> Result<(), Fault>
    requires resolved { AreResolvedIn tables.old }
    requires declared { is_some (declared_as (aliases_in tables.old.aliases.table.entries) name.now) ≡ true }
    requires state { IsFinding tables.old search.old }
    requires done { tasks_in search.old.tasks.items ≡ [] }
    ensures kept { KeepsNames tables.old tables.new }
    ensures state { OnOk result (IsFinding tables.new search.new) }
    ensures done { OnOk result (tasks_in search.new.tasks.items ≡ []) }
    ensures opened { OnOk result ((other : Name) → names_in search.old.opened.set.keys other ≡ true → names_in search.new.opened.set.keys other ≡ true) }
    ensures named { OnOk result (names_in search.new.opened.set.keys name.now ≡ true) }
    ensures refused { IfErr result (IsRecursionFaultIn tables.old) }
{
    if !search.open(&tables.aliases, name)? {
        return Ok(());
    }
    run(alloc, arena, tables, search)?;
    Ok(())
}
