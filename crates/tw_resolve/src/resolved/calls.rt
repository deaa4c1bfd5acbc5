//! The types of the targets, functions and variables of a well-typed program.
ghost use Rattle.std.specs.Prelude.{◌≡◌, ◌<◌, Some, is_some, length, option_map, slice_get, IfOk};
ghost use Rattle.tw_syntax.specs.Names.{path_tree};
ghost use Rattle.tw_syntax.specs.Programs.{program_tree};
ghost use Rattle.tw_syntax.specs.Types.{written_tree};
ghost use Rattle.tw_types.specs.FromCode.{ty_of};
ghost use Rattle.tw_types.specs.Types.{Pointer};
ghost use Rattle.tw_resolve.specs.Declarations.{funs_of, is_one_of, target_number};
ghost use Rattle.tw_resolve.specs.Expressions.{texts_of};
ghost use Rattle.tw_resolve.specs.Resolved.{locals_at, param_type_at, params_at, path_type_at, resolved_setting, result_at, type_at, variable_names_at, variables_at};
ghost use Rattle.tw_resolve.specs.Setting.{pointee, type_of};
ghost use Rattle.tw_resolve.specs.Tables.{AreTargets};
ghost use Rattle.tw_resolve.specs.Variables.{variables_in};

use super::Resolved;
use crate::calls::ty_of_written;
use crate::paths::path_type;
use crate::variables::Variables;
use std::alloc::{AllocError, Global};
use tw_syntax::{Path, Written};
use tw_text::Arena;
use tw_types::{TargetId, Targets, Ty};

impl<'a> Resolved<'a> {
    /// The targets of pointers in the order in which they were first seen, each as it is written, and with its type.
    pub fn targets(&self) -> &Targets<'a>
        ensures { ∥ AreTargets (resolved_setting self.now) result.now ∥₁ }
    {
        &self.targets
    }

    /// The variables of the function of this number, with their types: its parameters, in order, and then the targets of its
    /// assignments, in the order of their first assignments. There are more functions.
    pub fn variables(&self, number: usize) -> &Variables<'a>
        requires { number < length (funs_of (program_tree self.now.program.now).decls) }
        ensures types { variables_at (resolved_setting self.now) number ≡ Some (variables_in result.now.table.entries) }
        ensures names { variable_names_at (resolved_setting self.now) number ≡ Some (texts_of (variables_in result.now.table.entries)) }
    {
        &self.variables[number]
    }

    /// The type of a variable of the function of this number. `None` if it has no such variable. There are more functions.
    pub fn type_of(&self, number: usize, name: &str) -> Option<Ty<'a>>
        requires { number < length (funs_of (program_tree self.now.program.now).decls) }
        ensures types { option_map ty_of result ≡ type_at (resolved_setting self.now) number name.now }
        ensures there { option_map (is_one_of name.now) (variable_names_at (resolved_setting self.now) number) ≡ Some (is_some result) }
    {
        self.variables(number).get(name)
    }

    /// The type of a path from a variable of the function of this number. `None` if there is no such variable, or if a step leads
    /// to no half of a pair. There are more functions.
    pub fn type_of_path(&self, number: usize, path: &Path) -> Option<Ty<'a>>
        requires { number < length (funs_of (program_tree self.now.program.now).decls) }
        ensures { option_map ty_of result ≡ path_type_at (resolved_setting self.now) number (path_tree path.now) }
    {
        path_type(self.variables(number), path)
    }

    /// The type of the parameter at this place of the function of this number. There are more functions, and it has more parameters.
    pub fn param_type(&self, number: usize, place: usize) -> Ty<'a>
        requires function { number < length (funs_of (program_tree self.now.program.now).decls) }
        requires param { place < length (params_at (resolved_setting self.now) number) }
        ensures { param_type_at (resolved_setting self.now) number place ≡ Some (ty_of result) }
    {
        let (_, ty) = self.variables(number).at(place);
        ty
    }

    /// The type of the result of the function of this number. There are more functions.
    pub fn result(&self, number: usize) -> Ty<'a>
        requires { number < length (funs_of (program_tree self.now.program.now).decls) }
        ensures { result_at (resolved_setting self.now) number ≡ Some (ty_of result) }
    {
        let fun = self.fun_at(number);
        self.type_of(number, fun.returned.text).unwrap()
    }

    /// The number of local variables of the function of this number: of those that are neither parameters nor returned.
    /// There are more functions.
    pub fn local_count(&self, number: usize) -> usize
        requires { number < length (funs_of (program_tree self.now.program.now).decls) }
        ensures { result ≡ length (locals_at (resolved_setting self.now) number) }
    {
        let fun = self.fun_at(number);
        let variables = self.variables(number);
        variables.number_of(fun.returned.text).unwrap();
        variables.len() - fun.params.len() - 1
    }

    /// The name and the type of the local variable at this place of the function of this number. There are more functions, and it
    /// has more local variables.
    pub fn local(&self, number: usize, place: usize) -> (&'a str, Ty<'a>)
        requires function { number < length (funs_of (program_tree self.now.program.now).decls) }
        requires local { place < length (locals_at (resolved_setting self.now) number) }
        ensures { slice_get (locals_at (resolved_setting self.now) number) place ≡ Some (result.0.now, ty_of result.1) }
    {
        let fun = self.fun_at(number);
        let variables = self.variables(number);
        let returned = variables.number_of(fun.returned.text).unwrap();
        // The length is a `usize`, so no place overflows.
        prove!(place < variables.len());
        let at = fun.params.len() + place;
        if at < returned {
            variables.at(at)
        } else {
            variables.at(at + 1)
        }
    }

    /// The number of the target that is written as this type. `None` if no target is. An error: out of memory.
    pub fn target_of(
        &self,
        alloc: Global,
        written: &Written,
    ) -> Result<Option<TargetId>, AllocError>
        ensures { IfOk result (λ number. option_map (λ id. id.0) number ≡ target_number (resolved_setting self.now).scope.targets (written_tree written.now)) }
    {
        self.tables.targets.number_of(alloc, written)
    }

    /// The type that a target denotes. `None` if there is no such target.
    pub fn pointee(&self, target: TargetId) -> Option<Ty<'a>>
        ensures { option_map ty_of result ≡ pointee (resolved_setting self.now) (Some (Pointer target.0)) }
    {
        if target.0 < self.targets.len() {
            Some(self.targets.ty(target))
        } else {
            None
        }
    }

    /// The type that an alias denotes. `None` if there is no such alias.
    pub fn named_type(&self, name: &str) -> Option<Ty<'a>>
        ensures { option_map ty_of result ≡ (resolved_setting self.now).types name.now }
    {
        match self.tables.types.get(name) {
            Some(sized) => Some(sized.ty),
            None => None,
        }
    }

    /// The type that a written type denotes. `None` if it holds a name that is not declared, or a pointer to a type that is no target
    /// of the program. Pairs are made in the arena. An error: out of memory.
    pub fn type_written(
        &self,
        alloc: Global,
        arena: &'a Arena,
        written: &Written<'a>,
    ) -> Result<Option<Ty<'a>>, AllocError>
        ensures { IfOk result (λ found. option_map ty_of found ≡ type_of (resolved_setting self.now) (written_tree written.now)) }
    {
        ty_of_written(alloc, arena, &self.tables, written)
    }
}
