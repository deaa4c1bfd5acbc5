//! The numbers of names in a function.
ghost use Rattle.std.specs.Prelude.{◌≡◌, ◌<◌, IfOk, length, map, option_map};
ghost use Rattle.std.specs.List.{AllByRecursion};
ghost use Rattle.tw_syntax.specs.Names.{name_tree, path_tree};
ghost use Rattle.tw_syntax.specs.Programs.{program_tree};
ghost use Rattle.tw_syntax.specs.Terms.{atom_tree, expr_tree, rhs_tree};
ghost use Rattle.tw_resolve.specs.Declarations.{AreDifferent, funs_of};
ghost use Rattle.tw_resolve.specs.Expressions.{type_at_path};
ghost use Rattle.tw_resolve.specs.Resolved.{resolved_setting, type_at};
ghost use Rattle.tw_check.specs.Liveness.{rhs_names, texts};
ghost use Rattle.tw_interp.specs.Numbered.{IsFormula, IsKnown, IsOperand, IsSource, IsTarget, IsVar, numbered_names, target_of};
ghost use Rattle.tw_interp.specs.NumberedTrees.{formula_tree, operand_tree, source_tree, var_path_tree, var_tree};

use crate::formula::{Formula, FormulaKind, Operand, OperandKind};
use crate::numbered::Source;
use crate::variable::{Var, VarPath};
use bumpalo::collections::into_bump_slice;
use std::alloc::{AllocError, Global};
use tw_resolve::Resolved;
use tw_syntax::{Atom, AtomKind, Expr, ExprKind, Name, Path, Rhs};
use tw_text::Arena;
use tw_types::{TargetId, Ty};

/// A function of a program whose names get numbers.
#[derive(Clone, Copy)]
pub struct Numbering<'c, 'a> {
    pub alloc: Global,
    pub arena: &'c Arena,
    pub program: &'c Resolved<'a>,
    /// The number of the function.
    pub fun: usize,
    pub ghost in_program: { fun < length (funs_of (program_tree program.now.program.now).decls) },
}

impl<'c, 'a> Numbering<'c, 'a> {
    /// The variable of a name.
    pub fn var(&self, name: &Name<'a>) -> Var<'a>
        ensures tree { var_tree result ≡ name_tree name.now }
        ensures number { IsVar (numbered_names (resolved_setting self.now.program.now) self.now.fun) result }
        ensures different { AreDifferent (numbered_names (resolved_setting self.now.program.now) self.now.fun) }
    {
        Var {
            name: *name,
            slot: self.program.variables(self.fun).number_of(name.text),
        }
    }

    /// A path from a variable.
    pub fn path(&self, path: &Path<'a>) -> VarPath<'a>
        ensures tree { var_path_tree result ≡ path_tree path.now }
        ensures number { IsVar (numbered_names (resolved_setting self.now.program.now) self.now.fun) result.root }
    {
        VarPath {
            root: self.var(&path.root),
            steps: path.steps,
        }
    }

    /// The number of the target of a pointer. `None` if the path leads to no pointer.
    pub fn pointed(&self, pointer: &Path) -> Option<TargetId>
        ensures { option_map (λ id. id.0) result ≡ target_of (type_at_path (type_at (resolved_setting self.now.program.now) self.now.fun) (path_tree pointer.now)) }
    {
        match self.program.type_of_path(self.fun, pointer) {
            Some(Ty::Ptr(target)) => Some(target),
            _ => None,
        }
    }

    /// An atom.
    fn operand(&self, atom: &Atom<'a>) -> Operand<'a>
        ensures tree { operand_tree result ≡ atom_tree atom.now }
        ensures number { IsOperand (numbered_names (resolved_setting self.now.program.now) self.now.fun) result }
    {
        let kind = match &atom.kind {
            AtomKind::Place(path) => OperandKind::Place(self.path(path)),
            AtomKind::Number(number) => OperandKind::Number(*number),
            AtomKind::True => OperandKind::True,
            AtomKind::False => OperandKind::False,
            AtomKind::Unit => OperandKind::Unit,
            AtomKind::Null(to) => OperandKind::Null(to),
            AtomKind::Zero(ty) => OperandKind::Zero(ty),
        };
        Operand { at: atom.at, kind }
    }

    /// An expression.
    fn formula(&self, expr: &Expr<'a>) -> Formula<'a>
        ensures tree { formula_tree result ≡ expr_tree expr.now }
        ensures number { IsFormula (numbered_names (resolved_setting self.now.program.now) self.now.fun) result }
    {
        let kind = match &expr.kind {
            ExprKind::One(x) => FormulaKind::One(self.operand(x)),
            ExprKind::Two(x, y) => FormulaKind::Two(self.operand(x), self.operand(y)),
            ExprKind::Not(x) => FormulaKind::Not(self.operand(x)),
            ExprKind::Op(operator, x, y) => {
                FormulaKind::Op(*operator, self.operand(x), self.operand(y))
            }
        };
        Formula { at: expr.at, kind }
    }

    /// The variables of names. An error: out of memory.
    pub fn vars(&self, names: &[Name<'a>]) -> Result<&'c [Var<'a>], AllocError>
        ensures tree { IfOk result (λ vars. map var_tree vars.now ≡ map name_tree names.now) }
        ensures number { IfOk result (λ vars. AllByRecursion (IsKnown (numbered_names (resolved_setting self.now.program.now) self.now.fun)) (texts (map name_tree names.now)) → AllByRecursion (IsTarget (numbered_names (resolved_setting self.now.program.now) self.now.fun)) vars.now) }
    {
        let mut vars = Vec::with_capacity(self.arena, names.len())?;
        for name in names {
            vars.push(self.var(name))?;
        }
        Ok(into_bump_slice(vars))
    }

    /// The right side of a `let`. An error: out of memory.
    pub fn source(&self, rhs: &Rhs<'a>) -> Result<Source<'c, 'a>, AllocError>
        ensures tree { IfOk result (λ source. source_tree source ≡ rhs_tree rhs.now) }
        ensures number { IfOk result (λ source. AllByRecursion (IsKnown (numbered_names (resolved_setting self.now.program.now) self.now.fun)) (texts (rhs_names (rhs_tree rhs.now))) → IsSource (resolved_setting self.now.program.now) (numbered_names (resolved_setting self.now.program.now) self.now.fun) source) }
    {
        match rhs {
            Rhs::Expr(expr) => Ok(Source::Formula(self.formula(expr))),
            Rhs::Call {
                callee,
                bound,
                args,
            } => Ok(Source::Call {
                callee: *callee,
                number: self.program.fun_named(callee.text),
                bound: *bound,
                args: self.vars(args)?,
            }),
            Rhs::Alloc(written) => Ok(Source::Alloc {
                written,
                target: self.program.target_of(self.alloc, written)?,
            }),
        }
    }
}
