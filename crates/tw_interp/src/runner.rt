//! The functions of a program with their numbers.
ghost use Rattle.std.specs.Prelude.{◌≡◌, ◌<◌, Some, IfOk, length, map, slice_get};
ghost use Rattle.std.specs.List.{AllByRecursion};
ghost use Rattle.tw_syntax.specs.Programs.{FunTree, param_tree, program_tree};
ghost use Rattle.tw_resolve.specs.Declarations.{funs_of};
ghost use Rattle.tw_resolve.specs.Resolved.{resolved_setting};
ghost use Rattle.tw_interp.specs.Facts.{bodies_prop};
ghost use Rattle.tw_interp.specs.Numbered.{AreBodies, IsBodyOf, IsKnown, IsTarget, numbered_names};
ghost use Rattle.tw_interp.specs.NumberedTrees.{var_tree};

use crate::numbered::Step;
use crate::numbering::Numbering;
use crate::prepare::prepare;
use crate::variable::Var;
use bumpalo::collections::into_bump_slice;
use std::alloc::{AllocError, Global};
use tw_check::{Checked, Entry};
use tw_resolve::Resolved;
use tw_syntax::Param;
use tw_text::Arena;

/// A function in which names have numbers: its parameters, its returned variable, and its statements.
#[derive(Clone, Copy)]
pub struct Body<'c, 'a> {
    pub params: &'c [Var<'a>],
    pub returned: Var<'a>,
    pub steps: &'c [Step<'c, 'a>],
}

/// An entry of a program that runs on states. Names are looked up once, when the runner is made, and not while it runs.
#[derive(Drop)]
pub struct Runner<'c, 'a> {
    pub alloc: Global,
    pub checked: &'c Checked<'a>,
    pub entry: Entry,
    bodies: Vec<Body<'c, 'a>>,
    pub ghost numbered: { AreBodies (resolved_setting checked.now.resolved) bodies.items } by { bodies_prop (resolved_setting checked.now.resolved) bodies.items },
}

/// The variables of parameters. An error: out of memory.
fn param_vars<'c, 'a>(
    numbering: &Numbering<'c, 'a>,
    params: &[Param<'a>],
) -> Result<&'c [Var<'a>], AllocError>
    ensures tree { IfOk result (λ vars. map var_tree vars.now ≡ map (λ param. param.name) (map param_tree params.now)) }
    ensures number { IfOk result (λ vars. AllByRecursion (IsKnown (numbered_names (resolved_setting numbering.now.program.now) numbering.now.fun)) (map (λ param. param.name.text) (map param_tree params.now))
        → AllByRecursion (IsTarget (numbered_names (resolved_setting numbering.now.program.now) numbering.now.fun)) vars.now) }
{
    let mut vars = Vec::with_capacity(numbering.arena, params.len())?;
    for param in params {
        vars.push(numbering.var(&param.name))?;
    }
    Ok(into_bump_slice(vars))
}

/// The function of this number with its numbers. An error: out of memory.
fn body_of<'c, 'a>(
    alloc: Global,
    arena: &'c Arena,
    program: &'c Resolved<'a>,
    number: usize,
) -> Result<Body<'c, 'a>, AllocError>
    requires { number < length (funs_of (program_tree program.now.program.now).decls) }
    ensures { IfOk result (λ body. (fun : FunTree) → slice_get (funs_of (program_tree program.now.program.now).decls) number ≡ Some fun
        → IsBodyOf (resolved_setting program.now) number fun body) }
{
    let numbering = Numbering {
        alloc,
        arena,
        program,
        fun: number,
    };
    let fun = program.fun_at(number);
    let params = param_vars(&numbering, fun.params)?;
    let returned = numbering.var(&fun.returned);
    let steps = prepare(&numbering, fun.body)?;
    Ok(Body {
        params,
        returned,
        steps,
    })
}

/// The functions of a program with their numbers. An error: out of memory.
fn bodies_of<'c, 'a>(
    alloc: Global,
    arena: &'c Arena,
    program: &'c Resolved<'a>,
) -> Result<Vec<Body<'c, 'a>>, AllocError>
    ensures { IfOk result (λ bodies. AreBodies (resolved_setting program.now) bodies.items) }
{
    let mut bodies = Vec::new(alloc);
    for number in 0..program.fun_count() {
        bodies.push(body_of(alloc, arena, program, number)?)?;
    }
    Ok(bodies)
}

impl<'c, 'a> Runner<'c, 'a> {
    /// Makes an entry ready to run: gives the variables, functions and targets in all functions their numbers. An error: out of memory.
    pub fn new(
        alloc: Global,
        arena: &'c Arena,
        checked: &'c Checked<'a>,
        entry: Entry,
    ) -> Result<Runner<'c, 'a>, AllocError>
        ensures { IfOk result (λ runner. (runner.checked ≡ checked.entry) × (runner.entry ≡ entry)) }
    {
        let bodies = bodies_of(alloc, arena, &checked.resolved)?;
        Ok(Runner {
            alloc,
            checked,
            entry,
            bodies,
        })
    }

    /// The function of this number. There are more functions.
    pub fn body(&self, number: usize) -> Body<'c, 'a>
        requires { number < length (funs_of (program_tree self.now.checked.now.resolved.program.now).decls) }
        ensures { (fun : FunTree) → slice_get (funs_of (program_tree self.now.checked.now.resolved.program.now).decls) number ≡ Some fun
            → IsBodyOf (resolved_setting self.now.checked.now.resolved) number fun result }
    {
        self.bodies[number]
    }
}
