//! A function that runs.
ghost use Rattle.std.specs.Prelude.{◌<◌, length};
ghost use Rattle.tw_syntax.specs.Programs.{program_tree};
ghost use Rattle.tw_resolve.specs.Declarations.{funs_of};

use crate::runner::Runner;

/// A function of a program that runs.
#[derive(Drop)]
pub struct Activation<'r, 'c, 'a> {
    pub runner: &'r Runner<'c, 'a>,
    /// The number of the function.
    pub fun: usize,
    /// The number that its bound has, or 0 if it declares none.
    pub bound: u8,
    pub ghost in_program: { fun < length (funs_of (program_tree runner.now.checked.now.resolved.program.now).decls) },
}
