//! A function of a program.
ghost use Rattle.std.specs.Prelude.{◌<◌, length};
ghost use Rattle.tw_syntax.specs.Programs.{program_tree};
ghost use Rattle.tw_resolve.specs.Declarations.{funs_of};

use tw_resolve::Resolved;

/// A function of a program, by its number.
#[derive(Drop)]
pub struct Body<'c, 'a> {
    pub program: &'c Resolved<'a>,
    pub fun: usize,
    pub ghost in_program: { fun < length (funs_of (program_tree program.now.program.now).decls) },
}
