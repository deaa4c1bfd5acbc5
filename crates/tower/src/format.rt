//! `format`: a program in its printed form.
ghost use Rattle.std.specs.Prelude.{◌≤◌, length};
ghost use Rattle.tw_text.specs.declared.limits.TheConstants.{INPUT_LIMIT};
ghost use Rattle.tower.specs.Format.{FormatAnswer};
ghost use Rattle.tower.specs.Sources.{SourceAnswer};
ghost use Rattle.tower.specs.Ending.{Did};

use crate::ending::Unanswered;
use bumpalo::Bump;
use std::alloc::Global;
use tw_io::{Sink, VecSink, write_all};
use tw_parse::parse;
use tw_print::print_program;
use tw_text::Arena;

/// Writes the printed form of the program whose source the bytes are. The text is composed in memory and written as one piece.
pub fn format<K: Sink>(alloc: Global, bytes: &[u8], output: &mut K) -> Result<(), Unanswered>
    requires { length bytes.now ≤ INPUT_LIMIT }
    ensures { Did K.taken K.faults output.old output.new result (SourceAnswer bytes.now FormatAnswer) }
{
    let arena: Arena = Bump::new(alloc);
    let program = parse(alloc, &arena, bytes)?;
    let mut text = VecSink::new(alloc);
    let Ok(()) = print_program(program, &mut text) else {
        return Err(Unanswered::Memory);
    };
    write_all(output, text.taken())?;
    Ok(())
}
