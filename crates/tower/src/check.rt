//! `check`: whether a program is well-typed and reversible.
ghost use Rattle.std.specs.Prelude.{◌≤◌, length};
ghost use Rattle.tw_text.specs.declared.limits.TheConstants.{INPUT_LIMIT};
ghost use Rattle.tower.specs.Check.{CheckAnswer};
ghost use Rattle.tower.specs.Sources.{SourceAnswer};
ghost use Rattle.tower.specs.Ending.{Did};

use crate::accept::accept;
use crate::ending::Unanswered;
use bumpalo::Bump;
use std::alloc::Global;
use tw_io::{Sink, write_all};
use tw_text::Arena;
use tw_types::Widths;

/// Writes `ok` if the bytes are the source of a well-typed and reversible program. Otherwise the first broken rule is the refusal.
pub fn check<K: Sink>(
    alloc: Global,
    widths: Widths,
    bytes: &[u8],
    output: &mut K,
) -> Result<(), Unanswered>
    requires { length bytes.now ≤ INPUT_LIMIT }
    ensures { Did K.taken K.faults output.old output.new result (SourceAnswer bytes.now (CheckAnswer widths)) }
{
    let arena: Arena = Bump::new(alloc);
    accept(alloc, &arena, widths, bytes)?;
    write_all(output, b"ok\n")?;
    Ok(())
}
