//! Programs that the rules of the language accept.
ghost use Rattle.std.specs.Prelude.{◌≡◌, ◌≤◌, length, IfOk, IfErr, Err};
ghost use Rattle.tw_syntax.specs.Programs.{program_tree};
ghost use Rattle.tw_text.specs.declared.limits.TheConstants.{INPUT_LIMIT};
ghost use Rattle.tower.specs.Accepted.{IsAccepted, IsFoundBroken};
ghost use Rattle.tw_parse.specs.Sources.{IsSource};

use std::alloc::Global;
use tw_check::Checked;
use tw_parse::parse;
use tw_resolve::resolve;
use tw_text::{Arena, Fault};
use tw_types::Widths;

/// The program whose source the bytes are. A fault: the source or the program is refused by the first rule that it breaks, or
/// memory ran out.
pub fn accept<'a>(
    alloc: Global,
    arena: &'a Arena,
    widths: Widths,
    bytes: &'a [u8],
) -> Result<Checked<'a>, Fault>
    requires { length bytes.now ≤ INPUT_LIMIT }
    ensures source { IfOk result (λ checked. IsSource bytes.now (program_tree checked.resolved.program.now)) }
    ensures accepted { IfOk result (λ checked. IsAccepted widths (program_tree checked.resolved.program.now)) }
    ensures widths { IfOk result (λ checked. checked.resolved.tables.types.widths ≡ widths) }
    ensures refused { IfErr result (IsFoundBroken widths bytes.now) }
{
    let program = parse(alloc, arena, bytes)?;
    let resolved = resolve(alloc, arena, program, widths)?;
    tw_check::check(alloc, resolved)
}
