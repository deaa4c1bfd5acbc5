//! Programs for the tests of layouts and of states.
use std::alloc::Global;
use tw_check::{Checked, check};
use tw_parse::parse;
use tw_resolve::resolve;
use tw_text::{Arena, Fault, INPUT_LIMIT};
use tw_types::Widths;

/// The program of a text that is no longer than an input.
pub fn checked<'a>(
    alloc: Global,
    arena: &'a Arena,
    widths: Widths,
    text: &'a str,
) -> Result<Checked<'a>, Fault> {
    if text.len() as u64 > INPUT_LIMIT {
        return Err(Fault::Memory);
    }
    let program = parse(alloc, arena, text.as_bytes())?;
    check(alloc, resolve(alloc, arena, program, widths)?)
}
