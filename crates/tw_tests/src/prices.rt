//! The prices of entries, with ample memory.
use crate::layouts::{Case, UNDER_IF, length};
use crate::programs::checked;
use bumpalo::Bump;
use std::alloc::Global;
use std::test::Fail;
use tw_check::find_entry;
use tw_code::Options;
use tw_cost::price;
use tw_gate::Level;
use tw_text::{Counted, Fault, Pos, Refusal};
use tw_types::Widths;

/// The wires, the lines, the Toffoli gates and the T-count of a circuit.
type Numbers = (u32, u64, u64, u64);

/// What the circuit of an entry costs.
fn numbers(alloc: Global, case: Case, options: Options, level: Level) -> Result<Numbers, Fault> {
    let arena = Bump::new(alloc);
    let widths = Widths::new(case.word, case.addr).ok_or(Fault::Memory)?;
    let checked = checked(alloc, &arena, widths, case.text)?;
    let entry = match find_entry(&checked, case.name, case.bound) {
        Ok(entry) => entry,
        Err(refusal) => return Err(Fault::Refused(refusal)),
    };
    let found = price(alloc, &checked, entry, options, level)?;
    Ok((
        found.layout.wires,
        found.lines,
        found.toffolis,
        found.t_count,
    ))
}

fn passed(counted: Counted, found: u64) -> Result<Numbers, Fault> {
    let at = Pos { line: 1, col: 1 };
    Err(Fault::Refused(Refusal::passed(counted, found, at)))
}

#[test]
fn entries_are_priced(rt: HostRuntime) -> Result<(), Fail> {
    let both = Options {
        flatten: true,
        narrow: true,
    };
    let neither = Options {
        flatten: false,
        narrow: false,
    };
    let table = [
        ((UNDER_IF, both, Level::Tof), Ok((10, 9, 3, 21))),
        ((UNDER_IF, both, Level::T), Ok((10, 51, 3, 21))),
        (
            (length(2, 2, 1), neither, Level::Mcx),
            Ok((35, 160, 100, 700)),
        ),
        (
            (length(8, 4, 10), both, Level::Mcx),
            Ok((496, 15_136, 7_576, 53_032)),
        ),
        (
            (length(2, 2, 250), neither, Level::Mcx),
            passed(Counted::Controls, 252),
        ),
        (
            (length(2, 2, 251), neither, Level::Mcx),
            passed(Counted::Depth, 1_004),
        ),
    ];
    for ((case, options, level), wanted) in table {
        let given = numbers(rt.alloc(), case, options, level);
        assert!(rt; given == wanted, "{}", case.name);
    }
    Ok(())
}
