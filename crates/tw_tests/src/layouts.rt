//! How much entries run, and the layouts of their wires, with ample memory.
use crate::programs::checked;
use bumpalo::Bump;
use std::alloc::Global;
use std::test::Fail;
use tw_check::find_entry;
use tw_code::Options;
use tw_frames::{Measured, WireLayout, layout, measure};
use tw_gate::Level;
use tw_ground::LIST_SOURCE;
use tw_text::{Counted, Fault, Pos, Refusal};
use tw_types::Widths;

/// An entry of a program that is measured and laid out, with words and addresses of these widths.
#[derive(Clone, Copy)]
pub struct Case {
    pub word: u32,
    pub addr: u32,
    pub text: &'static str,
    pub name: &'static str,
    pub bound: Option<u8>,
}

pub const UNDER_IF: Case = Case {
    word: 1,
    addr: 1,
    text: "fun main(a: bool, b: bool, d: bool) -> bool { if a { let c <- b && d; } return c; }",
    name: "main",
    bound: None,
};

/// The length of a list, with this bound.
pub fn length(word: u32, addr: u32, bound: u8) -> Case {
    Case {
        word,
        addr,
        text: LIST_SOURCE,
        name: "length",
        bound: Some(bound),
    }
}

/// The entry of a program in which each bound runs the smaller one twice.
fn doubling(bound: u8) -> Case {
    Case {
        word: 1,
        addr: 1,
        text: "fun g[n](x: bool) -> bool { with { { { let t <- g[n - 1](x); } } } do { let y <- t; } return y; }",
        name: "g",
        bound: Some(bound),
    }
}

/// How much an entry runs, and the layout of its wires if no gate has more controls than the last argument.
fn laid_out(
    alloc: Global,
    case: Case,
    flatten: bool,
    level: Level,
    most_controls: u32,
) -> Result<(Measured, WireLayout), Fault> {
    let arena = Bump::new(alloc);
    let widths = Widths::new(case.word, case.addr).ok_or(Fault::Memory)?;
    let checked = checked(alloc, &arena, widths, case.text)?;
    let entry = match find_entry(&checked, case.name, case.bound) {
        Ok(entry) => entry,
        Err(refusal) => return Err(Fault::Refused(refusal)),
    };
    let measured = measure(alloc, &checked, entry)?;
    let options = Options {
        flatten,
        narrow: true,
    };
    match layout(&checked, entry, &measured, options, level, most_controls) {
        Ok(layout) => Ok((measured, layout)),
        Err(refusal) => Err(Fault::Refused(refusal)),
    }
}

/// The statements, the depth and the depth of `if`s; the wires of a block; the first wires of the parameters, the result, the frames,
/// the scratch, the flags and the ladder; all wires.
fn found(counts: [u64; 3], wires: [u32; 8]) -> Result<(Measured, WireLayout), Fault> {
    let [statements, depth, if_depth] = counts;
    let [block, args, out, frame, scratch, flags, ladder, wires] = wires;
    let measured = Measured {
        statements,
        depth,
        if_depth,
    };
    let layout = WireLayout {
        block,
        args,
        out,
        frame,
        scratch,
        flags,
        ladder,
        wires,
    };
    Ok((measured, layout))
}

fn passed(counted: Counted, found: u64) -> Result<(Measured, WireLayout), Fault> {
    let at = Pos { line: 1, col: 1 };
    Err(Fault::Refused(Refusal::passed(counted, found, at)))
}

#[test]
fn entries_are_laid_out(rt: HostRuntime) -> Result<(), Fail> {
    let table = [
        (
            (UNDER_IF, true, Level::T, 3),
            found([2, 2, 1], [1, 2, 5, 6, 7, 9, 9, 10]),
        ),
        (
            (length(2, 2, 2), true, Level::Mcx, 0),
            found([30, 8, 2], [4, 14, 18, 20, 40, 45, 46, 46]),
        ),
        (
            (length(8, 4, 10), false, Level::Mcx, 0),
            found([150, 40, 10], [12, 184, 196, 204, 464, 487, 487, 487]),
        ),
        (
            (length(2, 2, 251), true, Level::Mcx, 0),
            passed(Counted::Depth, 1_004),
        ),
        (
            (doubling(255), true, Level::Mcx, 0),
            passed(Counted::Statements, u64::MAX),
        ),
        (
            (UNDER_IF, true, Level::Tof, u32::MAX),
            passed(Counted::Wires, 4_294_967_302),
        ),
    ];
    for ((case, flatten, level, most_controls), wanted) in table {
        let given = laid_out(rt.alloc(), case, flatten, level, most_controls);
        assert!(rt; given == wanted, "{} {most_controls}", case.name);
    }
    Ok(())
}
