//! States of lists, made and renamed with ample memory.
ghost use Rattle.std.specs.Prelude.{◌<◌};
ghost use Rattle.std.specs.List.{AllByRecursion};
ghost use Rattle.tw_state.specs.Renamings.{IsPermutation};

use crate::programs::checked;
use bumpalo::Bump;
use std::alloc::Global;
use std::test::Fail;
use tw_check::find_entry;
use tw_ground::{Ground, GroundFault, list_state, source_of};
use tw_io::VecSink;
use tw_state::{Side, State, print_state, rename, typed, well_formed};
use tw_types::Widths;

/// Words of 3 bits, and addresses of 2: three blocks.
const WIDTHS: Widths = Widths { word: 3, addr: 2 };

/// Whether a state is well-formed, typed at the start of `length`, and has this text.
fn has_text(alloc: Global, state: &State, text: &[u8]) -> Result<bool, Fail> {
    let arena = Bump::new(alloc);
    let checked = checked(alloc, &arena, WIDTHS, source_of(Ground::List))?;
    let entry = find_entry(&checked, "length", Some(3))?;
    if !well_formed(state, WIDTHS) || !typed(state, &checked, entry, Side::Start) {
        return Ok(false);
    }
    let mut sink = VecSink::new(alloc);
    let printed = print_state(state, &checked, entry, Side::Start, &mut sink);
    Ok(printed.is_ok() && sink.taken() == text)
}

/// Whether the state of a list of two items has this text, and the other text once its blocks have these new numbers.
fn has_texts(
    alloc: Global,
    items: &[u64],
    perm: &[u32],
    text: &[u8],
    other: &[u8],
) -> Result<bool, Fail>
    requires words { AllByRecursion (λ item. item < 8) items.now }
    requires perm { IsPermutation 3 perm.now }
{
    let state = list_state(alloc, WIDTHS, items)?;
    if state.cells.len() != 3 {
        return Ok(false);
    }
    let renamed = rename(alloc, &state, perm)?;
    Ok(has_text(alloc, &state, text)? && has_text(alloc, &renamed, other)?)
}

#[test]
fn a_list_is_renamed(rt: HostRuntime) -> Result<(), Fail> {
    let text = b"free 3\n1 live list (5, @2)\n2 live list (7, @0)\n3 free 0\nxs @1\nacc 0\n";
    let other = b"free 2\n1 live list (7, @0)\n2 free 0\n3 live list (5, @1)\nxs @3\nacc 0\n";
    let has = has_texts(rt.alloc(), &[5, 7], &[3, 1, 2], text, other)?;
    assert!(rt; has);
    Ok(())
}

#[test]
fn a_list_has_no_more_items_than_blocks(rt: HostRuntime) -> Result<(), Fail> {
    let fault = list_state(rt.alloc(), WIDTHS, &[0, 1, 2, 3]).err();
    assert_eq!(rt; fault, Some(GroundFault::TooMany { found: 4, limit: 3 }));
    Ok(())
}
