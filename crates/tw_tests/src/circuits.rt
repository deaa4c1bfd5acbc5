//! Codes that are built, and their gates in a taker that keeps them in a list.
ghost use Rattle.std.specs.Prelude.{◌≡◌, ⊤, IfOk};
ghost use Rattle.std.specs.List.{AllByRecursion};
ghost use Rattle.tw_gate.specs.Gates.{Ascends};
ghost use Rattle.tw_gate.specs.Taking.{Grew, GrewPrefix};
ghost use Rattle.tw_gate.specs.Growing.{grew_none, grew_both, grew_prefix_later, grew_prefix_longer};
ghost use Rattle.tw_code.specs.Trees.{code_tree};
ghost use Rattle.tw_code.specs.Examples.{conjunction, chain, around};
ghost use Rattle.tw_code.specs.Wires.{IsProperCode, AreUnused};
ghost use Rattle.tw_code.specs.Emission.{emitted, HasControlsUpTo};

use bumpalo::Bump;
use std::alloc::{AllocError, Global};
use tw_code::{Code, Emitter, conjugated, controlled, emit, flip, sequence, with_setup};
use tw_gate::{Gate, GateList, GateOut, Stopped};

/// Keeps the gates that it takes in a list, and stops when memory runs out.
#[derive(Drop)]
struct Keeper {
    list: GateList,
    faults: u64,
}

impl GateOut for Keeper {
    ghost took = { λ a b gates. Grew a.list b.list gates };

    ghost broke = { λ a b gates. GrewPrefix a.list b.list gates };

    ghost fits = { λ a gate. ⊤ };

    ghost faults = { λ a. a.faults };

    ghost took_none = { λ a. grew_none a.list };

    ghost took_both = { λ a b c xs ys first second. grew_both a.list b.list c.list xs ys first second };

    ghost broke_later = { λ a b c xs ys first second. grew_prefix_later a.list b.list c.list xs ys first second };

    ghost broke_longer = { λ a b xs ys first. grew_prefix_longer a.list b.list xs ys first };

    ghost fits_stays = { λ a b xs gate taken. (λ fit. fit, λ fit. fit) };

    fn put(&mut self, gate: &Gate) -> Result<(), Stopped> {
        match self.list.push(gate) {
            Ok(()) => Ok(()),
            Err(AllocError) => {
                self.faults = self.faults.saturating_add(1);
                Err(Stopped)
            }
        }
    }
}

/// Whether the list is these X gates, each with its controls and its target.
fn are_gates(list: &GateList, wanted: &[(&[u32], u32)]) -> bool {
    list.len() == wanted.len()
        && (0..list.len()).all(|i| match list.gate(i) {
            Gate::X { controls, target } => controls == wanted[i].0 && target == wanted[i].1,
            _ => false,
        })
}

/// The gates of a code. An error: out of memory.
fn gates(
    alloc: Global,
    code: &Code,
    back: bool,
    controls: &[u32],
    room: u32,
) -> Result<GateList, AllocError>
    requires ascending { Ascends controls.now }
    requires proper { IsProperCode (code_tree code.now) }
    requires unused { AreUnused controls.now (code_tree code.now) }
    requires room { AllByRecursion (HasControlsUpTo room) (emitted (code_tree code.now) back controls.now) }
{
    let mut emitter = Emitter::new(alloc, room)?;
    let mut keeper = Keeper {
        list: GateList::new(alloc),
        faults: 0,
    };
    match emit(&mut emitter, code, back, controls, &mut keeper) {
        Ok(()) => Ok(keeper.list),
        Err(Stopped) => Err(AllocError),
    }
}

/// The conjunction of wires 3 and 4 on wire 5, if wire 2 is 1.
fn conjunction_code<'a>(arena: &'a Bump) -> Result<Code<'a>, AllocError>
    ensures { IfOk result (λ code. code_tree code ≡ conjunction) }
{
    let left = flip(arena, &[3], 7)?;
    let right = flip(arena, &[4], 8)?;
    let copies = sequence(arena.try_alloc_slice_copy(&[left, right])?);
    let both = conjugated(arena, copies, flip(arena, &[7, 8], 5)?)?;
    let guarded = controlled(arena, 6, both)?;
    let body = sequence(arena.try_alloc_slice_copy(&[guarded])?);
    conjugated(arena, flip(arena, &[2], 6)?, body)
}

/// Wire 0 goes to wire 1, and then wire 1 to wire 2.
fn chain_code<'a>(arena: &'a Bump) -> Result<Code<'a>, AllocError>
    ensures { IfOk result (λ code. code_tree code ≡ chain) }
{
    let first = flip(arena, &[0], 1)?;
    let second = flip(arena, &[1], 2)?;
    Ok(sequence(arena.try_alloc_slice_copy(&[first, second])?))
}

/// Under wire 1: wire 2 goes to wire 3, wire 3 to wire 0, and the first is undone.
fn around_code<'a>(arena: &'a Bump) -> Result<Code<'a>, AllocError>
    ensures { IfOk result (λ code. code_tree code ≡ around) }
{
    let setup = flip(arena, &[2], 3)?;
    let work = flip(arena, &[3], 0)?;
    controlled(arena, 1, with_setup(arena, setup, work)?)
}

#[test]
fn a_chain_is_reversed_under_controls(rt: HostRuntime) -> Result<(), AllocError> {
    let arena = Bump::new(rt.alloc());
    let list = gates(rt.alloc(), &chain_code(&arena)?, true, &[3, 5], 3)?;
    assert!(rt; are_gates(&list, &[(&[1, 3, 5], 2), (&[0, 3, 5], 1)]));
    Ok(())
}

#[test]
fn a_setup_has_the_controls_of_its_work(rt: HostRuntime) -> Result<(), AllocError> {
    let arena = Bump::new(rt.alloc());
    let list = gates(rt.alloc(), &around_code(&arena)?, false, &[], 2)?;
    assert!(rt; are_gates(&list, &[(&[1, 2], 3), (&[1, 3], 0), (&[1, 2], 3)]));
    Ok(())
}

#[test]
fn a_conjugation_has_no_controls(rt: HostRuntime) -> Result<(), AllocError> {
    let arena = Bump::new(rt.alloc());
    let list = gates(rt.alloc(), &conjunction_code(&arena)?, false, &[], 3)?;
    let wanted: [(&[u32], u32); 7] = [
        (&[2], 6),
        (&[3], 7),
        (&[4], 8),
        (&[6, 7, 8], 5),
        (&[4], 8),
        (&[3], 7),
        (&[2], 6),
    ];
    assert!(rt; are_gates(&list, &wanted));
    Ok(())
}
