//! The gates of a code, given to a taker.
ghost use Rattle.std.specs.Prelude.{[], ◌∷◌, ◌++◌, length, map};
ghost use Rattle.std.specs.List.{AllByRecursion};
ghost use Rattle.tw_gate.specs.Gates.{X};
ghost use Rattle.tw_gate.specs.Taking.{Gave};
ghost use Rattle.tw_code.specs.Trees.{code_tree, sequence};
ghost use Rattle.tw_code.specs.Sorting.{sorted};
ghost use Rattle.tw_code.specs.Emission.{emitted, CanTake};
ghost use Rattle.tw_code.specs.Present.{present_list};

use crate::code::Code;
use crate::present::{Present, gather};
use tw_gate::{Gate, GateOut, Stopped};

/// Gives an X gate with its own and the present controls, in ascending order.
fn emit_flip<O: GateOut>(
    buffer: &mut [u32],
    own: &[u32],
    target: u32,
    present: &Present,
    out: &mut O,
) -> Result<(), Stopped>
    requires { CanTake O.fits out.old (length buffer.old) (X (sorted (own.now ++ present_list present.now)) target) }
    ensures { Gave O.took O.broke O.faults out.old out.new result (X (sorted (own.now ++ present_list present.now)) target ∷ []) }
{
    let count = gather(buffer, own, present);
    let controls = &mut buffer[..count];
    controls.sort_unstable();
    out.put(&Gate::X { controls, target })
}

/// Gives the gates of the parts of a sequence.
#[cycle(emit)]
#[tactic(auto, using(crate::proofs::Parts::tree_of_seq))]
fn emit_parts<O: GateOut>(
    buffer: &mut [u32],
    parts: &[Code],
    back: bool,
    present: &Present,
    out: &mut O,
) -> Result<(), Stopped>
    requires { AllByRecursion (CanTake O.fits out.old (length buffer.old)) (emitted (sequence (map code_tree parts.now)) back (present_list present.now)) }
    ensures { Gave O.took O.broke O.faults out.old out.new result (emitted (sequence (map code_tree parts.now)) back (present_list present.now)) }
{
    if back {
        let mut left = parts.len();
        while left > 0 {
            left -= 1;
            emit_tree(buffer, &parts[left], true, present, out)?;
        }
    } else {
        for part in parts {
            emit_tree(buffer, part, false, present, out)?;
        }
    }
    Ok(())
}

/// Gives the gates of a code under the present controls.
#[cycle(emit)]
#[tactic(auto, using(crate::proofs::Parts::tree_of_seq))]
pub fn emit_tree<O: GateOut>(
    buffer: &mut [u32],
    code: &Code,
    back: bool,
    present: &Present,
    out: &mut O,
) -> Result<(), Stopped>
    requires { AllByRecursion (CanTake O.fits out.old (length buffer.old)) (emitted (code_tree code.now) back (present_list present.now)) }
    ensures { Gave O.took O.broke O.faults out.old out.new result (emitted (code_tree code.now) back (present_list present.now)) }
{
    match code {
        Code::Flip { controls, target } => emit_flip(buffer, controls, *target, present, out),
        Code::Seq(parts) => emit_parts(buffer, parts, back, present, out),
        Code::If(wire, body) => {
            emit_tree(buffer, body, back, &Present::Under(*wire, &*present), out)
        }
        Code::With(setup, work) => {
            emit_tree(buffer, setup, false, present, out)?;
            emit_tree(buffer, work, back, present, out)?;
            emit_tree(buffer, setup, true, present, out)
        }
        Code::Conj(setup, work) => {
            let none = Present::Given(&[]);
            emit_tree(buffer, setup, false, &none, out)?;
            emit_tree(buffer, work, back, present, out)?;
            emit_tree(buffer, setup, true, &none, out)
        }
    }
}
