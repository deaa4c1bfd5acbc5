//! The emission of code as gates, with room for controls that is reserved before.
ghost use Rattle.std.specs.Prelude.{◌≡◌, ℕ, Bool, List, length, if◌then◌else◌, IfOk};
ghost use Rattle.std.specs.List.{AllByRecursion, count_by};
ghost use Rattle.tw_gate.specs.Gates.{act, all_one, Ascends, IsProper};
ghost use Rattle.tw_gate.specs.Taking.{Gave};
ghost use Rattle.tw_code.specs.Trees.{code_tree};
ghost use Rattle.tw_code.specs.Meaning.{mean};
ghost use Rattle.tw_code.specs.Wires.{IsProperCode, AreUnused};
ghost use Rattle.tw_code.specs.Emission.{emitted, HasControlsUpTo};
ghost use Rattle.tw_code.specs.Counts.{counts, neither, has_controls};

use crate::code::Code;
use crate::gates::emit_tree;
use crate::present::Present;
use std::alloc::{AllocError, Global};
use std::marker::Model;
use tw_gate::{GateOut, Stopped};

/// Room for the controls of one gate. Contracts see it as the number of controls that it has room for.
#[derive(Drop)]
pub struct Emitter {
    controls: Vec<u32>,
}

impl Model for Emitter {
    ghost use Rattle.std.specs.Prelude.{ℕ, length};

    ghost Value = { ℕ };

    ghost view = { λ e. length e.controls.items };
}

impl Emitter {
    /// An emitter of gates of at most this number of controls. An error: out of memory.
    pub fn new(alloc: Global, most_controls: u32) -> Result<Emitter, AllocError>
        ensures { IfOk result (λ emitter. emitter ≡ most_controls) }
    {
        Ok(Emitter {
            controls: vec![in alloc; 0; most_controls as usize]?,
        })
    }
}

/// Gives the gates of a code under these controls to a taker; backward if `back` is true. Does not allocate.
///
/// An X gate of the code gets the given controls and the wires of the `If`s around it, but none of them in the first part of a
/// `Conj`. `emitted` in `specs/Emission.antt` gives the gates in order.
///
/// The controls ascend strictly. The code is proper and uses none of them. Each of its gates has at most as many controls as the
/// emitter has room for, and fits the taker; more `If`s may enclose a part without gates.
///
/// On Ok the taker took all gates. If it stopped, it broke in them, and its fault counter rose. The emitter keeps its room.
/// The gates do what the code means if all controls are 1, and nothing if one of them is 0. The controls of each gate ascend
/// strictly and spare its target.
pub fn emit<O: GateOut>(
    emitter: &mut Emitter,
    code: &Code,
    back: bool,
    controls: &[u32],
    out: &mut O,
) -> Result<(), Stopped>
    requires ascending { Ascends controls.now }
    requires proper { IsProperCode (code_tree code.now) }
    requires unused { AreUnused controls.now (code_tree code.now) }
    requires room { AllByRecursion (HasControlsUpTo emitter.old) (emitted (code_tree code.now) back controls.now) }
    requires fits { AllByRecursion (O.fits out.old) (emitted (code_tree code.now) back controls.now) }
    ensures gave { Gave O.took O.broke O.faults out.old out.new result (emitted (code_tree code.now) back controls.now) }
    ensures room { emitter.new ≡ emitter.old }
    ensures acts { (bits : List Bool) → act (emitted (code_tree code.now) back controls.now) bits ≡ (if all_one controls.now bits then mean (code_tree code.now) back bits else bits) }
    ensures proper { AllByRecursion IsProper (emitted (code_tree code.now) back controls.now) }
    ensures counted { (wanted : ℕ) → count_by (has_controls wanted) (emitted (code_tree code.now) back controls.now) ≡ counts neither (code_tree code.now) (length controls.now) wanted }
{
    emit_tree(
        &mut emitter.controls,
        code,
        back,
        &Present::Given(controls),
        out,
    )
}
