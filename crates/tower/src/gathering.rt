//! A taker of gates that gathers them in a list.
ghost use Rattle.std.specs.Prelude.{◌≡◌, false, [], ⊤, IfOk};
ghost use Rattle.std.specs.List.{AllByRecursion};
ghost use Rattle.tw_gate.specs.Taking.{Grew, GrewPrefix};
ghost use Rattle.tw_gate.specs.Growing.{grew_both, grew_none, grew_prefix_later, grew_prefix_longer};
ghost use Rattle.tw_code.specs.Emission.{emitted, HasControlsUpTo};
ghost use Rattle.tw_code.specs.Trees.{code_tree};
ghost use Rattle.tw_code.specs.Wires.{IsProperCode};

use std::alloc::{AllocError, Global};
use tw_code::{Code, Emitter, emit};
use tw_gate::{Gate, GateList, GateOut, Stopped};

/// Gathers the gates that it takes, and stops if memory runs out. Each gate fits.
#[derive(Drop)]
struct Gathered {
    gates: GateList,
    faults: u64,
}

impl GateOut for Gathered {
    ghost took = { λ a b gates. Grew a.gates b.gates gates };

    ghost broke = { λ a b gates. GrewPrefix a.gates b.gates gates };

    ghost fits = { λ a gate. ⊤ };

    ghost faults = { λ a. a.faults };

    ghost took_none = { λ a. grew_none a.gates };

    ghost took_both = { λ a b c xs ys first second. grew_both a.gates b.gates c.gates xs ys first second };

    ghost broke_later = { λ a b c xs ys first second. grew_prefix_later a.gates b.gates c.gates xs ys first second };

    ghost broke_longer = { λ a b xs ys first. grew_prefix_longer a.gates b.gates xs ys first };

    ghost fits_stays = { λ a b xs gate taken. (λ fit. fit, λ fit. fit) };

    fn put(&mut self, gate: &Gate) -> Result<(), Stopped> {
        match self.gates.push(gate) {
            Ok(()) => Ok(()),
            Err(AllocError) => {
                self.faults = self.faults.saturating_add(1);
                Err(Stopped)
            }
        }
    }
}

/// The gates of a code, none of which has more controls than `most_controls`. An error: out of memory.
pub fn gates_of(alloc: Global, code: &Code<'_>, most_controls: u32) -> Result<GateList, AllocError>
    requires proper { IsProperCode (code_tree code.now) }
    requires room { AllByRecursion (HasControlsUpTo most_controls) (emitted (code_tree code.now) false []) }
    ensures { IfOk result (λ gates. gates ≡ emitted (code_tree code.now) false []) }
{
    let mut emitter = Emitter::new(alloc, most_controls)?;
    let mut gathered = Gathered {
        gates: GateList::new(alloc),
        faults: 0,
    };
    match emit(&mut emitter, code, false, &[], &mut gathered) {
        Ok(()) => Ok(gathered.gates),
        Err(Stopped) => Err(AllocError),
    }
}
