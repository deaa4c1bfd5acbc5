//! Lines of bits and their images under gates.
ghost use Rattle.std.specs.Prelude.{◌≡◌, ◌≢◌, ◌⊎◌, ◌<◌, Bool, List, ◌++◌, length, map, Err, IfOk};
ghost use Rattle.std.specs.List.{AllByRecursion};
ghost use Rattle.tw_gate.specs.Gates.{HasWiresBelow, act};
ghost use Rattle.tw_sim.specs.BitLines.{bit_lines, HaveWires, AreLinesOf, AreRefused};
ghost use Rattle.tw_sim.specs.declared.lines.LinesFault.{LinesFault};
ghost use Rattle.tw_sim.specs.declared.lines.LinesFault.TheVariants as fault;

use crate::lanes::act_list_on_lanes;
use crate::lines::{LinesFault, check_lines};
use crate::transpose::{load, store};
use std::alloc::{AllocError, Global};
use tw_gate::GateList;

/// Appends the answer to the first 64 of right lines, or to all if they are fewer. Returns the text after them. There is a
/// word for each wire. What the words held is lost.
fn answer_block<'t>(
    gates: &GateList,
    text: &'t [u8],
    words: &mut [u64],
    answer: &mut Vec<u8>,
) -> Result<&'t [u8], AllocError>
    requires below { AllByRecursion (HasWiresBelow (length words.old)) gates.now }
    requires right { (states : List (List Bool)) × AreLinesOf (length words.old) text.now states }
    ensures answered { IfOk result (λ rest. (states : List (List Bool)) × HaveWires (length words.old) states × (text.now ≡ bit_lines states ++ rest.now) × (answer.new.items ≡ answer.old.items ++ bit_lines (map (act gates.now) states))) }
    ensures shorter { IfOk result (λ rest. 0 < length text.now → length rest.now < length text.now) }
{
    let (count, rest) = load(text, words);
    act_list_on_lanes(gates, words);
    store(count, words, answer)?;
    Ok(rest)
}

/// The answer to right lines.
fn answer_lines(
    alloc: Global,
    gates: &GateList,
    wires: usize,
    text: &[u8],
) -> Result<Vec<u8>, AllocError>
    requires below { AllByRecursion (HasWiresBelow wires) gates.now }
    requires right { (states : List (List Bool)) × AreLinesOf wires text.now states }
    ensures { IfOk result (λ answer. (states : List (List Bool)) × AreLinesOf wires text.now states × (answer.items ≡ bit_lines (map (act gates.now) states))) }
{
    let mut words = vec![in alloc; 0; wires]?;
    let mut answer = Vec::with_capacity(alloc, text.len())?;
    let mut rest = text;
    while !rest.is_empty() {
        rest = answer_block(gates, rest, &mut words, &mut answer)?;
    }
    Ok(answer)
}

/// Simulates the gates on each line of a text: line `i` of the answer is the image of line `i`. Each line has a bit for each
/// wire, wire 0 first. All wires of the gates are below `wires`.
///
/// The errors: the first line that does not have this number of bits; more lines than the limit; out of memory.
pub fn simulate(
    alloc: Global,
    gates: &GateList,
    wires: usize,
    text: &[u8],
) -> Result<Vec<u8>, LinesFault>
    requires { AllByRecursion (HasWiresBelow wires) gates.now }
    ensures answer { IfOk result (λ answer. (states : List (List Bool)) × AreLinesOf wires text.now states × (answer.items ≡ bit_lines (map (act gates.now) states))) }
    ensures only { IfOk result (λ answer. (states other : List (List Bool)) → AreLinesOf wires text.now states → AreLinesOf wires text.now other → states ≡ other) }
    ensures accepted { IfOk result (λ answer. (why : LinesFault) → ¬ AreRefused wires text.now why) }
    ensures refused { (why : LinesFault) → result ≡ Err why → (why ≡ fault.Memory) ⊎ AreRefused wires text.now why }
    ensures no_lines { (why : LinesFault) → result ≡ Err why → why ≢ fault.Memory → (states : List (List Bool)) → ¬ AreLinesOf wires text.now states }
    ensures one_refusal { (why : LinesFault) → result ≡ Err why → why ≢ fault.Memory → (other : LinesFault) → AreRefused wires text.now other → other ≡ why }
{
    check_lines(wires, text)?;
    match answer_lines(alloc, gates, wires, text) {
        Ok(answer) => Ok(answer),
        Err(AllocError) => Err(LinesFault::Memory),
    }
}
