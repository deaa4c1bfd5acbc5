//! Gate lines as letters and numbers, and the gates that they denote.
ghost use Rattle.std.specs.Prelude.{◌≡◌, ◌≢◌, ℕ, ◌<◌, ◌≤◌, ◌^◌, ◌++◌, [], ◌∷◌, List, length, take, codes, decimal, IfSome};
ghost use Rattle.std.specs.Option.{IfNone, option_copied};
ghost use Rattle.tw_text.specs.Prefix.{after};
ghost use Rattle.std.specs.List.{AllByRecursion};
ghost use Rattle.tw_gate.specs.Gates.{PlainGate, plain, X};
ghost use Rattle.tw_gatetext.specs.declared.gate_words.TheConstants.{MOST_NUMBERS};
ghost use Rattle.tw_gatetext.specs.Text.{spaced};
ghost use Rattle.tw_gatetext.specs.LineWords.{letters, numbers_of};
ghost use Rattle.tw_gatetext.specs.Reading.{HasNoSpace, AreLineNumbers, IsLineOf};

use crate::numbers::number_at;
use tw_gate::Gate;
use tw_text::CONTROLS_LIMIT;

/// The most numbers of a line: a count of controls, the controls and a target.
pub const MOST_NUMBERS: usize = CONTROLS_LIMIT as usize + 2;

/// A gate line: its letters, how many numbers it has, and the bytes after the line.
#[derive(Clone, Copy)]
pub struct LineWords<'b> {
    pub letters: &'b [u8],
    pub count: usize,
    pub rest: &'b [u8],
}

/// The letters up to the first space, and the rest from that space on.
fn word_at(bytes: &[u8]) -> Option<(&[u8], &[u8])>
    ensures some { IfSome result (λ found. HasNoSpace found.0.now × (bytes.now ≡ found.0.now ++ found.1.now)) }
    ensures space { IfSome result (λ found. (rest : List ℕ) × (found.1.now ≡ codes " " ++ rest)) }
    ensures none { IfNone result (HasNoSpace bytes.now) }
{
    let end = bytes.iter().position(|byte| *byte == b' ')?;
    Some((&bytes[..end], &bytes[end..]))
}

/// The bytes after this one. `None` if they do not begin with it. It is [`after`](tw_text::after) for one byte, without a loop.
#[inline(always)]
fn after_byte(byte: u8, bytes: &[u8]) -> Option<&[u8]>
    ensures { option_copied result ≡ after (byte ∷ []) bytes.now }
{
    match bytes.split_first() {
        Some((first, rest)) if *first == byte => Some(rest),
        _ => None,
    }
}

/// The number after a space, and the bytes after it.
#[inline(always)]
fn spaced_number(bytes: &[u8]) -> Option<(u32, &[u8])>
    ensures some { IfSome result (λ found. bytes.now ≡ codes " " ++ (decimal found.0 ++ found.1.now)) }
    ensures only { IfSome result (λ found. (n : ℕ) (ns rest : List ℕ) → n < 2 ^ 32 → bytes.now ≡ spaced (n ∷ ns) ++ (codes "\n" ++ rest) → (n ≡ found.0) × (found.1.now ≡ spaced ns ++ (codes "\n" ++ rest))) }
    ensures none { IfNone result ((n : ℕ) (ns rest : List ℕ) → n < 2 ^ 32 → ¬ (bytes.now ≡ spaced (n ∷ ns) ++ (codes "\n" ++ rest))) }
{
    let (number, rest) = number_at(after_byte(b' ', bytes)?)?;
    Some((u32::try_from(number).ok()?, rest))
}

/// Reads the numbers up to the end of the line, each after a space, into a buffer of as many numbers as a line can have. Returns
/// how many they are, and the bytes after the line.
#[inline(always)]
fn spaced_numbers<'b>(bytes: &'b [u8], numbers: &mut [u32]) -> Option<(usize, &'b [u8])>
    requires { length numbers.old ≡ MOST_NUMBERS }
    ensures len { length numbers.new ≡ MOST_NUMBERS }
    ensures some { IfSome result (λ found. bytes.now ≡ spaced (take found.0 numbers.new) ++ (codes "\n" ++ found.1.now)) }
    ensures few { IfSome result (λ found. found.0 ≤ MOST_NUMBERS) }
    ensures small { IfSome result (λ found. AllByRecursion (λ n. n < 2 ^ 32) (take found.0 numbers.new)) }
    ensures none { IfNone result ((ns rest : List ℕ) → length ns ≤ MOST_NUMBERS → AllByRecursion (λ n. n < 2 ^ 32) ns → ¬ (bytes.now ≡ spaced ns ++ (codes "\n" ++ rest))) }
{
    let mut count = 0;
    let mut rest = bytes;
    while count < numbers.len() {
        if let Some(behind) = after_byte(b'\n', rest) {
            return Some((count, behind));
        }
        let (number, behind) = spaced_number(rest)?;
        numbers[count] = number;
        count += 1;
        rest = behind;
    }
    let behind = after_byte(b'\n', rest)?;
    Some((count, behind))
}

/// Reads the gate line at the start, as letters and numbers, into a buffer of as many numbers as a line can have.
#[inline(always)]
pub fn line_words<'b>(bytes: &'b [u8], numbers: &mut [u32]) -> Option<LineWords<'b>>
    requires { length numbers.old ≡ MOST_NUMBERS }
    ensures len { length numbers.new ≡ MOST_NUMBERS }
    ensures few { IfSome result (λ words. words.count ≤ MOST_NUMBERS) }
    ensures some { IfSome result (λ words. HasNoSpace words.letters.now × IsLineOf bytes.now words.letters.now (take words.count numbers.new) words.rest.now) }
    ensures numbers { IfSome result (λ words. AreLineNumbers (take words.count numbers.new)) }
    ensures none { IfNone result ((word ns rest : List ℕ) → HasNoSpace word → AreLineNumbers ns → ¬ IsLineOf bytes.now word ns rest) }
{
    let (letters, behind) = word_at(bytes)?;
    let (count, rest) = spaced_numbers(behind, numbers)?;
    Some(LineWords {
        letters,
        count,
        rest,
    })
}

/// The X gate of this number of controls on these wires, the target last.
fn x_gate(wires: &[u32], controls: usize) -> Option<Gate<'_>>
    ensures some { IfSome result (λ gate. (others : List ℕ) × (target : ℕ) × (plain gate ≡ X others target) × (length others ≡ controls) × (wires.now ≡ others ++ target ∷ [])) }
    ensures none { IfNone result ((others : List ℕ) (target : ℕ) → length others ≡ controls → ¬ (wires.now ≡ others ++ target ∷ [])) }
{
    let (target, others) = wires.split_last()?;
    if others.len() == controls {
        Some(Gate::X {
            controls: others,
            target: *target,
        })
    } else {
        None
    }
}

/// The gate of this word and these numbers.
#[inline(always)]
pub fn gate_of<'n>(word: &[u8], numbers: &'n [u32]) -> Option<Gate<'n>>
    ensures some { IfSome result (λ gate. (word.now ≡ letters (plain gate)) × (numbers.now ≡ numbers_of (plain gate))) }
    ensures none { IfNone result ((gate : PlainGate) → word.now ≡ letters gate → ¬ (numbers.now ≡ numbers_of gate)) }
{
    match word {
        b"x" => x_gate(numbers, 0),
        b"cx" => x_gate(numbers, 1),
        b"ccx" => x_gate(numbers, 2),
        b"mcx" => many_controls(numbers),
        _ => one_wire(word, numbers),
    }
}

/// The X gate of three or more controls. The first number is their count.
fn many_controls(numbers: &[u32]) -> Option<Gate<'_>>
    ensures some { IfSome result (λ gate. (others : List ℕ) × (target : ℕ) × (plain gate ≡ X others target) × (3 ≤ length others) × (numbers.now ≡ length others ∷ (others ++ target ∷ []))) }
    ensures none { IfNone result ((others : List ℕ) (target : ℕ) → 3 ≤ length others → ¬ (numbers.now ≡ length others ∷ (others ++ target ∷ []))) }
{
    let (controls, wires) = numbers.split_first()?;
    if *controls < 3 {
        return None;
    }
    x_gate(wires, *controls as usize)
}

/// The gate on one wire of this word.
fn one_wire<'n>(word: &[u8], numbers: &[u32]) -> Option<Gate<'n>>
    ensures some { IfSome result (λ gate. (word.now ≡ letters (plain gate)) × (numbers.now ≡ numbers_of (plain gate))) }
    ensures none { IfNone result ((wire : ℕ) → numbers.now ≡ wire ∷ [] → (word.now ≢ codes "h") × (word.now ≢ codes "t") × (word.now ≢ codes "tdg")) }
{
    let [wire] = numbers else {
        return None;
    };
    match word {
        b"h" => Some(Gate::H(*wire)),
        b"t" => Some(Gate::T(*wire)),
        b"tdg" => Some(Gate::Tdg(*wire)),
        _ => None,
    }
}
