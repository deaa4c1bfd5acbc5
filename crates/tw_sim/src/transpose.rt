//! Lines of bits into lanes of words, and back. The bits of a line are adjacent; the bits of a lane are in one word each.
ghost use Rattle.std.specs.Prelude.{◌≡◌, ◌≢◌, ◌==◌, ℕ, ◌<◌, ◌≤◌, Bool, false, List, ◌++◌, length, map, replicate, OnOk};
ghost use Rattle.tw_sim.specs.BitLines.{bit_line, bit_lines, AreLinesOf};
ghost use Rattle.tw_sim.specs.Lanes.{lane, lanes};

use std::alloc::AllocError;

/// The number of lines that are simulated at once.
const LANES: usize = 64;

/// Sets a lane, which is 0, to the bits of a line.
fn load_lane(place: usize, digits: &[u8], words: &mut [u64])
    requires place { place < 64 }
    requires wide { length digits.now ≡ length words.old }
    requires zero { lane place words.old ≡ replicate (length words.old) false }
    ensures lane { lane place words.new ≡ map (λ byte. byte == 49) digits.now }
    ensures others { (other : ℕ) → other ≢ place → lane other words.new ≡ lane other words.old }
{
    for wire in 0..words.len() {
        words[wire] |= u64::from(digits[wire] == b'1') << place;
    }
}

/// Loads the line at the start of a text into a lane, which is 0. Returns the text after it.
fn load_line<'t>(place: usize, text: &'t [u8], words: &mut [u64]) -> &'t [u8]
    requires place { place < 64 }
    requires line { (bits : List Bool) × (behind : List ℕ) × (length bits ≡ length words.old) × (text.now ≡ bit_line bits ++ behind) }
    requires zero { lane place words.old ≡ replicate (length words.old) false }
    ensures lane { text.now ≡ bit_line (lane place words.new) ++ result.now }
    ensures others { (other : ℕ) → other ≢ place → lane other words.new ≡ lane other words.old }
    ensures len { length words.new ≡ length words.old }
{
    let wires = words.len();
    load_lane(place, &text[..wires], words);
    &text[wires + 1..]
}

/// Loads right lines into the lanes of the words, line `i` into lane `i`: all lines, or the first 64. Returns how many those are,
/// and the text after them. What the words held is lost.
pub fn load<'t>(text: &'t [u8], words: &mut [u64]) -> (usize, &'t [u8])
    requires { (states : List (List Bool)) × AreLinesOf (length words.old) text.now states }
    ensures few { result.0 ≤ 64 }
    ensures read { text.now ≡ bit_lines (lanes result.0 words.new) ++ result.1.now }
    ensures shorter { 0 < length text.now → length result.1.now < length text.now }
    ensures len { length words.new ≡ length words.old }
{
    words.fill(0);
    let mut rest = text;
    let mut place = 0;
    while place < LANES && !rest.is_empty() {
        rest = load_line(place, rest, words);
        place += 1;
    }
    (place, rest)
}

/// Appends the line of a lane.
fn store_lane(place: usize, words: &[u64], text: &mut Vec<u8>) -> Result<(), AllocError>
    requires { place < 64 }
    ensures { OnOk result (text.new.items ≡ text.old.items ++ bit_line (lane place words.now)) }
{
    for word in words {
        text.push(b'0' + (*word >> place & 1) as u8)?;
    }
    text.push(b'\n')?;
    Ok(())
}

/// Appends the lines of the first lanes.
pub fn store(count: usize, words: &[u64], text: &mut Vec<u8>) -> Result<(), AllocError>
    requires { count ≤ 64 }
    ensures { OnOk result (text.new.items ≡ text.old.items ++ bit_lines (lanes count words.now)) }
{
    for place in 0..count {
        store_lane(place, words, text)?;
    }
    Ok(())
}
